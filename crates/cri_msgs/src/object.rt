ghost use Rattle.std.specs.Prelude.{◌≡◌, IfOk};
ghost use Rattle.serde_json.specs.Data.{no_members, object, put, string};
ghost use Rattle.serde_json.specs.View.{members_view, view};
ghost use Rattle.cri_msgs.specs.Written.{whole_number};

use serde_json::{Map, Value};
use std::alloc::{AllocError, Global};

// A JSON object that is being built. Each step takes it and returns it with one member more, so a step that
// runs out of memory leaves its caller nothing to drop.
#[derive(Drop)]
pub(crate) struct Object {
    alloc: Global,
    pub members: Map<String, Value>,
}

impl Object {
    pub(crate) fn new(alloc: Global) -> Object
        ensures { members_view result.members.entries ≡ no_members }
    {
        let members = Map::new(alloc);
        Object { alloc, members }
    }

    pub(crate) fn with(self, key: &str, value: Value) -> Result<Object, AllocError>
        ensures { IfOk result (λ o. members_view o.members.entries
            ≡ put key.now (view value) (members_view self.members.entries)) }
    {
        let Object { alloc, mut members } = self;
        let name = String::from_str(alloc, key)?;
        drop(members.insert(name, value)?);
        Ok(Object { alloc, members })
    }

    pub(crate) fn text(self, key: &str, text: &str) -> Result<Object, AllocError>
        ensures { IfOk result (λ o. members_view o.members.entries
            ≡ put key.now (string text.now) (members_view self.members.entries)) }
    {
        let value = Value::try_from_str(self.alloc, text)?;
        self.with(key, value)
    }

    pub(crate) fn whole(self, key: &str, number: u64) -> Result<Object, AllocError>
        ensures { IfOk result (λ o. members_view o.members.entries
            ≡ put key.now (whole_number number) (members_view self.members.entries)) }
    {
        self.with(key, Value::from(number))
    }

    pub(crate) fn done(self) -> Value
        ensures { view result ≡ object (members_view self.members.entries) }
    {
        Value::Object(self.members)
    }
}

ghost use Rattle.std.specs.Prelude.{◌≡◌, Err, map};
ghost use Rattle.serde_json.specs.View.{view};
ghost use Rattle.json_tree.specs.declared.faults.FieldFault.{FieldFault};
ghost use Rattle.json_tree.specs.Reading.{Gives, as_read, required};
ghost use Rattle.json_tree.specs.Tree as kind;

use crate::faults::FieldFault;
use crate::kinds::{list, object, text, value, whole, word};
use crate::lists::wholes;
use serde_json::Value;
use std::alloc::Global;

// Each returns `Missing` if the field is absent, and `WrongType` if it has another type, such as null. Those
// that allocate return `Memory` if an allocation fails, but a fault of the field is reported even if memory
// runs out.

/// The whole number of a required field.
#[tactic(auto, unfolding(crate::specs::Reading::required))]
pub fn required_whole(tree: &Value, key: &str) -> Result<u64, FieldFault>
    ensures { result ≡ required kind.whole key.now (view tree.now) }
{
    let found = tree.get(key).ok_or(FieldFault::Missing)?;
    whole(found).ok_or(FieldFault::WrongType)
}

/// The whole number below 2^32 of a required field.
#[tactic(auto, unfolding(crate::specs::Reading::required))]
pub fn required_word(tree: &Value, key: &str) -> Result<u32, FieldFault>
    ensures { result ≡ required kind.word key.now (view tree.now) }
{
    let found = tree.get(key).ok_or(FieldFault::Missing)?;
    word(found).ok_or(FieldFault::WrongType)
}

/// The text of a required field.
#[tactic(auto, unfolding(crate::specs::Reading::required))]
pub fn required_text<'v>(tree: &'v Value, key: &str) -> Result<&'v str, FieldFault>
    ensures { as_read (λ t. t.now) result ≡ required kind.text key.now (view tree.now) }
{
    let found = tree.get(key).ok_or(FieldFault::Missing)?;
    text(found).ok_or(FieldFault::WrongType)
}

/// The items of the list of a required field.
#[tactic(auto, unfolding(crate::specs::Reading::required))]
pub fn required_list<'v>(tree: &'v Value, key: &str) -> Result<&'v [Value], FieldFault>
    ensures { as_read (λ items. map view items.now) result ≡ required kind.list key.now (view tree.now) }
{
    let found = tree.get(key).ok_or(FieldFault::Missing)?;
    list(found).ok_or(FieldFault::WrongType)
}

/// The object of a required field.
#[tactic(auto, unfolding(crate::specs::Reading::required))]
pub fn required_object<'v>(tree: &'v Value, key: &str) -> Result<&'v Value, FieldFault>
    ensures { as_read (λ v. view v.now) result ≡ required kind.object key.now (view tree.now) }
{
    let found = tree.get(key).ok_or(FieldFault::Missing)?;
    object(found).ok_or(FieldFault::WrongType)
}

/// The whole numbers of the list of a required field.
#[tactic(auto, unfolding(crate::specs::Reading::required))]
pub fn required_wholes(alloc: Global, tree: &Value, key: &str) -> Result<Vec<u64>, FieldFault>
    ensures value { Gives FieldFault.Memory (λ v. v.items) result
        (required kind.wholes key.now (view tree.now)) }
    ensures told { (fault : FieldFault) → required kind.wholes key.now (view tree.now) ≡ Err fault
        → result ≡ Err fault }
{
    let found = tree.get(key).ok_or(FieldFault::Missing)?;
    wholes(alloc, found)?.ok_or(FieldFault::WrongType)
}

/// The value of a required field, of any type but null.
#[tactic(auto, unfolding(crate::specs::Reading::required))]
pub fn required_value<'v>(tree: &'v Value, key: &str) -> Result<&'v Value, FieldFault>
    ensures { as_read (λ v. view v.now) result ≡ required kind.value key.now (view tree.now) }
{
    let found = tree.get(key).ok_or(FieldFault::Missing)?;
    value(found).ok_or(FieldFault::WrongType)
}

//! The whole history, which only contracts see.
ghost use Rattle.std.specs.Prelude.{◌≡◌, List, [], ◌∷◌, ◌++◌};
ghost use Rattle.std.specs.Borrow.{ftrue};
ghost use Rattle.node_lock.specs.declared.entries.Entry.{Entry};

use crate::entries::Entry;
use std::marker::Model;

/// All entries of all parts, oldest first. It has no bytes, and its functions do nothing at run time.
#[derive(Drop)]
pub(crate) struct Whole {
    pub(crate) ghost entries: { List Entry },
}

impl Model for Whole {
    ghost also_owns = { λ _. ftrue };
}

unsafe impl Send for Whole {}

impl Whole {
    /// No entry yet.
    pub(crate) fn none() -> Whole
        ensures { result.entries ≡ [] }
    {
        Whole {}
    }

    /// These entries and one more.
    pub(crate) fn and(&self, entry: &Entry) -> Whole
        ensures { result.entries ≡ self.now.entries ++ entry.now ∷ [] }
    {
        Whole {}
    }
}

//! The whole list of past runs, which only clauses see.
ghost use Rattle.std.specs.Prelude.{◌≡◌, List, [], ◌∷◌, ◌++◌};
ghost use Rattle.std.specs.Borrow.{ftrue};
ghost use Rattle.lifecycle.specs.BackOff.{Run};

use crate::past_run::PastRun;
use std::marker::Model;

/// All past runs of a container, the oldest first. It has no bytes, and its functions do nothing at run time.
#[derive(Drop)]
pub struct History {
    pub(crate) ghost runs: { List Run },
}

impl Model for History {
    ghost also_owns = { λ _. ftrue };
}

unsafe impl Send for History {}

impl History {
    /// No runs yet.
    pub(crate) fn none() -> History
        ensures { result.runs ≡ [] }
    {
        History {}
    }

    /// These runs and one more.
    pub(crate) fn and(&self, run: &PastRun) -> History
        ensures { result.runs ≡ self.now.runs ++ run.now ∷ [] }
    {
        History {}
    }
}

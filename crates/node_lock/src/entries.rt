ghost use Rattle.std.specs.Prelude.{◌≡◌, ◌↔◌, IsTrue};

use worker_core::{AgentEvent, Answer};

/// What a worker did under the lock, and what was answered. Worker 0 admits, deletes and advances the time,
/// the others claim.
#[derive(Debug, Drop)]
pub struct Entry {
    pub worker: u32,
    pub event: AgentEvent,
    pub answer: Answer,
}

impl Entry {
    /// Whether both are the same entry.
    pub fn same(&self, other: &Entry) -> bool
        ensures { IsTrue result ↔ (self.now ≡ other.now) }
    {
        self.worker == other.worker
            && self.event.same(&other.event)
            && self.answer.same(&other.answer)
    }
}

//! Whether a node waits only for time to pass.
ghost use Rattle.worker_crew.specs.Idle.{Stands};

use node_lock::Book;
use std::sync::ledger::Ledger;
use worker_core::AgentEvent;

/// Why no worker has anything to do.
#[derive(Clone, Copy, Debug, PartialEq, Eq)]
pub(crate) enum IdleReason {
    /// No worker is left.
    Deserted,
    /// Each pod is Succeeded or Failed.
    Over,
    /// The current part of the history has no room for a claim.
    Full,
    /// Nothing is due before this moment.
    At(u64),
    /// Nothing will ever be due.
    Never,
    /// Workers have had something to do at this moment for so long that it counts as endless.
    Endless,
}

/// What worker 0 has to do at this moment. `None` if the workers have something to do.
pub(crate) fn idle_reason<L: Ledger>(book: &Book<L>, workers: u32, now: u64) -> Option<IdleReason>
    ensures { Stands book.now workers now result }
{
    let node = book.node();
    if workers == 0 {
        return Some(IdleReason::Deserted);
    }
    if node.held() > 0 {
        return None;
    }
    // A pod that is over has something due if it was deleted: it must leave.
    let due = node.next_due();
    if due.is_none() && node.is_settled() {
        return Some(IdleReason::Over);
    }
    if !book.has_room(&AgentEvent::Claim(1)) {
        return Some(IdleReason::Full);
    }
    match due {
        None => Some(IdleReason::Never),
        Some(due) if due > now => Some(IdleReason::At(due)),
        Some(_) => None,
    }
}

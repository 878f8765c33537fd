//! How often a folder of manifests is read, and which events a look may cause.
ghost use Rattle.std.specs.Prelude.{◌≡◌, IfSome};
ghost use Rattle.agent_parts.specs.Looks.{rest_after};
ghost use Rattle.node_lock.specs.Books.{worker_of};

use crate::limits::{LONGEST_REST, LOOK_SHARE, SHORTEST_REST};
use worker_core::AgentEvent;

/// The milliseconds from the beginning of a look that took `spent` milliseconds to the next one: looks take
/// at most a hundredth of a core, but there is at least one every ten seconds, and at most one every second.
pub fn rest_after(spent: u64) -> u64
    ensures { result ≡ rest_after spent }
{
    spent
        .saturating_mul(LOOK_SHARE)
        .max(SHORTEST_REST)
        .min(LONGEST_REST)
}

/// The event, if worker 0 may record it for a folder.
pub fn for_node(event: AgentEvent) -> Option<AgentEvent>
    ensures { IfSome result (λ event. worker_of event ≡ 0) }
{
    match event {
        AgentEvent::Admit(_) | AgentEvent::Delete(_) => Some(event),
        _ => None,
    }
}

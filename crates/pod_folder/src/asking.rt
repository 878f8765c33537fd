use crate::placed::PlacedPod;
use manifest::Uid;
use worker_core::AgentEvent;

/// The last request to the node.
#[derive(Drop)]
pub enum Asked {
    /// Nothing, or it was recorded.
    Nothing,
    /// To delete the pod of this uid.
    Delete(Uid),
    /// To admit this pod.
    Admit(PlacedPod),
}

/// What is due.
#[derive(Drop)]
pub enum Due {
    /// The node must record this event.
    Event(AgentEvent),
    /// No uid can be made for the pod of the file at this place: it would be too long.
    Unnamed(usize),
    /// Nothing.
    Idle,
}

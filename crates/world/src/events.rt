ghost use Rattle.std.specs.Prelude.{◌≡◌};
ghost use Rattle.world.specs.World.{agent_event};

use manifest::{Pod, Uid};
use runtime_core::FileAnswers;
use worker_core::AgentEvent;

/// The agent's own acts. Workers are named by number, moments are in seconds.
#[derive(Drop)]
pub enum Act {
    /// A pod for the node.
    Admit(Pod),
    /// The pod of this uid must leave.
    Delete(Uid),
    /// This worker asks for a request. If it is given one, that is sent.
    Claim(u32),
    /// The time is this moment now.
    Tick(u64),
    /// This worker abandons its request.
    Abandon(u32),
}

impl Act {
    // The node's event.
    pub(crate) fn event(self) -> AgentEvent
        ensures { result ≡ agent_event self }
    {
        match self {
            Act::Admit(pod) => AgentEvent::Admit(pod),
            Act::Delete(uid) => AgentEvent::Delete(uid),
            Act::Claim(worker) => AgentEvent::Claim(worker),
            Act::Tick(now) => AgentEvent::Tick(now),
            Act::Abandon(worker) => AgentEvent::Abandon(worker),
        }
    }
}

/// What happens in a world. Requests and replies are named by their places in the bag, from 0 in order of
/// entry.
#[derive(Drop)]
pub enum WorldEvent {
    /// The agent acts by itself.
    Agent(Act),
    /// The runtime serves the request at this place, with these results of reading its files.
    Serve(usize, FileAnswers),
    /// This worker reports the reply at this place, which was given to its request.
    Report(u32, usize),
    /// This worker reports that no reply came.
    Lose(u32),
    /// The cell of this id does a step.
    StepCell(u64),
    /// The cell of this id is ended with this code.
    KillCell(u64, u8),
}

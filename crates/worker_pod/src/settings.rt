ghost use Rattle.std.specs.Prelude.{◌≡◌, IfOk};

use cri_msgs::{Reply, Version};
use std::alloc::{AllocError, Global};

// How many seconds a pod rests after a refusal, a loss or an abandoned claim.
pub(crate) const REST: u64 = 10;

// The last attempt: none follows it.
pub(crate) const LAST_ATTEMPT: u32 = 4_294_967_295;

/// The settings of a node's agent.
#[derive(Clone, Copy, Debug, PartialEq, Eq)]
pub struct Settings {
    /// Whether a container without a profile gets the profile of the runtime.
    pub seccomp_default: bool,
    /// The seconds between a report of a container's status and the next request for it.
    pub poll: u64,
    /// The version in which it speaks to the runtime. By version 2 it asks for the statuses of a pod's
    /// containers with one request.
    pub version: Version,
}

/// How a claim ended.
#[derive(Debug, Drop)]
pub enum Outcome {
    /// The request was sent, and this came back.
    Replied(Reply),
    /// No reply came, and nobody knows whether the request was carried out.
    Lost,
    /// The worker abandoned the claim.
    Abandoned,
}

impl Outcome {
    /// A copy of the outcome.
    pub fn try_clone(&self, alloc: Global) -> Result<Outcome, AllocError>
        ensures { IfOk result (λ copy. copy ≡ self.now) }
    {
        match self {
            Outcome::Replied(reply) => Ok(Outcome::Replied(reply.try_clone(alloc)?)),
            Outcome::Lost => Ok(Outcome::Lost),
            Outcome::Abandoned => Ok(Outcome::Abandoned),
        }
    }
}

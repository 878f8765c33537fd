ghost use Rattle.std.specs.Prelude.{◌≡◌, ◌↔◌, IfOk, IsTrue};
ghost use Rattle.worker_core.specs.Kept.{gives_request};
ghost use Rattle.worker_core.specs.Slots.{outcome_of};

use cri_msgs::Reply;
use manifest::{Pod, Uid};
use std::alloc::{AllocError, Global};
use worker_pod::Outcome;

/// What a worker reports of the request that it was given.
#[derive(Debug, Drop)]
pub enum Reported {
    /// It was sent, and this reply came back.
    Replied(Reply),
    /// No reply came, and nobody knows whether it was carried out.
    Lost,
}

impl Reported {
    /// Whether both reports are the same.
    pub fn same(&self, other: &Reported) -> bool
        ensures { IsTrue result ↔ (self.now ≡ other.now) }
    {
        match (self, other) {
            (Reported::Replied(reply), Reported::Replied(another)) => reply.same(another),
            (Reported::Lost, Reported::Lost) => true,
            _ => false,
        }
    }

    /// A copy of the report.
    pub fn try_clone(&self, alloc: Global) -> Result<Reported, AllocError>
        ensures { IfOk result (λ copy. copy ≡ self.now) }
    {
        match self {
            Reported::Replied(reply) => Ok(Reported::Replied(reply.try_clone(alloc)?)),
            Reported::Lost => Ok(Reported::Lost),
        }
    }

    // How the report ends the claim.
    pub(crate) fn outcome(self) -> Outcome
        ensures { result ≡ outcome_of self }
    {
        match self {
            Reported::Replied(reply) => Outcome::Replied(reply),
            Reported::Lost => Outcome::Lost,
        }
    }
}

/// What happens to a node. Workers are named by number, moments are in seconds.
#[derive(Debug, Drop)]
pub enum AgentEvent {
    /// A pod for the node.
    Admit(Pod),
    /// The pod of this uid must leave.
    Delete(Uid),
    /// This worker asks for a request.
    Claim(u32),
    /// This worker reports the result of its request.
    Report(u32, Reported),
    /// The time is this moment now.
    Tick(u64),
    /// This worker abandons its request.
    Abandon(u32),
}

impl AgentEvent {
    /// Whether a worker asks for a request.
    pub fn is_claim(&self) -> bool
        ensures { result ≡ gives_request self.now }
    {
        match self {
            AgentEvent::Claim(_) => true,
            _ => false,
        }
    }

    /// Whether both are the same event.
    pub fn same(&self, other: &AgentEvent) -> bool
        ensures { IsTrue result ↔ (self.now ≡ other.now) }
    {
        match (self, other) {
            (AgentEvent::Admit(pod), AgentEvent::Admit(another)) => pod.same(another),
            (AgentEvent::Delete(uid), AgentEvent::Delete(another)) => {
                uid.as_str() == another.as_str()
            }
            (AgentEvent::Claim(worker), AgentEvent::Claim(another))
            | (AgentEvent::Abandon(worker), AgentEvent::Abandon(another)) => *worker == *another,
            (AgentEvent::Report(worker, told), AgentEvent::Report(another, its)) => {
                *worker == *another && told.same(its)
            }
            (AgentEvent::Tick(now), AgentEvent::Tick(another)) => *now == *another,
            _ => false,
        }
    }

    /// A copy of the event.
    pub fn try_clone(&self, alloc: Global) -> Result<AgentEvent, AllocError>
        ensures { IfOk result (λ copy. copy ≡ self.now) }
    {
        match self {
            AgentEvent::Admit(pod) => Ok(AgentEvent::Admit(pod.try_clone(alloc)?)),
            AgentEvent::Delete(uid) => Ok(AgentEvent::Delete(uid.try_clone(alloc)?)),
            AgentEvent::Claim(worker) => Ok(AgentEvent::Claim(*worker)),
            AgentEvent::Report(worker, reported) => {
                let reported = reported.try_clone(alloc)?;
                Ok(AgentEvent::Report(*worker, reported))
            }
            AgentEvent::Tick(now) => Ok(AgentEvent::Tick(*now)),
            AgentEvent::Abandon(worker) => Ok(AgentEvent::Abandon(*worker)),
        }
    }
}

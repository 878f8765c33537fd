ghost use Rattle.std.specs.Prelude.{◌≡◌, ◌↔◌, IfOk, IsTrue};
ghost use Rattle.worker_core.specs.Answers.{is_memory, refusal_number};

use cri_msgs::Request;
use manifest::Uid;
use std::alloc::{AllocError, Global};
use std::fmt;
use thiserror::Error;

/// Why a node refuses an event.
#[derive(Clone, Copy, Debug, PartialEq, Eq, Error)]
pub enum NodeRefusal {
    /// The node has the maximum number of pods, or has admitted the maximum number of uids.
    Full,
    /// A pod of this uid was admitted before, whether it is still there or not.
    KnownUid,
    /// No pod of this uid is on the node.
    NoSuchPod,
    /// The worker has to hold a pod and holds none, or holds one already.
    NotYours,
    /// The moment is before the last one.
    ClockBack,
    /// An allocation failed.
    Memory,
}

/// The refusal's name.
impl fmt::Display for NodeRefusal {
    ghost use Rattle.std.specs.Prelude.{Some};
    ghost use Rattle.worker_core.specs.Answers.{refusal_text};

    ghost output = { λ refusal. Some (refusal_text refusal) };

    fn fmt<W: fmt::Write>(&self, f: &mut fmt::Formatter<W>) -> fmt::Result {
        match self {
            NodeRefusal::Full => f.write_str("Full"),
            NodeRefusal::KnownUid => f.write_str("KnownUid"),
            NodeRefusal::NoSuchPod => f.write_str("NoSuchPod"),
            NodeRefusal::NotYours => f.write_str("NotYours"),
            NodeRefusal::ClockBack => f.write_str("ClockBack"),
            NodeRefusal::Memory => f.write_str("Memory"),
        }
    }
}

impl NodeRefusal {
    /// The refusal's number, from 1.
    pub fn number(self) -> u8
        ensures { result ≡ refusal_number self }
    {
        match self {
            NodeRefusal::Full => 1,
            NodeRefusal::KnownUid => 2,
            NodeRefusal::NoSuchPod => 3,
            NodeRefusal::NotYours => 4,
            NodeRefusal::ClockBack => 5,
            NodeRefusal::Memory => 6,
        }
    }
}

/// A node's answer to an event.
#[derive(Debug, Drop)]
pub enum Answer {
    Done,
    /// The worker now holds this pod, and must send this request, which has this number.
    Claimed {
        uid: Uid,
        number: u64,
        request: Request,
    },
    /// No request is due.
    Nothing,
    Refused(NodeRefusal),
}

impl Answer {
    /// Whether an allocation failed, and nothing was done.
    pub fn is_memory(&self) -> bool
        ensures { result ≡ is_memory self.now }
    {
        match self {
            Answer::Refused(refusal) => *refusal == NodeRefusal::Memory,
            _ => false,
        }
    }

    /// Whether both are the same answer.
    pub fn same(&self, other: &Answer) -> bool
        ensures { IsTrue result ↔ (self.now ≡ other.now) }
    {
        match (self, other) {
            (Answer::Done, Answer::Done) | (Answer::Nothing, Answer::Nothing) => true,
            (
                Answer::Claimed {
                    uid: a,
                    number: m,
                    request: r,
                },
                Answer::Claimed {
                    uid: b,
                    number: n,
                    request: s,
                },
            ) => a.as_str() == b.as_str() && *m == *n && r.same(s),
            (Answer::Refused(refusal), Answer::Refused(another)) => *refusal == *another,
            _ => false,
        }
    }

    /// A copy of the answer.
    pub fn try_clone(&self, alloc: Global) -> Result<Answer, AllocError>
        ensures { IfOk result (λ copy. copy ≡ self.now) }
    {
        match self {
            Answer::Done => Ok(Answer::Done),
            Answer::Claimed {
                uid,
                number,
                request,
            } => {
                let uid = uid.try_clone(alloc)?;
                let request = request.try_clone(alloc)?;
                Ok(Answer::Claimed {
                    uid,
                    number: *number,
                    request,
                })
            }
            Answer::Nothing => Ok(Answer::Nothing),
            Answer::Refused(refusal) => Ok(Answer::Refused(*refusal)),
        }
    }
}

//! Pods whose sandbox the runtime no longer has: either side was started again, or another client of the
//! runtime removed it.
ghost use Rattle.std.specs.Prelude.{◌≡◌};
ghost use Rattle.node_watch.specs.Losses.{loss_by, loss_of, removed_by, when_listed};

use cri_msgs::{Answer, Call, Refusal};
use std::fmt;

/// Why a pod can't go on.
#[derive(Clone, Copy, Debug, PartialEq, Eq)]
pub enum Loss {
    /// The runtime does not know its sandbox.
    Unknown,
    /// The runtime has removed its sandbox, or stopped it.
    Removed,
}

/// A few words of plain English.
impl fmt::Display for Loss {
    ghost use Rattle.std.specs.Prelude.{Some};
    ghost use Rattle.node_watch.specs.Losses.{loss_text};

    ghost output = { λ loss. Some (loss_text loss) };

    fn fmt<W: fmt::Write>(&self, f: &mut fmt::Formatter<W>) -> fmt::Result {
        f.write_str(match self {
            Loss::Unknown => "the runtime does not know its sandbox",
            Loss::Removed => "the runtime has removed or stopped its sandbox",
        })
    }
}

fn loss_by(refusal: Refusal) -> Option<Loss>
    ensures { result ≡ loss_by refusal }
{
    match refusal {
        Refusal::NotFound => Some(Loss::Unknown),
        Refusal::FailedPrecondition => Some(Loss::Removed),
        _ => None,
    }
}

fn removed_by(refusal: Refusal) -> Option<Loss>
    ensures { result ≡ removed_by refusal }
{
    match refusal {
        Refusal::FailedPrecondition => Some(Loss::Removed),
        _ => None,
    }
}

fn when_listed(answer: &Answer) -> Option<Loss>
    ensures { result ≡ when_listed answer.now }
{
    match answer {
        Answer::Statuses(list) if list.as_slice().is_empty() => Some(Loss::Unknown),
        _ => None,
    }
}

/// Whether the answer to a call shows that the runtime no longer has the pod's sandbox.
pub fn loss_of(call: &Call, answer: &Answer) -> Option<Loss>
    ensures { result ≡ loss_of call.now answer.now }
{
    match (call, answer) {
        (Call::RunPodSandbox { .. }, Answer::Refused(refusal)) => removed_by(*refusal),
        (
            Call::CreateContainer { .. }
            | Call::StartContainer { .. }
            | Call::ContainerStatus { .. },
            Answer::Refused(refusal),
        ) => loss_by(*refusal),
        (Call::ContainerStatuses { .. }, _) => when_listed(answer),
        _ => None,
    }
}

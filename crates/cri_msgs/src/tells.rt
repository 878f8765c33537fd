ghost use Rattle.std.specs.Prelude.{◌≡◌, ℕ, IfNone, IfSome};
ghost use Rattle.std.specs.List.{Any};
ghost use Rattle.cri_msgs.specs.declared.states.State.TheVariants as state;
ghost use Rattle.cri_msgs.specs.Tells.{IsExitOf, IsSilentOn, TellsExit};

use crate::calls::Call;
use crate::keys::{ContainerMetadata, Key};
use crate::lists::{ListedStatus, Statuses};
use crate::replies::Answer;
use crate::states::State;
use manifest::Uid;

impl Answer {
    /// The exit code of the container that this answer to the call reports, if it reports one. If a container
    /// is listed twice, the first entry counts.
    pub fn exit_told(&self, call: &Call, key: &Key) -> Option<u8>
        ensures told { IfSome result (λ code. TellsExit call.now self.now key.now code) }

        // If no code is returned, none is reported.
        ensures silent { IfNone result ((code : ℕ) → TellsExit call.now self.now key.now code → ⊥) }
    {
        match self {
            Answer::Status(status) => match call {
                Call::ContainerStatus { key: asked } if asked.same(key) => exit_code(status.state),
                _ => None,
            },
            Answer::Statuses(list) => match call {
                Call::ContainerStatuses { uid } => exit_among(list, uid, key),
                _ => None,
            },
            _ => None,
        }
    }
}

fn exit_among(list: &Statuses, uid: &Uid, key: &Key) -> Option<u8>
    ensures told { IfSome result
        (λ code. (uid.now ≡ key.now.uid) × Any (IsExitOf key.now.container code) list.now) }
    ensures silent { IfNone result
        ((code : ℕ) → (uid.now ≡ key.now.uid) × Any (IsExitOf key.now.container code) list.now → ⊥) }
{
    if uid.as_str() == key.uid.as_str() {
        exit_listed(list.as_slice(), &key.container)
    } else {
        None
    }
}

fn exit_code(at: State) -> Option<u8>
    ensures told { IfSome result (λ code. at ≡ state.Exited code) }
    ensures silent { IfNone result ((code : ℕ) → at ≡ state.Exited code → ⊥) }
{
    match at {
        State::Created | State::Running => None,
        State::Exited(code) => Some(code),
    }
}

#[tactic(auto, using(crate::proofs::Exits::silent_more, crate::proofs::Exits::told_at))]
fn exit_listed(list: &[ListedStatus], container: &ContainerMetadata) -> Option<u8>
    ensures told { IfSome result (λ code. Any (IsExitOf container.now code) list.now) }
    ensures silent { IfNone result ((code : ℕ) → Any (IsExitOf container.now code) list.now → ⊥) }
{
    for listed in list {
        match exit_of(listed, container) {
            Some(code) => return Some(code),
            None => {}
        }
    }
    None
}

#[tactic(auto, unfolding(crate::specs::Tells::IsSilentOn))]
fn exit_of(listed: &ListedStatus, container: &ContainerMetadata) -> Option<u8>
    ensures told { IfSome result (λ code. IsExitOf container.now code listed.now) }
    ensures silent { IfNone result (IsSilentOn container.now listed.now) }
{
    if listed.container.same(container) {
        exit_code(listed.status.state)
    } else {
        None
    }
}

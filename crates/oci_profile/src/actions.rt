ghost use Rattle.std.specs.Prelude.{◌≡◌, ◌^◌, Ok, Err, nat_le, nat_lt, if◌then◌else◌};
ghost use Rattle.serde_json.specs.View.{view};
ghost use Rattle.action.specs.declared.verdict.TheConstants.{MAX_ERRNO};
ghost use Rattle.oci_profile.specs.declared.faults.ProfileFault.TheVariants.{ErrnoTooLarge};
ghost use Rattle.oci_profile.specs.Reading.{action_of, decision_of, with_errno};

use crate::decision::{Decision, Errno};
use crate::faults::ProfileFault;
use crate::placed::{ProfileFaultAt, at};
use json_place::{optional_whole, required_text};
use serde_json::Value;

/// The decision of the fields with these keys.
#[tactic(auto, unfolding(crate::specs::Reading::decision_of))]
pub(crate) fn decision(
    tree: &Value,
    action_key: &'static str,
    errno_key: &'static str,
) -> Result<Decision, ProfileFaultAt>
    ensures { result ≡ decision_of action_key.now errno_key.now (view tree.now) }
{
    let name = required_text(tree, action_key)?;
    let decision = at(action_key, named_action(name))?;
    match optional_whole(tree, errno_key)? {
        Some(given) => at(errno_key, given_errno(decision, given)),
        None => Ok(decision),
    }
}

/// The decision of the action with this name, if no errno is given.
#[tactic(auto, unfolding(crate::specs::Reading::action_of))]
pub fn named_action(name: &str) -> Result<Decision, ProfileFault>
    ensures { result ≡ action_of name.now }
{
    match name {
        "SCMP_ACT_KILL" => Ok(Decision::KillThread),
        "SCMP_ACT_KILL_PROCESS" => Ok(Decision::KillProcess),
        "SCMP_ACT_KILL_THREAD" => Ok(Decision::KillThread),
        "SCMP_ACT_TRAP" => Ok(Decision::Trap),
        "SCMP_ACT_ERRNO" => Ok(Decision::Errno(Errno::eperm())),
        "SCMP_ACT_TRACE" => Ok(Decision::Trace(Errno::eperm().code())),
        "SCMP_ACT_ALLOW" => Ok(Decision::Allow),
        "SCMP_ACT_LOG" => Ok(Decision::Log),
        "SCMP_ACT_NOTIFY" => Err(ProfileFault::Notify),
        _ => Err(ProfileFault::UnknownAction),
    }
}

/// The decision with the given errno, or tracer's message.
pub fn given_errno(decision: Decision, given: u64) -> Result<Decision, ProfileFault>
    ensures { result ≡ with_errno decision given }
{
    match decision {
        Decision::Errno(_) => Ok(Decision::Errno(errno(given)?)),
        Decision::Trace(_) => Ok(Decision::Trace(message(given)?)),
        _ => Err(ProfileFault::ErrnoNotAllowed),
    }
}

fn errno(given: u64) -> Result<Errno, ProfileFault>
    ensures { result ≡ (if nat_le given MAX_ERRNO then Ok given else Err ErrnoTooLarge) }
{
    Errno::new(message(given)?).ok_or(ProfileFault::ErrnoTooLarge)
}

fn message(given: u64) -> Result<u16, ProfileFault>
    ensures { result ≡ (if nat_lt given (2 ^ 16) then Ok given else Err ErrnoTooLarge) }
{
    u16::try_from(given).map_err(|_| ProfileFault::ErrnoTooLarge)
}

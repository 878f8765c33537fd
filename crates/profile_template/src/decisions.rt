ghost use Rattle.std.specs.Prelude.{◌≡◌};
ghost use Rattle.serde_json.specs.View.{view};
ghost use Rattle.oci_profile.specs.Reading.{with_given};
ghost use Rattle.profile_template.specs.Reading.{decision_of, named_errno_of, numbered};

use crate::faults::TemplateFault;
use crate::placed::{TemplateFaultAt, at};
use action::errno_number;
use json_place::{optional_text, optional_whole, required_text};
use oci_profile::{Decision, ProfileFault, given_errno, named_action};
use serde_json::Value;

/// The decision of the fields with these keys: OCI's, and podman's, which has the name of an errno.
#[tactic(auto, unfolding(crate::specs::Reading::decision_of))]
pub(crate) fn decision(
    tree: &Value,
    action: &'static str,
    errno_ret: &'static str,
    errno: &'static str,
) -> Result<Decision, TemplateFaultAt>
    ensures { result ≡ decision_of action.now errno_ret.now errno.now (view tree.now) }
{
    let name = required_text(tree, action)?;
    let decision = at(action, named_action(name))?;
    let given = optional_whole(tree, errno_ret)?;
    match named_errno(tree, errno)? {
        Some(number) => at(errno, given_errno(decision, number)),
        None => at(errno_ret, with_given(decision, given)),
    }
}

/// The number of the named errno, if there is one.
#[tactic(auto, unfolding(crate::specs::Reading::named_errno_of))]
fn named_errno(tree: &Value, key: &'static str) -> Result<Option<u64>, TemplateFaultAt>
    ensures { result ≡ named_errno_of key.now (view tree.now) }
{
    match optional_text(tree, key)? {
        Some(name) => numbered(key, name),
        None => Ok(None),
    }
}

// An empty name counts as none.
fn numbered(key: &'static str, name: &str) -> Result<Option<u64>, TemplateFaultAt>
    ensures { result ≡ numbered key.now name.now }
{
    if name.is_empty() {
        return Ok(None);
    }
    match errno_number(name) {
        Some(number) => Ok(Some(number)),
        None => Err(TemplateFaultAt::at(key, TemplateFault::UnknownErrno)),
    }
}

// The decision with the given errno, if there is one.
fn with_given(decision: Decision, given: Option<u64>) -> Result<Decision, ProfileFault>
    ensures { result ≡ with_given decision given }
{
    match given {
        Some(number) => given_errno(decision, number),
        None => Ok(decision),
    }
}

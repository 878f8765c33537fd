ghost use Rattle.std.specs.Prelude.{◌≡◌, IfOk, IsTrue, Some, option_map};
ghost use Rattle.serde_json.specs.View.{view};
ghost use Rattle.json_tree.specs.Reading.{as_read, if_there};
ghost use Rattle.manifest.specs.Profiles.{HasFitPath, profile_seen};
ghost use Rattle.manifest.specs.Reading.{named_by, profile_in, profile_named, profile_of, profile_within};
ghost use Rattle.manifest.specs.Reading.{says, with_path, without_path};
ghost use Rattle.manifest.specs.Texts as rule;

use crate::faults::PodFault;
use crate::placed::PodFaultAt;
use crate::profiles::ProfileText;
use crate::rules::{is_descending, is_label, is_pod_name};
use json_place::{Step, optional_object, optional_text, required_text};
use serde_json::Value;

// The fields that more than one part of a manifest has. Nothing is allocated.

// Checks that the field is this text.
#[tactic(auto, unfolding(crate::specs::Reading::says))]
pub(crate) fn says(tree: &Value, key: &'static str, want: &str) -> Result<(), PodFaultAt>
    ensures { result ≡ says key.now want.now (view tree.now) }
{
    if required_text(tree, key)? != want {
        return Err(PodFaultAt::at(key, PodFault::WrongType));
    }
    Ok(())
}

#[tactic(auto, unfolding(crate::specs::Reading::named_by))]
pub(crate) fn pod_name<'v>(tree: &'v Value, key: &'static str) -> Result<&'v str, PodFaultAt>
    ensures value { as_read (λ t. t.now) result ≡ named_by rule.is_pod_name key.now (view tree.now) }
    ensures fit { IfOk result (λ t. IsTrue (rule.is_pod_name t.now)) }
{
    let name = required_text(tree, key)?;
    if !is_pod_name(name) {
        return Err(PodFaultAt::at(key, PodFault::BadName));
    }
    Ok(name)
}

#[tactic(auto, unfolding(crate::specs::Reading::named_by))]
pub(crate) fn label<'v>(tree: &'v Value, key: &'static str) -> Result<&'v str, PodFaultAt>
    ensures value { as_read (λ t. t.now) result ≡ named_by rule.is_label key.now (view tree.now) }
    ensures fit { IfOk result (λ t. IsTrue (rule.is_label t.now)) }
{
    let name = required_text(tree, key)?;
    if !is_label(name) {
        return Err(PodFaultAt::at(key, PodFault::BadName));
    }
    Ok(name)
}

#[tactic(auto, unfolding(crate::specs::Reading::named_by))]
pub(crate) fn path<'v>(tree: &'v Value, key: &'static str) -> Result<&'v str, PodFaultAt>
    ensures value { as_read (λ t. t.now) result ≡ named_by rule.is_descending key.now (view tree.now) }
    ensures fit { IfOk result (λ t. IsTrue (rule.is_descending t.now)) }
{
    let path = required_text(tree, key)?;
    if !is_descending(path) {
        return Err(PodFaultAt::at(key, PodFault::BadName));
    }
    Ok(path)
}

// The `seccompProfile` of an optional `securityContext`.
pub(crate) fn profile_within<'v>(
    context: Option<&'v Value>,
) -> Result<Option<ProfileText<'v>>, PodFaultAt>
    ensures value { as_read (option_map profile_seen) result
        ≡ profile_within (option_map (λ v. view v.now) context.entry) }
    ensures fit { IfOk result HasFitPath }
{
    match context {
        Some(context) => profile_in(context),
        None => Ok(None),
    }
}

#[tactic(auto, unfolding(crate::specs::Reading::profile_in))]
pub(crate) fn profile_in(context: &Value) -> Result<Option<ProfileText<'_>>, PodFaultAt>
    ensures value { as_read (option_map profile_seen) result ≡ profile_in (view context.now) }
    ensures fit { IfOk result HasFitPath }
{
    let found = optional_object(context, "seccompProfile")?;
    profile_there(found).map_err(|found| found.within(Step::Member("seccompProfile")))
}

fn profile_there<'v>(found: Option<&'v Value>) -> Result<Option<ProfileText<'v>>, PodFaultAt>
    ensures value { as_read (option_map profile_seen) result
        ≡ if_there profile_of (option_map (λ v. view v.now) found.entry) }
    ensures fit { IfOk result HasFitPath }
{
    match found {
        Some(tree) => Ok(Some(profile(tree)?)),
        None => Ok(None),
    }
}

#[tactic(auto, unfolding(crate::specs::Reading::profile_of))]
fn profile(tree: &Value) -> Result<ProfileText<'_>, PodFaultAt>
    ensures value { as_read profile_seen result ≡ profile_of (view tree.now) }
    ensures fit { IfOk result (λ p. HasFitPath (Some p)) }
{
    let name = required_text(tree, "type")?;
    let path = optional_text(tree, "localhostProfile")?;
    named_profile(name, path)
}

#[tactic(auto, unfolding(crate::specs::Reading::profile_named))]
fn named_profile<'v>(name: &str, path: Option<&'v str>) -> Result<ProfileText<'v>, PodFaultAt>
    ensures value { as_read profile_seen result
        ≡ profile_named name.now (option_map (λ t. t.now) path.entry) }
    ensures fit { IfOk result (λ p. HasFitPath (Some p)) }
{
    match name {
        "RuntimeDefault" => without_path(ProfileText::RuntimeDefault, path),
        "Localhost" => with_path(path),
        "Unconfined" => without_path(ProfileText::Unconfined, path),
        _ => Err(PodFaultAt::at("type", PodFault::BadProfile)),
    }
}

fn without_path<'v>(
    profile: ProfileText<'v>,
    path: Option<&str>,
) -> Result<ProfileText<'v>, PodFaultAt>
    requires { HasFitPath (Some profile) }
    ensures value { as_read profile_seen result
        ≡ without_path (profile_seen profile.entry) (option_map (λ t. t.now) path.entry) }
    ensures fit { IfOk result (λ p. HasFitPath (Some p)) }
{
    match path {
        Some(_) => Err(PodFaultAt::at("localhostProfile", PodFault::BadProfile)),
        None => Ok(profile),
    }
}

fn with_path(path: Option<&str>) -> Result<ProfileText<'_>, PodFaultAt>
    ensures value { as_read profile_seen result ≡ with_path (option_map (λ t. t.now) path.entry) }
    ensures fit { IfOk result (λ p. HasFitPath (Some p)) }
{
    match path {
        Some(path) if is_descending(path) => Ok(ProfileText::Localhost(path)),
        _ => Err(PodFaultAt::at("localhostProfile", PodFault::BadProfile)),
    }
}

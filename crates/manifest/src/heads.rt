ghost use Rattle.std.specs.Prelude.{◌≡◌, ◌<◌, ◌+◌, ◌≤◌, ◌↔◌, IfOk, IsTrue, length, map, option_map};
ghost use Rattle.std.specs.Option.{ForSome};
ghost use Rattle.serde_json.specs.View.{view};
ghost use Rattle.json_tree.specs.Reading.{as_read, if_there};
ghost use Rattle.manifest.specs.declared.containers.TheConstants.{MAX_CONTAINERS};
ghost use Rattle.manifest.specs.Profiles.{HasFitPath, profile_seen};
ghost use Rattle.manifest.specs.Reading.{checked_uid, grace_of, head_of, identity_of, inits_of, kind_of};
ghost use Rattle.manifest.specs.Reading.{lists_of, named_of, namespace_of, others_of, pod_profile_of};
ghost use Rattle.manifest.specs.Reading.{policy_named, policy_of, policy_there, terms_of, uid_of};
ghost use Rattle.manifest.specs.Seen.{head_seen, identity_seen, lists_seen, terms_seen};
ghost use Rattle.manifest.specs.Texts as rule;

use crate::containers::MAX_CONTAINERS;
use crate::faults::PodFault;
use crate::fields::{pod_name, profile_within, says};
use crate::lent::{HeadText, IdentityText, ListsText, TermsText};
use crate::placed::{PodFaultAt, at};
use crate::profiles::ProfileText;
use crate::rules::{is_label, is_uid};
use json_place::{
    Step, optional_list, optional_object, optional_text, optional_whole, required_list,
    required_object,
};
use json_tree::object;
use lifecycle::RestartPolicy;
use serde_json::Value;

// The parts of a manifest besides its containers. Nothing is allocated, so each fault is reported even if
// memory runs out.

#[tactic(auto, unfolding(crate::specs::Reading::head_of))]
pub(crate) fn head(tree: &Value) -> Result<HeadText<'_>, PodFaultAt>
    ensures value { as_read head_seen result ≡ head_of (view tree.now) }
    ensures fit { IfOk result (λ head. HasFitPath head.terms.profile) }
{
    let tree = object(tree).ok_or(PodFaultAt::here(PodFault::WrongType))?;
    kind(tree)?;
    let identity = named(tree)?;
    let spec = required_object(tree, "spec")?;
    let terms = terms(spec).map_err(|found| found.within(Step::Member("spec")))?;
    let lists = lists(spec).map_err(|found| found.within(Step::Member("spec")))?;
    Ok(HeadText {
        identity,
        terms,
        lists,
    })
}

#[tactic(auto, unfolding(crate::specs::Reading::kind_of))]
fn kind(tree: &Value) -> Result<(), PodFaultAt>
    ensures { result ≡ kind_of (view tree.now) }
{
    says(tree, "apiVersion", "v1")?;
    says(tree, "kind", "Pod")
}

#[tactic(auto, unfolding(crate::specs::Reading::named_of))]
fn named(tree: &Value) -> Result<IdentityText<'_>, PodFaultAt>
    ensures { as_read identity_seen result ≡ named_of (view tree.now) }
{
    let metadata = required_object(tree, "metadata")?;
    identity(metadata).map_err(|found| found.within(Step::Member("metadata")))
}

#[tactic(auto, unfolding(crate::specs::Reading::identity_of))]
fn identity(tree: &Value) -> Result<IdentityText<'_>, PodFaultAt>
    ensures { as_read identity_seen result ≡ identity_of (view tree.now) }
{
    let name = pod_name(tree, "name")?;
    let namespace = namespace(tree)?;
    let uid = uid(tree)?;
    Ok(IdentityText {
        namespace,
        name,
        uid,
    })
}

#[tactic(auto, unfolding(crate::specs::Reading::namespace_of))]
fn namespace(tree: &Value) -> Result<&str, PodFaultAt>
    ensures value { as_read (λ t. t.now) result ≡ namespace_of (view tree.now) }
    ensures fit { IfOk result (λ t. IsTrue (rule.is_label t.now)) }
{
    let namespace = optional_text(tree, "namespace")?.unwrap_or("default");
    if !is_label(namespace) {
        return Err(PodFaultAt::at("namespace", PodFault::BadName));
    }
    Ok(namespace)
}

#[tactic(auto, unfolding(crate::specs::Reading::uid_of))]
fn uid(tree: &Value) -> Result<Option<&str>, PodFaultAt>
    ensures value { as_read (option_map (λ t. t.now)) result ≡ uid_of (view tree.now) }
    ensures fit { IfOk result (λ o. ForSome o (λ t. IsTrue (rule.is_uid t.now))) }
{
    checked_uid(optional_text(tree, "uid")?)
}

#[tactic(auto, unfolding(crate::specs::Reading::checked_uid))]
fn checked_uid<'v>(given: Option<&'v str>) -> Result<Option<&'v str>, PodFaultAt>
    ensures value { as_read (option_map (λ t. t.now)) result
        ≡ if_there checked_uid (option_map (λ t. t.now) given.entry) }
    ensures fit { IfOk result (λ o. ForSome o (λ t. IsTrue (rule.is_uid t.now))) }
{
    match given {
        Some(uid) if !is_uid(uid) => Err(PodFaultAt::at("uid", PodFault::BadName)),
        _ => Ok(given),
    }
}

#[tactic(auto, unfolding(crate::specs::Reading::terms_of))]
fn terms(spec: &Value) -> Result<TermsText<'_>, PodFaultAt>
    ensures value { as_read terms_seen result ≡ terms_of (view spec.now) }
    ensures fit { IfOk result (λ terms. HasFitPath terms.profile) }
{
    let policy = policy(spec)?;
    let grace = grace(spec)?;
    let profile = pod_profile(spec)?;
    Ok(TermsText {
        policy,
        grace,
        profile,
    })
}

#[tactic(auto, unfolding(crate::specs::Reading::policy_of))]
fn policy(spec: &Value) -> Result<RestartPolicy, PodFaultAt>
    ensures { result ≡ policy_of (view spec.now) }
{
    policy_there(optional_text(spec, "restartPolicy")?)
}

fn policy_there(given: Option<&str>) -> Result<RestartPolicy, PodFaultAt>
    ensures { result ≡ policy_there (option_map (λ t. t.now) given.entry) }
{
    match given {
        Some(name) => at("restartPolicy", named_policy(name)),
        None => Ok(RestartPolicy::Always),
    }
}

#[tactic(auto, unfolding(crate::specs::Reading::policy_named))]
fn named_policy(name: &str) -> Result<RestartPolicy, PodFault>
    ensures { result ≡ policy_named name.now }
{
    match name {
        "Always" => Ok(RestartPolicy::Always),
        "OnFailure" => Ok(RestartPolicy::OnFailure),
        "Never" => Ok(RestartPolicy::Never),
        _ => Err(PodFault::WrongType),
    }
}

#[tactic(auto, unfolding(crate::specs::Reading::grace_of))]
fn grace(spec: &Value) -> Result<u64, PodFaultAt>
    ensures { result ≡ grace_of (view spec.now) }
{
    Ok(optional_whole(spec, "terminationGracePeriodSeconds")?.unwrap_or(30))
}

#[tactic(auto, unfolding(crate::specs::Reading::pod_profile_of))]
fn pod_profile(spec: &Value) -> Result<Option<ProfileText<'_>>, PodFaultAt>
    ensures value { as_read (option_map profile_seen) result ≡ pod_profile_of (view spec.now) }
    ensures fit { IfOk result HasFitPath }
{
    let context = optional_object(spec, "securityContext")?;
    profile_within(context).map_err(|found| found.within(Step::Member("securityContext")))
}

#[tactic(auto, unfolding(crate::specs::Reading::lists_of))]
fn lists(spec: &Value) -> Result<ListsText<'_>, PodFaultAt>
    ensures { as_read lists_seen result ≡ lists_of (view spec.now) }
{
    let inits = inits(spec)?;
    let others = others(spec)?;
    if too_many(inits.len(), others.len()) {
        return Err(PodFaultAt::here(PodFault::TooMany));
    }
    Ok(ListsText { inits, others })
}

// Computed without a sum that could overflow.
fn too_many(inits: usize, others: usize) -> bool
    ensures { IsTrue result ↔ (MAX_CONTAINERS < inits + others) }
{
    inits > MAX_CONTAINERS || others > MAX_CONTAINERS - inits
}

#[tactic(auto, unfolding(crate::specs::Reading::inits_of))]
fn inits(spec: &Value) -> Result<&[Value], PodFaultAt>
    ensures { as_read (λ items. map view items.now) result ≡ inits_of (view spec.now) }
{
    Ok(optional_list(spec, "initContainers")?.unwrap_or(&[]))
}

#[tactic(auto, unfolding(crate::specs::Reading::others_of))]
fn others(spec: &Value) -> Result<&[Value], PodFaultAt>
    ensures value { as_read (λ items. map view items.now) result ≡ others_of (view spec.now) }
    ensures some { IfOk result (λ items. 0 < length items.now) }
{
    let others = required_list(spec, "containers")?;
    if others.is_empty() {
        return Err(PodFaultAt::at("containers", PodFault::Missing));
    }
    Ok(others)
}

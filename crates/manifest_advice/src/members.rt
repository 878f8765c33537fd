//! The members of one object.
ghost use Rattle.std.specs.Prelude.{◌≡◌, IfOk, filter_map, find, map, option_map};
ghost use Rattle.serde_json.specs.View.{members_view, view};
ghost use Rattle.manifest_advice.specs.Advice as advice;
ghost use Rattle.manifest_advice.specs.Advice.{is_old, is_other_case, known, known_as, members_list, old_at};
ghost use Rattle.manifest_advice.specs.Advice.{old_in, recased_at, recased_in, told};

use crate::advice::Advice;
use crate::holder::{Holder, known};
use serde_json::{Map, Value};
use std::alloc::{AllocError, Global};

/// The annotation that named the profile of a pod.
const POD_ANNOTATION: &str = "seccomp.security.alpha.kubernetes.io/pod";

/// What the annotations begin with that named the profiles of containers.
const CONTAINER_ANNOTATIONS: &str = "container.seccomp.security.alpha.kubernetes.io/";

/// The holder's members that are known ones but for the case of their letters, in the order of their keys.
#[tactic(auto, unfolding(crate::specs::Advice::recased_in))]
pub(crate) fn recased_in<'v>(
    alloc: Global,
    holder: Holder,
    tree: &'v Value,
) -> Result<Vec<Advice<'v>>, AllocError>
    ensures { IfOk result (λ v. map told v.items ≡ recased_in holder (view tree.now)) }
{
    match tree.as_object() {
        Some(members) => recased(alloc, holder, members),
        None => Ok(Vec::new(alloc)),
    }
}

fn recased<'v>(
    alloc: Global,
    holder: Holder,
    members: &'v Map<String, Value>,
) -> Result<Vec<Advice<'v>>, AllocError>
    ensures { IfOk result (λ v. map told v.items
        ≡ filter_map (recased_at holder) (members_list (members_view members.now.entries))) }
{
    let mut found = Vec::new(alloc);
    for (key, _) in members.iter() {
        if let Some(name) = known_as(holder, key.as_str()) {
            found.push(Advice::OtherCase(holder, key.as_str(), name))?;
        }
    }
    Ok(found)
}

/// The known member that the key is but for the case of its letters.
fn known_as(holder: Holder, key: &str) -> Option<&'static str>
    ensures { option_map (λ name. name.now) result ≡ known_as holder key.now }
{
    found_as(known(holder), key)
}

fn found_as<'n>(names: &[&'n str], key: &str) -> Option<&'n str>
    ensures { option_map (λ name. name.now) result
        ≡ find (is_other_case key.now) (map (λ name. name.now) names.now) }
{
    for name in names {
        if is_other_case(key, name) {
            return Some(*name);
        }
    }
    None
}

fn is_other_case(key: &str, name: &str) -> bool
    ensures { result ≡ is_other_case key.now name.now }
{
    key.eq_ignore_ascii_case(name) && key != name
}

/// The annotations that named profiles, in the order of their keys.
#[tactic(auto, unfolding(crate::specs::Advice::old_in))]
pub(crate) fn old_in<'v>(alloc: Global, tree: &'v Value) -> Result<Vec<Advice<'v>>, AllocError>
    ensures { IfOk result (λ v. map told v.items ≡ old_in (view tree.now)) }
{
    match tree.as_object() {
        Some(members) => old(alloc, members),
        None => Ok(Vec::new(alloc)),
    }
}

fn old<'v>(alloc: Global, members: &'v Map<String, Value>) -> Result<Vec<Advice<'v>>, AllocError>
    ensures { IfOk result (λ v. map told v.items
        ≡ filter_map old_at (members_list (members_view members.now.entries))) }
{
    let mut found = Vec::new(alloc);
    for (key, _) in members.iter() {
        if is_old(key.as_str()) {
            found.push(Advice::OldAnnotation(key.as_str()))?;
        }
    }
    Ok(found)
}

/// Whether an annotation with this key named the profile of the pod or of a container.
fn is_old(key: &str) -> bool
    ensures { result ≡ is_old key.now }
{
    key == POD_ANNOTATION || key.as_bytes().starts_with(CONTAINER_ANNOTATIONS.as_bytes())
}

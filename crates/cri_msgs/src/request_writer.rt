ghost use Rattle.std.specs.Prelude.{◌≡◌, IfOk, IsTrue, codes};
ghost use Rattle.serde_json.specs.Data.{member, no_members, object, put, string};
ghost use Rattle.serde_json.specs.View.{members_view, view};
ghost use Rattle.manifest.specs.declared.profiles.SeccompProfile.TheVariants.{Localhost};
ghost use Rattle.manifest.specs.Texts.{is_descending};
ghost use Rattle.cri_msgs.specs.Fits.{FitsCall, FitsKey, FitsProfile, FitsUid, IsSmall};
ghost use Rattle.cri_msgs.specs.Names.{version_number};
ghost use Rattle.cri_msgs.specs.Written.{call_tree, create_tree, key_grace_tree, key_tree, profile_tree};
ghost use Rattle.cri_msgs.specs.Written.{uid_grace_tree, uid_tree, version_last, whole_number};

use crate::calls::Call;
use crate::keys::Key;
use crate::object::Object;
use crate::version::Version;
use manifest::{DescendingPath, SeccompProfile, Uid};
use serde_json::Value;
use std::alloc::{AllocError, Global};

// The trees of requests. Each contract also states the limits that the call's types ensure.

#[tactic(auto, unfolding(crate::specs::Written::call_tree))]
pub(crate) fn call_tree(
    alloc: Global,
    version: Version,
    id: u64,
    call: &Call,
) -> Result<Value, AllocError>
    ensures tree { IfOk result (λ v. view v ≡ call_tree version id call.now) }
    ensures fit { IfOk result (λ _. FitsCall call.now) }
    ensures number { IfOk result (λ _. IsSmall id) }
{
    match call {
        Call::RunPodSandbox { uid } => by_uid(alloc, version, id, "RunPodSandbox", uid),
        Call::StopPodSandbox { uid, grace } => stop_pod(alloc, version, id, uid, *grace),
        Call::RemovePodSandbox { uid } => by_uid(alloc, version, id, "RemovePodSandbox", uid),
        Call::CreateContainer {
            key,
            image,
            profile,
        } => create(alloc, version, id, key, image, profile),
        Call::StartContainer { key } => by_key(alloc, version, id, "StartContainer", key),
        Call::StopContainer { key, grace } => stop(alloc, version, id, key, *grace),
        Call::RemoveContainer { key } => by_key(alloc, version, id, "RemoveContainer", key),
        Call::ContainerStatus { key } => by_key(alloc, version, id, "ContainerStatus", key),
        Call::ListContainers { uid } => by_uid(alloc, version, id, "ListContainers", uid),
        Call::ContainerStatuses { uid } => by_uid(alloc, version, id, "ContainerStatuses", uid),
    }
}

// The members of each request.
fn with_head(object: Object, version: Version, id: u64, call: &str) -> Result<Object, AllocError>
    ensures { IfOk result (λ o. members_view o.members.entries
        ≡ put (codes "v") (whole_number (version_number version))
        (put (codes "id") (whole_number id)
        (put (codes "call") (string call.now) (members_view object.members.entries)))) }
{
    let object = object
        .text("call", call)?
        .whole("id", id)?
        .whole("v", version.number())?;
    Ok(object)
}

// The members of each call for a container.
fn with_key(object: Object, key: &Key) -> Result<Object, AllocError>
    ensures members { IfOk result (λ o. members_view o.members.entries
        ≡ put (codes "attempt") (whole_number key.now.container.attempt)
        (put (codes "name") (string key.now.container.name)
        (put (codes "uid") (string key.now.uid) (members_view object.members.entries)))) }
    ensures fit { IfOk result (λ _. FitsKey key.now) }
{
    let attempt = key.container.attempt;
    let object = object
        .text("uid", key.uid.as_str())?
        .text("name", key.container.name.as_str())?
        .whole("attempt", u64::from(attempt))?;
    Ok(object)
}

fn by_uid(
    alloc: Global,
    version: Version,
    id: u64,
    call: &str,
    uid: &Uid,
) -> Result<Value, AllocError>
    ensures tree { IfOk result (λ v. view v ≡ uid_tree version id call.now uid.now) }
    ensures fit { IfOk result (λ _. FitsUid uid.now) }
{
    let object = Object::new(alloc).text("uid", uid.as_str())?;
    Ok(with_head(object, version, id, call)?.done())
}

fn stop_pod(
    alloc: Global,
    version: Version,
    id: u64,
    uid: &Uid,
    grace: u64,
) -> Result<Value, AllocError>
    ensures tree { IfOk result (λ v. view v ≡ uid_grace_tree version id uid.now grace) }
    ensures fit { IfOk result (λ _. FitsUid uid.now × IsSmall grace) }
{
    let object = Object::new(alloc)
        .text("uid", uid.as_str())?
        .whole("grace", grace)?;
    Ok(with_head(object, version, id, "StopPodSandbox")?.done())
}

fn by_key(
    alloc: Global,
    version: Version,
    id: u64,
    call: &str,
    key: &Key,
) -> Result<Value, AllocError>
    ensures tree { IfOk result (λ v. view v ≡ key_tree version id call.now key.now) }
    ensures fit { IfOk result (λ _. FitsKey key.now) }
{
    let object = with_key(Object::new(alloc), key)?;
    Ok(with_head(object, version, id, call)?.done())
}

fn stop(
    alloc: Global,
    version: Version,
    id: u64,
    key: &Key,
    grace: u64,
) -> Result<Value, AllocError>
    ensures tree { IfOk result (λ v. view v ≡ key_grace_tree version id key.now grace) }
    ensures fit { IfOk result (λ _. FitsKey key.now × IsSmall grace) }
{
    let object = with_key(Object::new(alloc), key)?.whole("grace", grace)?;
    Ok(with_head(object, version, id, "StopContainer")?.done())
}

fn create(
    alloc: Global,
    version: Version,
    id: u64,
    key: &Key,
    image: &DescendingPath,
    profile: &SeccompProfile,
) -> Result<Value, AllocError>
    ensures tree { IfOk result (λ v. view v ≡ create_tree version id key.now image.now profile.now) }
    ensures fit { IfOk result (λ _. FitsKey key.now × IsTrue (is_descending image.now)
        × FitsProfile profile.now) }
{
    let profile = profile_tree(alloc, profile)?;
    let object = Object::new(alloc)
        .with("profile", profile)?
        .text("image", image.as_str())?;
    let object = with_key(object, key)?;
    Ok(with_head(object, version, id, "CreateContainer")?.done())
}

fn profile_tree(alloc: Global, profile: &SeccompProfile) -> Result<Value, AllocError>
    ensures tree { IfOk result (λ v. view v ≡ profile_tree profile.now) }
    ensures fit { IfOk result (λ _. FitsProfile profile.now) }
{
    match profile {
        SeccompProfile::RuntimeDefault => typed(alloc, "RuntimeDefault"),
        SeccompProfile::Localhost(path) => localhost(alloc, path),
        SeccompProfile::Unconfined => typed(alloc, "Unconfined"),
    }
}

fn typed(alloc: Global, name: &str) -> Result<Value, AllocError>
    ensures { IfOk result (λ v. view v ≡ object (member (codes "type") (string name.now) no_members)) }
{
    let object = Object::new(alloc).text("type", name)?;
    Ok(object.done())
}

fn localhost(alloc: Global, path: &DescendingPath) -> Result<Value, AllocError>
    ensures tree { IfOk result (λ v. view v ≡ profile_tree (Localhost path.now)) }
    ensures fit { IfOk result (λ _. IsTrue (is_descending path.now)) }
{
    let object = Object::new(alloc)
        .text("type", "Localhost")?
        .text("path", path.as_str())?;
    Ok(object.done())
}

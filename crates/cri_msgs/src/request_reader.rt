ghost use Rattle.std.specs.Prelude.{◌≡◌};
ghost use Rattle.serde_json.specs.View.{view};
ghost use Rattle.json_tree.specs.declared.faults.FieldFault.{FieldFault};
ghost use Rattle.json_tree.specs.Reading.{Gives};
ghost use Rattle.cri_msgs.specs.Reading.{call_by, call_of, create_of, key_of, request_of, stop_of};
ghost use Rattle.cri_msgs.specs.Reading.{stop_pod_of};

use crate::calls::{Call, Request};
use crate::fields::{image, key, numbered, profile, uid};
use crate::names::{CallName, call_named};
use crate::version::Version;
use json_tree::{FieldFault, required_text, required_whole};
use serde_json::Value;
use std::alloc::Global;

// Reads requests from their trees.

#[tactic(auto, unfolding(crate::specs::Reading::request_of))]
pub(crate) fn request(alloc: Global, version: Version, tree: &Value) -> Result<Request, FieldFault>
    ensures { Gives FieldFault.Memory (λ r. r) result (request_of version (view tree.now)) }
{
    let id = numbered(version, tree)?;
    let call = call(alloc, version, tree)?;
    Ok(Request { id, call })
}

#[tactic(auto, unfolding(crate::specs::Reading::call_of))]
fn call(alloc: Global, version: Version, tree: &Value) -> Result<Call, FieldFault>
    ensures { Gives FieldFault.Memory (λ c. c) result (call_of version (view tree.now)) }
{
    let text = required_text(tree, "call")?;
    let name = call_named(text)?;
    call_by(alloc, version, name, tree)
}

#[tactic(auto, unfolding(crate::specs::Reading::by_uid, crate::specs::Reading::by_key))]
fn call_by(
    alloc: Global,
    version: Version,
    name: CallName,
    tree: &Value,
) -> Result<Call, FieldFault>
    ensures { Gives FieldFault.Memory (λ c. c) result (call_by version name (view tree.now)) }
{
    match name {
        CallName::RunPodSandbox => Ok(Call::RunPodSandbox {
            uid: uid(alloc, tree)?,
        }),
        CallName::StopPodSandbox => stop_pod(alloc, tree),
        CallName::RemovePodSandbox => Ok(Call::RemovePodSandbox {
            uid: uid(alloc, tree)?,
        }),
        CallName::CreateContainer => create(alloc, tree),
        CallName::StartContainer => Ok(Call::StartContainer {
            key: key(alloc, tree)?,
        }),
        CallName::StopContainer => stop(alloc, tree),
        CallName::RemoveContainer => Ok(Call::RemoveContainer {
            key: key(alloc, tree)?,
        }),
        CallName::ContainerStatus => Ok(Call::ContainerStatus {
            key: key(alloc, tree)?,
        }),
        CallName::ListContainers => Ok(Call::ListContainers {
            uid: uid(alloc, tree)?,
        }),
        CallName::ContainerStatuses => match version {
            Version::V1 => Err(FieldFault::WrongType),
            Version::V2 => Ok(Call::ContainerStatuses {
                uid: uid(alloc, tree)?,
            }),
        },
    }
}

#[tactic(auto, unfolding(crate::specs::Reading::stop_pod_of))]
fn stop_pod(alloc: Global, tree: &Value) -> Result<Call, FieldFault>
    ensures { Gives FieldFault.Memory (λ c. c) result (stop_pod_of (view tree.now)) }
{
    let uid = uid(alloc, tree)?;
    let grace = required_whole(tree, "grace")?;
    Ok(Call::StopPodSandbox { uid, grace })
}

#[tactic(auto, unfolding(crate::specs::Reading::create_of))]
fn create(alloc: Global, tree: &Value) -> Result<Call, FieldFault>
    ensures { Gives FieldFault.Memory (λ c. c) result (create_of (view tree.now)) }
{
    let key = key(alloc, tree)?;
    let image = image(alloc, tree)?;
    let profile = profile(alloc, tree)?;
    Ok(Call::CreateContainer {
        key,
        image,
        profile,
    })
}

#[tactic(auto, unfolding(crate::specs::Reading::stop_of))]
fn stop(alloc: Global, tree: &Value) -> Result<Call, FieldFault>
    ensures { Gives FieldFault.Memory (λ c. c) result (stop_of (view tree.now)) }
{
    let key = key(alloc, tree)?;
    let grace = required_whole(tree, "grace")?;
    Ok(Call::StopContainer { key, grace })
}

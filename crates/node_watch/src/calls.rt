ghost use Rattle.std.specs.Prelude.{◌≡◌, option_map};
ghost use Rattle.cri_msgs.specs.Calls.{uid_of};
ghost use Rattle.node_watch.specs.Calls.{are_about_one, call_name, concerns, container_of, is_all_or};
ghost use Rattle.node_watch.specs.Calls.{is_same_container};

use cri_msgs::Call;
use manifest::{Label, Uid};

/// The name of a call, as in CRI v1 if CRI has the call.
pub fn call_name(call: &Call) -> &'static str
    ensures { result.now ≡ call_name call.now }
{
    match call {
        Call::RunPodSandbox { .. } => "RunPodSandbox",
        Call::StopPodSandbox { .. } => "StopPodSandbox",
        Call::RemovePodSandbox { .. } => "RemovePodSandbox",
        Call::CreateContainer { .. } => "CreateContainer",
        Call::StartContainer { .. } => "StartContainer",
        Call::StopContainer { .. } => "StopContainer",
        Call::RemoveContainer { .. } => "RemoveContainer",
        Call::ContainerStatus { .. } => "ContainerStatus",
        Call::ListContainers { .. } => "ListContainers",
        Call::ContainerStatuses { .. } => "ContainerStatuses",
    }
}

/// The pod that a call is about.
pub fn uid_of(call: &Call) -> &Uid
    ensures { result.now ≡ uid_of call.now }
{
    match call {
        Call::RunPodSandbox { uid }
        | Call::StopPodSandbox { uid, .. }
        | Call::RemovePodSandbox { uid }
        | Call::ListContainers { uid }
        | Call::ContainerStatuses { uid } => uid,
        Call::CreateContainer { key, .. }
        | Call::StartContainer { key }
        | Call::StopContainer { key, .. }
        | Call::RemoveContainer { key }
        | Call::ContainerStatus { key } => &key.uid,
    }
}

/// The container that a call is about. `None` if it is about the whole pod.
pub fn container_of(call: &Call) -> Option<&Label>
    ensures { option_map (λ name. name.now) result ≡ container_of call.now }
{
    match call {
        Call::RunPodSandbox { .. }
        | Call::StopPodSandbox { .. }
        | Call::RemovePodSandbox { .. }
        | Call::ListContainers { .. }
        | Call::ContainerStatuses { .. } => None,
        Call::CreateContainer { key, .. }
        | Call::StartContainer { key }
        | Call::StopContainer { key, .. }
        | Call::RemoveContainer { key }
        | Call::ContainerStatus { key } => Some(&key.container.name),
    }
}

fn is_same_container(name: Option<&Label>, other: Option<&Label>) -> bool
    ensures { result ≡ is_same_container (option_map (λ n. n.now) name.entry)
        (option_map (λ n. n.now) other.entry) }
{
    match (name, other) {
        (None, None) => true,
        (Some(name), Some(other)) => name.as_str() == other.as_str(),
        (None, Some(_)) | (Some(_), None) => false,
    }
}

/// Whether both calls are about the same container, or about the same whole pod.
pub(crate) fn are_about_one(call: &Call, other: &Call) -> bool
    ensures { result ≡ are_about_one call.now other.now }
{
    uid_of(call).as_str() == uid_of(other).as_str()
        && is_same_container(container_of(call), container_of(other))
}

fn is_all_or(name: &Label, other: Option<&Label>) -> bool
    ensures { result ≡ is_all_or name.now (option_map (λ n. n.now) other.entry) }
{
    match other {
        None => true,
        Some(other) => name.as_str() == other.as_str(),
    }
}

/// Whether the call is about this container of the pod, or about the whole pod.
pub(crate) fn concerns(uid: &Uid, name: &Label, call: &Call) -> bool
    ensures { result ≡ concerns uid.now name.now call.now }
{
    uid.as_str() == uid_of(call).as_str() && is_all_or(name, container_of(call))
}

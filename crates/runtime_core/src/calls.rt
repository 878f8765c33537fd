//! Which sandbox a call names.
ghost use Rattle.std.specs.Prelude.{◌≡◌};
ghost use Rattle.runtime_core.specs.Stays.{kind_of};
ghost use Rattle.cri_msgs.specs.Calls.{uid_of};

use cri_msgs::Call;
use manifest::Uid;

/// The uid of the sandbox that a call names.
pub fn uid_of(call: &Call) -> &Uid
    ensures { result.now ≡ uid_of call.now }
{
    match call {
        Call::RunPodSandbox { uid } => uid,
        Call::StopPodSandbox { uid, .. } => uid,
        Call::RemovePodSandbox { uid } => uid,
        Call::CreateContainer { key, .. } => &key.uid,
        Call::StartContainer { key } => &key.uid,
        Call::StopContainer { key, .. } => &key.uid,
        Call::RemoveContainer { key } => &key.uid,
        Call::ContainerStatus { key } => &key.uid,
        Call::ListContainers { uid } => uid,
        Call::ContainerStatuses { uid } => uid,
    }
}

/// What a call does to the list of its sandbox.
#[derive(Clone, Copy, PartialEq, Eq)]
pub(crate) enum Kind {
    /// It may make the sandbox.
    Runs,
    /// It may remove the sandbox.
    Removes,
    Other,
}

/// What a call does to the list of its sandbox.
pub(crate) fn kind_of(call: &Call) -> Kind
    ensures { result ≡ kind_of call.now }
{
    match call {
        Call::RunPodSandbox { .. } => Kind::Runs,
        Call::RemovePodSandbox { .. } => Kind::Removes,
        Call::StopPodSandbox { .. } => Kind::Other,
        Call::CreateContainer { .. } => Kind::Other,
        Call::StartContainer { .. } => Kind::Other,
        Call::StopContainer { .. } => Kind::Other,
        Call::RemoveContainer { .. } => Kind::Other,
        Call::ContainerStatus { .. } => Kind::Other,
        Call::ListContainers { .. } => Kind::Other,
        Call::ContainerStatuses { .. } => Kind::Other,
    }
}

ghost use Rattle.std.specs.Prelude.{◌≡◌};
ghost use Rattle.cri_msgs.specs.Reading.{call_named, kind_named, refusal_numbered};

use crate::refusals::Refusal;
use crate::states::ContainerState;
use json_tree::FieldFault;

// What the names and numbers in messages mean.

// A call without its fields.
#[derive(Clone, Copy)]
pub(crate) enum CallName {
    RunPodSandbox,
    StopPodSandbox,
    RemovePodSandbox,
    CreateContainer,
    StartContainer,
    StopContainer,
    RemoveContainer,
    ContainerStatus,
    ListContainers,
    ContainerStatuses,
}

#[tactic(auto, unfolding(crate::specs::Reading::call_named))]
pub(crate) fn call_named(text: &str) -> Result<CallName, FieldFault>
    ensures { result ≡ call_named text.now }
{
    match text {
        "RunPodSandbox" => Ok(CallName::RunPodSandbox),
        "StopPodSandbox" => Ok(CallName::StopPodSandbox),
        "RemovePodSandbox" => Ok(CallName::RemovePodSandbox),
        "CreateContainer" => Ok(CallName::CreateContainer),
        "StartContainer" => Ok(CallName::StartContainer),
        "StopContainer" => Ok(CallName::StopContainer),
        "RemoveContainer" => Ok(CallName::RemoveContainer),
        "ContainerStatus" => Ok(CallName::ContainerStatus),
        "ListContainers" => Ok(CallName::ListContainers),
        "ContainerStatuses" => Ok(CallName::ContainerStatuses),
        _ => Err(FieldFault::WrongType),
    }
}

#[tactic(auto, unfolding(crate::specs::Reading::kind_named))]
pub(crate) fn kind_named(text: &str) -> Result<ContainerState, FieldFault>
    ensures { result ≡ kind_named text.now }
{
    match text {
        "CREATED" => Ok(ContainerState::Created),
        "RUNNING" => Ok(ContainerState::Running),
        "EXITED" => Ok(ContainerState::Exited),
        _ => Err(FieldFault::WrongType),
    }
}

#[tactic(auto, unfolding(crate::specs::Reading::refusal_numbered))]
pub(crate) fn refusal_numbered(number: u64) -> Result<Refusal, FieldFault>
    ensures { result ≡ refusal_numbered number }
{
    match number {
        3 => Ok(Refusal::InvalidArgument),
        5 => Ok(Refusal::NotFound),
        6 => Ok(Refusal::AlreadyExists),
        8 => Ok(Refusal::ResourceExhausted),
        9 => Ok(Refusal::FailedPrecondition),
        13 => Ok(Refusal::Internal),
        14 => Ok(Refusal::Memory),
        _ => Err(FieldFault::WrongType),
    }
}

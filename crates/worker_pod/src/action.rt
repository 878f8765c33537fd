ghost use Rattle.std.specs.Prelude.{◌≡◌};
ghost use Rattle.worker_pod.specs.Next.{action_in, making, unmaking};

use crate::sandbox::Sandbox;
use lifecycle::Phase;

// What comes next for a pod.
#[derive(Clone, Copy)]
pub(crate) enum PodAction {
    Nothing,
    RunSandbox,
    StopSandbox,
    RemoveSandbox,
    // One of its containers is worked on.
    Containers,
}

// What is left to do for a deleted pod.
pub(crate) fn unmaking(sandbox: Sandbox) -> PodAction
    ensures { result ≡ unmaking sandbox }
{
    match sandbox {
        Sandbox::Absent | Sandbox::Ready => PodAction::StopSandbox,
        Sandbox::Stopped => PodAction::RemoveSandbox,
        Sandbox::Removed => PodAction::Nothing,
    }
}

fn making(sandbox: Sandbox) -> PodAction
    ensures { result ≡ making sandbox }
{
    match sandbox {
        Sandbox::Ready => PodAction::Containers,
        _ => PodAction::RunSandbox,
    }
}

// What is left to do for a pod in this phase.
pub(crate) fn action_in(phase: Phase, sandbox: Sandbox) -> PodAction
    ensures { result ≡ action_in phase sandbox }
{
    match phase {
        Phase::Succeeded | Phase::Failed => PodAction::Nothing,
        _ => making(sandbox),
    }
}

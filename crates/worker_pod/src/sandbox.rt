ghost use Rattle.std.specs.Prelude.{◌≡◌};
ghost use Rattle.worker_pod.specs.Past.{sandbox_at};
ghost use Rattle.worker_pod.specs.Next.{is_gone};

use crate::update::StatusUpdate;

// The state of a pod's sandbox, by the answers.
#[derive(Clone, Copy)]
pub(crate) enum Sandbox {
    Absent,
    Ready,
    Stopped,
    Removed,
}

impl Sandbox {
    pub(crate) fn is_gone(self) -> bool
        ensures { result ≡ is_gone self }
    {
        match self {
            Sandbox::Removed => true,
            _ => false,
        }
    }
}

pub(crate) fn sandbox_at(update: StatusUpdate, sandbox: Sandbox) -> Sandbox
    ensures { result ≡ sandbox_at update sandbox }
{
    match update {
        StatusUpdate::SandboxReady => Sandbox::Ready,
        StatusUpdate::SandboxStopped => Sandbox::Stopped,
        StatusUpdate::SandboxRemoved => Sandbox::Removed,
        _ => sandbox,
    }
}

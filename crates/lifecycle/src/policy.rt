ghost use Rattle.std.specs.Prelude.{◌≡◌};
ghost use Rattle.lifecycle.specs.Restart.{may_restart};

/// When a container is started again after it ended: the field `restartPolicy` of a pod.
#[derive(Clone, Copy, Debug, PartialEq, Eq)]
pub enum RestartPolicy {
    /// After each exit, the default.
    Always,
    /// After an exit with a code other than 0.
    OnFailure,
    /// After none.
    Never,
}

/// Whether a container may be started again after it ended with this code. For an init container
/// `RestartPolicy::Always` counts as `RestartPolicy::OnFailure`: it has to succeed only once.
pub fn may_restart(policy: RestartPolicy, init: bool, code: u8) -> bool
    ensures { result ≡ may_restart policy init code }
{
    match policy {
        RestartPolicy::Always => !init || code != 0,
        RestartPolicy::OnFailure => code != 0,
        RestartPolicy::Never => false,
    }
}

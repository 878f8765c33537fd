ghost use Rattle.std.specs.Prelude.{◌≡◌, ◌≤◌, Some, None, if◌then◌else◌, nat_le};
ghost use Rattle.action.specs.declared.verdict.TheConstants.{MAX_ERRNO};
ghost use Rattle.action.specs.Verdict.{rank_of};
ghost use Rattle.oci_profile.specs.Decision.{value_of, verdict_of};

use action::{Action, ENOSYS, MAX_ERRNO, Verdict};
use std::marker::Model;

/// An errno that a call returns, at most [`MAX_ERRNO`].
#[derive(Clone, Copy, Debug, PartialEq, Eq)]
pub struct Errno {
    code: u16,
}

impl Model for Errno {
    ghost use Rattle.std.specs.Prelude.{ℕ, ◌≤◌};
    ghost use Rattle.action.specs.declared.verdict.TheConstants.{MAX_ERRNO};

    ghost Value = { ℕ };

    ghost view = { λ e. e.code };

    ghost invariant = { λ e. e.code ≤ MAX_ERRNO };

    ghost inverse = { λ code. record { code = code } };
}

impl Errno {
    /// The errno with this number, unless it is above [`MAX_ERRNO`].
    pub fn new(code: u16) -> Option<Errno>
        ensures { result ≡ (if nat_le code MAX_ERRNO then Some code else None) }
    {
        if code <= MAX_ERRNO {
            Some(Errno { code })
        } else {
            None
        }
    }

    /// EPERM, which a call returns if a profile has no errno for it.
    pub fn eperm() -> Errno
        ensures { result ≡ 1 }
    {
        Errno { code: 1 }
    }

    /// ENOSYS, the errno of a call that the kernel does not have.
    pub fn enosys() -> Errno
        ensures { result ≡ 38 }
    {
        Errno { code: ENOSYS }
    }

    /// Its number.
    pub fn code(self) -> u16
        ensures code { result ≡ self }
        ensures bounded { result ≤ MAX_ERRNO }
    {
        self.code
    }
}

/// A profile's decision on a call: an action, and its data if it has any.
#[derive(Clone, Copy, Debug, PartialEq, Eq)]
pub enum Decision {
    /// SCMP_ACT_KILL_PROCESS.
    KillProcess,
    /// SCMP_ACT_KILL_THREAD, also named SCMP_ACT_KILL.
    KillThread,
    /// SCMP_ACT_TRAP.
    Trap,
    /// SCMP_ACT_ERRNO: the call returns this errno.
    Errno(Errno),
    /// SCMP_ACT_TRACE: a tracer is notified, with this message.
    Trace(u16),
    /// SCMP_ACT_ALLOW.
    Allow,
    /// SCMP_ACT_LOG.
    Log,
}

impl Decision {
    /// The decision as a verdict of seccomp(2).
    pub fn verdict(self) -> Verdict
        ensures { result ≡ verdict_of self }
    {
        let (action, ret_data) = match self {
            Decision::KillProcess => (Action::KillProcess, 0),
            Decision::KillThread => (Action::KillThread, 0),
            Decision::Trap => (Action::Trap, 0),
            Decision::Errno(errno) => (Action::Errno, errno.code()),
            Decision::Trace(message) => (Action::Trace, message),
            Decision::Allow => (Action::Allow, 0),
            Decision::Log => (Action::Log, 0),
        };
        Verdict { action, ret_data }
    }

    /// The place of its action in the order of strictness, from 0 for the strictest to 7: `Action::rank`.
    pub fn rank(self) -> u8
        ensures { result ≡ rank_of (verdict_of self).action }
    {
        self.verdict().rank()
    }

    /// The filter value for this decision.
    pub fn value(self) -> u32
        ensures { result ≡ value_of self }
    {
        self.verdict().value()
    }
}

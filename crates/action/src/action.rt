ghost use Rattle.std.specs.Prelude.{◌≡◌, Some};
ghost use Rattle.action.specs.Verdict.{action_of, code_of, name_of, rank_of};

use std::fmt;

/// What happens to a system call, strictest first. If filters differ, the strictest of their actions applies.
#[derive(Clone, Copy, Debug, PartialEq, Eq)]
pub enum Action {
    /// Ends the process.
    KillProcess,
    /// Ends the thread.
    KillThread,
    /// Sends the signal SIGSYS to the thread.
    Trap,
    /// Makes the call return an errno.
    Errno,
    /// Asks a supervisor.
    UserNotif,
    /// Notifies a tracer.
    Trace,
    /// Performs the call and logs it.
    Log,
    /// Performs the call.
    Allow,
}

impl Action {
    // The action with this code, the upper half of a filter's value.
    #[tactic(auto, unfolding(crate::specs::Verdict::action_of))]
    pub(crate) fn of_code(code: u16) -> Action
        ensures { result ≡ action_of code }
    {
        match code {
            0x0000 => Action::KillThread,
            0x0003 => Action::Trap,
            0x0005 => Action::Errno,
            0x7fc0 => Action::UserNotif,
            0x7ff0 => Action::Trace,
            0x7ffc => Action::Log,
            0x7fff => Action::Allow,
            _ => Action::KillProcess,
        }
    }

    // The upper half of the values with this action.
    pub(crate) fn code(self) -> u16
        ensures { result ≡ code_of self }
    {
        match self {
            Action::KillProcess => 0x8000,
            Action::KillThread => 0x0000,
            Action::Trap => 0x0003,
            Action::Errno => 0x0005,
            Action::UserNotif => 0x7fc0,
            Action::Trace => 0x7ff0,
            Action::Log => 0x7ffc,
            Action::Allow => 0x7fff,
        }
    }

    /// The action's place in the order of strictness, from 0 for the strictest to 7.
    pub fn rank(self) -> u8
        ensures { result ≡ rank_of self }
    {
        self as u8
    }

    // The name in seccomp(2), without its prefix `SECCOMP_RET_`.
    fn name(self) -> &'static str
        ensures { result.now ≡ name_of self }
    {
        match self {
            Action::KillProcess => "KILL_PROCESS",
            Action::KillThread => "KILL_THREAD",
            Action::Trap => "TRAP",
            Action::Errno => "ERRNO",
            Action::UserNotif => "USER_NOTIF",
            Action::Trace => "TRACE",
            Action::Log => "LOG",
            Action::Allow => "ALLOW",
        }
    }
}

impl fmt::Display for Action {
    ghost output = { λ action. Some (name_of action) };

    fn fmt<W: fmt::Write>(&self, f: &mut fmt::Formatter<W>) -> fmt::Result {
        f.write_str(self.name())
    }
}

ghost use Rattle.std.specs.Prelude.{◌≡◌};

use crate::action::Action;

/// The greatest errno that a call returns.
pub const MAX_ERRNO: u16 = 4095;

/// ENOSYS (function not implemented): the errno of a call that no supervisor or tracer answers.
pub const ENOSYS: u16 = 38;

/// What a filter's value decides about a call.
#[derive(Clone, Copy, Debug, PartialEq, Eq)]
pub struct Verdict {
    pub action: Action,
    /// The lower half of the value: for `Action::Errno` the errno.
    pub ret_data: u16,
}

impl Verdict {
    ghost use Rattle.action.specs.Verdict.{errno_of, performs_of, rank_of, value_of, verdict_of};

    /// Decodes a filter's value. An unknown action becomes `Action::KillProcess`; the data is kept.
    pub fn of_value(value: u32) -> Verdict
        ensures { result ≡ verdict_of value }
    {
        Verdict {
            action: Action::of_code((value >> 16) as u16),
            ret_data: (value & 0xffff) as u16,
        }
    }

    /// The value that encodes this verdict.
    pub fn value(self) -> u32
        ensures { result ≡ value_of self }
    {
        (u32::from(self.action.code()) << 16) | u32::from(self.ret_data)
    }

    /// The place of its action in the order of strictness, from 0 for the strictest to 7.
    pub fn rank(self) -> u8
        ensures { result ≡ rank_of self.action }
    {
        self.action.rank()
    }

    /// Whether the call is performed.
    pub fn performs(self) -> bool
        ensures { result ≡ performs_of self.action }
    {
        matches!(self.action, Action::Log | Action::Allow)
    }

    /// The errno that the call returns instead of being performed, if any.
    pub fn errno(self) -> Option<u16>
        ensures { result ≡ errno_of self }
    {
        match self.action {
            Action::Errno => Some(self.ret_data.min(MAX_ERRNO)),
            Action::UserNotif | Action::Trace => Some(ENOSYS),
            _ => None,
        }
    }
}

ghost use Rattle.std.specs.Prelude.{◌≡◌};
ghost use Rattle.profile_learn.specs.Small.{small_argument};

/// A call that was seen.
#[derive(Clone, Copy, Debug, PartialEq, Eq)]
pub struct Sighting {
    /// The call's number in the table of x86-64.
    pub number: u32,
    /// The value of its small argument, if that is known.
    pub value: Option<u64>,
}

pub(crate) const IOCTL: u32 = 16;

pub(crate) const SOCKET: u32 = 41;

pub(crate) const FCNTL: u32 = 72;

pub(crate) const PERSONALITY: u32 = 135;

pub(crate) const PRCTL: u32 = 157;

/// Which argument of the call, from 0, has few values in most programs: the domain of `socket`, the request
/// of `ioctl`, the command of `fcntl`, the option of `prctl`, the persona of `personality`.
pub fn small_argument(number: u32) -> Option<u8>
    ensures { result ≡ small_argument number }
{
    match number {
        IOCTL => Some(1),
        SOCKET => Some(0),
        FCNTL => Some(1),
        PERSONALITY => Some(0),
        PRCTL => Some(0),
        _ => None,
    }
}

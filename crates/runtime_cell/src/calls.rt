ghost use Rattle.std.specs.Prelude.{◌≡◌};
ghost use Rattle.runtime_cell.specs.Outcome.{entry_of, install_call};

use action::Verdict;
use call_data::{NATIVE_ARCH, SysCall};

/// The exit code of a script that is killed, or signalled, for a call: 128 and the number of SIGSYS, as a
/// shell reports it.
pub const KILLED: u8 = 159;

/// The errno of installing a filter that does not fit on the stack: seccomp(2).
pub const ENOMEM: u16 = 12;

/// The number of seccomp(2) on x86-64.
pub const SECCOMP: u32 = 317;

/// The operation of seccomp(2) that installs a filter.
pub const SET_MODE_FILTER: u64 = 1;

/// A judged call, in the record of a container.
#[derive(Clone, Copy, Debug, PartialEq, Eq)]
pub struct JudgedCall {
    pub call: SysCall,
    /// The joint verdict of the filters on it.
    pub verdict: Verdict,
    /// Whether it was performed.
    pub performed: bool,
}

/// The call by which a step that installs a filter is judged: seccomp(2), with the script's own architecture.
/// The filter's address is 0, as it is unspecified.
pub fn install_call() -> SysCall
    ensures { result ≡ install_call }
{
    SysCall {
        nr: SECCOMP,
        arch: NATIVE_ARCH,
        ip: 0,
        args: [SET_MODE_FILTER, 0, 0, 0, 0, 0],
    }
}

pub(crate) fn entry_of(call: SysCall, verdict: Verdict) -> JudgedCall
    ensures { result ≡ entry_of call verdict }
{
    JudgedCall {
        call,
        verdict,
        performed: verdict.performs(),
    }
}

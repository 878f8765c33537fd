ghost use Rattle.std.specs.Prelude.{IfOk};
ghost use Rattle.oci_profile.specs.declared.profile.Profile.{Profile};
ghost use Rattle.profile_lint.specs.Sameness.{Says};

use bpf_compare::{Comparison, Scope, compare};
use bpf_machine::runs_are_determined;
use call_data::SysCall;
use compile::{CompileFault, compile};
use oci_profile::Profile;
use std::alloc::{AllocError, Global};

/// The greatest number of instructions followed to compare two profiles, which takes milliseconds.
const BUDGET: u64 = 20_000;

/// How two profiles compare on every call.
#[derive(Clone, Copy, Debug, PartialEq, Eq)]
pub(crate) enum Sameness {
    /// They mean the same.
    Same,
    /// They decide this call differently.
    Differ(SysCall),
    /// No answer was found.
    Unknown,
}

/// Compares two profiles by their filters.
pub(crate) fn compared(
    alloc: Global,
    one: &Profile,
    other: &Profile,
) -> Result<Sameness, AllocError>
    ensures { IfOk result (λ s. Says s one.now other.now) }
{
    runs_are_determined();
    let first = match compile(alloc, one) {
        Ok(filter) => filter,
        Err(fault) => return uncompiled(fault),
    };
    let second = match compile(alloc, other) {
        Ok(filter) => filter,
        Err(fault) => return uncompiled(fault),
    };
    match compare(alloc, &first, &second, Scope::EveryCall, BUDGET)? {
        Comparison::Same => Ok(Sameness::Same),
        Comparison::Differs(call, _, _) => Ok(Sameness::Differ(call)),
        Comparison::Undecided(_) => Ok(Sameness::Unknown),
    }
}

fn uncompiled(fault: CompileFault) -> Result<Sameness, AllocError>
    ensures { (one other : Profile) → IfOk result (λ s. Says s one other) }
{
    match fault {
        CompileFault::TooLong => Ok(Sameness::Unknown),
        CompileFault::Memory => Err(AllocError),
    }
}

ghost use Rattle.std.specs.Prelude.{◌≡◌, ◌<◌, ◌&&◌};
ghost use Rattle.oci_profile.specs.Meaning.{all_hold, compares, decision_of, holds_on, names};

use crate::conditions::{Cond, Op};
use crate::decision::Decision;
use crate::profile::{Entry, Profile};
use call_data::{NATIVE_ARCH, SysCall};

/// Numbers from this one up are those of the x32 interface: `__X32_SYSCALL_BIT` of asm/unistd.h.
pub const X32_BIT: u32 = 0x4000_0000;

impl Profile {
    ghost use Rattle.std.specs.Prelude.{◌≡◌};
    ghost use Rattle.oci_profile.specs.Meaning.{meaning};

    /// The profile's decision on a call, as the value that a filter returns. Calls of another architecture,
    /// and those of the x32 interface, end the process.
    #[tactic(auto, unfolding(crate::specs::Meaning::meaning, crate::specs::Meaning::chosen))]
    pub fn value_on(&self, call: &SysCall) -> u32
        ensures { result ≡ meaning self.now call.now }
    {
        if call.arch != NATIVE_ARCH || call.nr >= X32_BIT {
            return Decision::KillProcess.value();
        }
        decision(self.entries.as_slice(), self.default, call).value()
    }
}

impl Entry {
    ghost use Rattle.std.specs.Prelude.{◌≡◌};
    ghost use Rattle.oci_profile.specs.Meaning.{names};

    /// Whether the entry names the call with this number.
    #[tactic(auto, unfolding(crate::specs::Meaning::names))]
    pub fn names(&self, nr: u32) -> bool
        ensures { result ≡ names self.now nr }
    {
        self.numbers.as_slice().iter().any(|number| *number == nr)
    }
}

// The decision of the first entry that applies, else the default.
fn decision(entries: &[Entry], default: Decision, call: &SysCall) -> Decision
    ensures { result ≡ decision_of entries.now default call.now.nr call.now }
{
    for entry in entries {
        if applies(entry, call) {
            return entry.decision;
        }
    }
    default
}

fn applies(entry: &Entry, call: &SysCall) -> bool
    ensures { result ≡ (names entry.now call.now.nr && all_hold entry.now call.now) }
{
    entry.names(call.nr) && is_met(entry, call)
}

#[tactic(auto, unfolding(crate::specs::Meaning::all_hold))]
fn is_met(entry: &Entry, call: &SysCall) -> bool
    ensures { result ≡ all_hold entry.now call.now }
{
    entry.conds.as_slice().iter().all(|cond| holds(cond, call))
}

// Whether the condition holds for the call's argument.
fn holds(cond: &Cond, call: &SysCall) -> bool
    requires { cond.now.index < 6 }
    ensures { result ≡ holds_on cond.now call.now }
{
    is_so(cond, call.args[cond.index as usize])
}

fn is_so(cond: &Cond, argument: u64) -> bool
    ensures { result ≡ compares cond.now.op cond.now.value cond.now.value_two argument }
{
    match cond.op {
        Op::NotEqual => argument != cond.value,
        Op::Less => argument < cond.value,
        Op::LessOrEqual => argument <= cond.value,
        Op::Equal => argument == cond.value,
        Op::GreaterOrEqual => argument >= cond.value,
        Op::Greater => argument > cond.value,
        Op::MaskedEqual => argument & cond.value == cond.value_two,
    }
}

ghost use Rattle.std.specs.Prelude.{◌≡◌, ◌<◌, ◌≤◌};
ghost use Rattle.sys_table.specs.SysTable.{limit_of};
ghost use Rattle.filter_differences.specs.Parts.{IsRun, calls_of};

use bpf_compare::Scope;
use sys_table::CallTable;

/// Numbers from this one on are of x32: `__X32_SYSCALL_BIT` of asm/unistd.h.
const X32_BIT: u32 = 0x4000_0000;

/// Calls that are compared together.
#[derive(Clone, Copy, Debug, PartialEq, Eq)]
pub enum Part {
    /// The calls of x86-64 with numbers from the first to the second: a number that has a name, or numbers
    /// without names, all below the limit of the known calls.
    Numbers(u32, u32),
    /// The calls of x86-64 with numbers from the limit of the known calls on, without those of x32.
    Later,
    /// The calls of x32.
    X32,
    /// The calls of all architectures but x86-64.
    OtherArchitectures,
}

impl Part {
    /// Its calls, if these calls are known.
    pub fn scope(self, known: CallTable) -> Scope
        ensures { result ≡ calls_of known self }
    {
        match self {
            Part::Numbers(low, high) => Scope::Numbers(low, high),
            Part::Later => Scope::Numbers(known.limit(), X32_BIT - 1),
            Part::X32 => Scope::Numbers(X32_BIT, u32::MAX),
            Part::OtherArchitectures => Scope::OtherArchitectures,
        }
    }
}

/// The last number of the part that begins with this one: the number itself if it has a name, else the last
/// one before the next name.
pub(crate) fn last_from(known: CallTable, first: u32) -> u32
    requires { first < limit_of known }
    ensures { IsRun known first result }
{
    if known.name(first).is_some() {
        return first;
    }
    for next in first + 1..known.limit() {
        if known.name(next).is_some() {
            return next - 1;
        }
    }
    known.limit() - 1
}

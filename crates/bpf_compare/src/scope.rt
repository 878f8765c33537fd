ghost use Rattle.std.specs.Prelude.{IsTrue};

use call_data::{NATIVE_ARCH, SysCall, fields_fit};

/// Numbers from this one on are not native calls of x86-64: `__X32_SYSCALL_BIT` of asm/unistd.h.
const X32_BIT: u32 = 0x4000_0000;

/// The calls that a user compares two filters on.
#[derive(Clone, Copy, Debug, PartialEq, Eq)]
pub enum Calls {
    /// Every call.
    Every,
    /// Every call of x86-64 with a number below 2^30.
    Native,
}

impl Calls {
    ghost use Rattle.std.specs.Prelude.{◌≡◌};
    ghost use Rattle.bpf_compare.specs.Agree.{scope_of};

    /// The scope of these calls.
    pub fn scope(self) -> Scope
        ensures { result ≡ scope_of self }
    {
        match self {
            Calls::Every => Scope::EveryCall,
            Calls::Native => Scope::NativeCalls,
        }
    }
}

/// The calls on which filters are compared.
#[derive(Clone, Copy, Debug, PartialEq, Eq)]
pub enum Scope {
    /// Every call.
    EveryCall,
    /// The calls of x86-64 with numbers below 2^30, so without those of x32.
    NativeCalls,
    /// The calls of x86-64 with numbers from the first to the second, both included.
    Numbers(u32, u32),
    /// The calls of all architectures but x86-64.
    OtherArchitectures,
}

impl Scope {
    ghost use Rattle.bpf_compare.specs.Agree.{IsOf};

    /// Whether the call is one of them.
    pub(crate) fn has(self, call: SysCall) -> bool
        ensures sound { IsTrue result → IsOf self call }
        ensures complete { IsOf self call → IsTrue result }
    {
        fields_fit(call);
        match self {
            Scope::EveryCall => true,
            Scope::NativeCalls => call.arch == NATIVE_ARCH && call.nr < X32_BIT,
            Scope::Numbers(low, high) => {
                call.arch == NATIVE_ARCH && low <= call.nr && call.nr <= high
            }
            Scope::OtherArchitectures => call.arch != NATIVE_ARCH,
        }
    }
}

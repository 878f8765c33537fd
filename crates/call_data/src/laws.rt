ghost use Rattle.std.specs.Prelude.{◌≡◌, ◌+◌};
ghost use Rattle.call_data.specs.declared.sys_call.TheConstants.{NATIVE_ARCH};
ghost use Rattle.call_data.specs.CallData.{IsCall};

use crate::sys_call::SysCall;

/// The values of this crate's constants, in the standard's own numbers.
pub fn constants_are_as_stated()
    // linux/audit.h: EM_X86_64 (62), 64 bits, little-endian.
    ensures native_arch { NATIVE_ARCH ≡ 62 + 0x8000_0000 + 0x4000_0000 }
{}

/// Each number of a call fits its field, as its type ensures.
pub fn fields_fit(call: SysCall)
    ensures { IsCall call }
{
    let _ = call;
}

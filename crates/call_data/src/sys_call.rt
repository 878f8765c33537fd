ghost use Rattle.std.specs.Prelude.{◌≡◌, ◌<◌, ◌%◌};

use crate::words::word_of;
use byteorder::{ByteOrder, LittleEndian};

/// The architecture of the calls of x86-64: `AUDIT_ARCH_X86_64` of `linux/audit.h`.
pub const NATIVE_ARCH: u32 = 0xc000_003e;

/// A system call as its filters see it, before it is performed.
#[derive(Clone, Copy, Debug, PartialEq, Eq)]
pub struct SysCall {
    /// The number of the call in the table of its architecture.
    pub nr: u32,
    /// The architecture, an `AUDIT_ARCH_` value of `linux/audit.h`.
    pub arch: u32,
    /// The address of the instruction that makes the call.
    pub ip: u64,
    /// The arguments, as in the registers.
    pub args: [u64; 6],
}

impl SysCall {
    ghost use Rattle.call_data.specs.CallData.{bytes_of_call, word_at};

    /// The call's `struct seccomp_data`.
    pub fn to_bytes(&self) -> [u8; 64]
        ensures { result ≡ bytes_of_call self.now }
    {
        let mut bytes = [0u8; 64];
        LittleEndian::write_u32(&mut bytes, self.nr);
        LittleEndian::write_u32(&mut bytes[4..], self.arch);
        LittleEndian::write_u64(&mut bytes[8..], self.ip);
        LittleEndian::write_u64_into(&self.args, &mut bytes[16..]);
        bytes
    }

    /// The word at this offset, in bytes, of the call's data.
    pub fn word(&self, offset: u32) -> u32
        requires inside { offset < 64 }
        requires aligned { offset % 4 ≡ 0 }
        ensures { result ≡ word_at self.now offset }
    {
        word_of(&self.to_bytes(), offset)
    }
}

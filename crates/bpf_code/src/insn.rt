ghost use Rattle.std.specs.Prelude.{◌≡◌, ◌≢◌, IfSome, IfNone};
ghost use Rattle.bpf_code.specs.Code.{Spells, bytes_of_insn, code_of};

use crate::operation::Operation;
use byteorder::{ByteOrder, LittleEndian};
use std::mem::size_of;

/// One instruction. Numbers that its operation does not use are kept as they were given.
#[derive(Clone, Copy, Debug, PartialEq, Eq)]
pub struct Insn {
    /// What it does.
    pub op: Operation,
    /// How many instructions a conditional jump skips if its test holds.
    pub jt: u8,
    /// How many instructions a conditional jump skips if its test fails.
    pub jf: u8,
    /// The number that the operation works with.
    pub k: u32,
}

// An instruction in memory has the size of its encoding: the speed of the machine's loop depends on it.
const _: () = prove!(size_of::<Insn>() == 8);

impl Insn {
    /// The instruction with these four numbers, if the code is in the table.
    pub fn new(code: u16, jt: u8, jf: u8, k: u32) -> Option<Insn>
        ensures made { IfSome result (λ insn. Spells insn code jt jf k) }
        ensures unknown { IfNone result ((op : Operation) → code_of op ≢ code) }
    {
        let op = Operation::of_code(code)?;
        Some(Insn { op, jt, jf, k })
    }

    /// Its `struct sock_filter`, all numbers little-endian.
    pub fn to_bytes(&self) -> [u8; 8]
        ensures { result ≡ bytes_of_insn self.now }
    {
        let mut bytes = [0u8; 8];
        LittleEndian::write_u16(&mut bytes, self.op.code());
        bytes[2] = self.jt;
        bytes[3] = self.jf;
        LittleEndian::write_u32(&mut bytes[4..], self.k);
        bytes
    }
}

ghost use Rattle.std.specs.Prelude.{◌≡◌, ◌≢◌, ◌+◌, ◌*◌, ◌≤◌, ◌<◌, ◌%◌, ◌↔◌, ℕ, IfSome, IfNone, IfOk, IfErr};
ghost use Rattle.std.specs.Prelude.{length};
ghost use Rattle.std.specs.List.{AllByRecursion};
ghost use Rattle.bpf_code.specs.Code.{Fits, bytes_of_code, bytes_of_insn, code_of};
ghost use Rattle.bpf_code.specs.Reading.{HasFault, IsFirstUnknown, IsKnownAt, IsUnknownAt, code_at};

use crate::fault::CodeFault;
use crate::insn::Insn;
use crate::limits::MAX_BYTES;
use byteorder::{ByteOrder, LittleEndian};
use std::alloc::{AllocError, Global};

/// Reads a filter file: its instructions one after the other, all numbers little-endian. No bytes
/// are the empty list. The fault is the first in the order of [`CodeFault`].
pub fn read(alloc: Global, bytes: &[u8]) -> Result<Vec<Insn>, CodeFault>
    // Written out again, the instructions are the text.
    ensures text { IfOk result (λ code. bytes.now ≡ bytes_of_code code.items) }
    ensures fits { IfOk result (λ code. AllByRecursion Fits code.items) }
    ensures short { IfOk result (λ code. 8 * length code.items ≤ MAX_BYTES) }
    ensures fault { IfErr result (λ fault. fault ≢ CodeFault.Memory → HasFault bytes.now fault) }

    // A text with a fault is refused, even if memory runs out.
    ensures refused { (fault : CodeFault) → HasFault bytes.now fault → result ≡ Err fault }
{
    if bytes.len() % 8 != 0 {
        return Err(CodeFault::Length);
    }
    if bytes.len() > MAX_BYTES {
        return Err(CodeFault::TooLong);
    }
    match first_unknown(bytes) {
        Some(at) => Err(CodeFault::BadCode(at)),
        None => Ok(decode(alloc, bytes)?),
    }
}

/// The lowest place whose code is not in the table.
fn first_unknown(bytes: &[u8]) -> Option<usize>
    requires { length bytes.now % 8 ≡ 0 }
    ensures first { IfSome result (IsFirstUnknown bytes.now) }
    ensures none { IfNone result ((at : ℕ) → 8 * at < length bytes.now → IsKnownAt bytes.now at) }
{
    for at in 0..bytes.len() / 8 {
        let Some(_) = insn_of(&bytes[8 * at..8 * at + 8]) else {
            return Some(at);
        };
    }
    None
}

/// The instructions of a text whose codes are all in the table.
fn decode(alloc: Global, bytes: &[u8]) -> Result<Vec<Insn>, AllocError>
    requires whole { length bytes.now % 8 ≡ 0 }
    requires known { (at : ℕ) → 8 * at < length bytes.now → IsKnownAt bytes.now at }
    ensures text { IfOk result (λ code. bytes.now ≡ bytes_of_code code.items) }
    ensures fits { IfOk result (λ code. AllByRecursion Fits code.items) }
{
    let count = bytes.len() / 8;
    let mut code = Vec::with_capacity(alloc, count)?;
    for at in 0..count {
        let insn = insn_of(&bytes[8 * at..8 * at + 8]).unwrap();
        code.push(insn)?;
    }
    Ok(code)
}

/// The instruction with these eight bytes, if its code is in the table.
fn insn_of(bytes: &[u8]) -> Option<Insn>
    requires { length bytes.now ≡ 8 }
    ensures made { IfSome result (λ insn. bytes.now ≡ bytes_of_insn insn) }
    ensures fits { IfSome result Fits }
    ensures known { IfSome result (λ insn. code_of insn.op ≡ code_at bytes.now 0) }
    ensures unknown { IfNone result (IsUnknownAt bytes.now 0) }
{
    let code = LittleEndian::read_u16(&bytes[..2]);
    let k = LittleEndian::read_u32(&bytes[4..]);
    Insn::new(code, bytes[2], bytes[3], k)
}

ghost use Rattle.std.specs.Prelude.{◌≡◌, IfOk};
ghost use Rattle.std.specs.List.{AllByRecursion};
ghost use Rattle.bpf_code.specs.Code.{Fits, bytes_of_code};

use crate::insn::Insn;
use crate::laws::numbers_fit;
use std::alloc::{AllocError, Global};

/// Writes a filter file: the instructions one after the other, all numbers little-endian.
pub fn write(alloc: Global, insns: &[Insn]) -> Result<Vec<u8>, AllocError>
    ensures text { IfOk result (λ bytes. bytes.items ≡ bytes_of_code insns.now) }

    // No other instructions have this text.
    ensures fits { IfOk result (λ _. AllByRecursion Fits insns.now) }
{
    let mut bytes = Vec::new(alloc);
    for insn in insns {
        numbers_fit(*insn);
        bytes.extend_from_slice(&insn.to_bytes())?;
    }
    Ok(bytes)
}

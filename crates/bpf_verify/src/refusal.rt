ghost use Rattle.std.specs.Prelude.{◌≡◌, ◌≢◌, ◌≤◌, IsOk, IfOk, IfErr, List, length};
ghost use Rattle.bpf_code.specs.declared.insn.Insn.{Insn};
ghost use Rattle.bpf_code.specs.declared.fault.CodeFault.{CodeFault};
ghost use Rattle.bpf_code.specs.declared.limits.TheConstants.{MAX_INSNS};
ghost use Rattle.bpf_code.specs.Reading.{HasFault};
ghost use Rattle.bpf_verify.specs.declared.fault.Fault.{Fault};
ghost use Rattle.bpf_verify.specs.Faults.{IsFirstFault};
ghost use Rattle.bpf_verify.specs.Refused.{IsRefused, IsTextOf};
ghost use Rattle.bpf_verify.specs.Sound.{IsSound};

use crate::fault::Fault;
use crate::filter::Filter;
use crate::verifier::verify;
use bpf_code::{CodeFault, written_is_read};
use std::alloc::Global;
use std::fmt;
use thiserror::Error;

/// Why the bytes of a filter are refused.
#[derive(Clone, Copy, Debug, PartialEq, Eq, Error)]
pub enum Refusal {
    /// They are not a list of instructions, or memory ran out while they were read.
    Code(CodeFault),
    /// Their instructions are not a sound filter.
    Filter(Fault),
}

/// The name of its fault.
impl fmt::Display for Refusal {
    ghost use Rattle.std.specs.Prelude.{Some};
    ghost use Rattle.bpf_verify.specs.RefusalText.{refusal_text};

    ghost output = { λ refusal. Some (refusal_text refusal) };

    fn fmt<W: fmt::Write>(&self, f: &mut fmt::Formatter<W>) -> fmt::Result {
        match self {
            Refusal::Code(fault) => write!(f, "{fault}"),
            Refusal::Filter(fault) => write!(f, "{fault}"),
        }
    }
}

/// Reads and verifies the filter that these bytes spell: its `struct sock_filter`s, one after the other,
/// little-endian. A fault of the bytes comes before a fault of their code. `Code(Memory)` if an allocation
/// fails, and only for bytes that spell code.
pub fn filter_of(alloc: Global, bytes: &[u8]) -> Result<Filter, Refusal>
    ensures text { IfOk result (λ filter. IsTextOf bytes.now filter) }
    ensures sound { IfOk result (λ filter. IsSound filter) }
    ensures refused { IfErr result (IsRefused bytes.now) }

    // A text with a fault is refused for it, even if memory runs out.
    ensures told { (fault : CodeFault) → HasFault bytes.now fault → result ≡ Err (Refusal.Code fault) }

    // If there is memory, sound code is accepted, and the first fault of other code is reported.
    ensures accepts { (code : List Insn) → IsTextOf bytes.now code → IsSound code
        → result ≢ Err (Refusal.Code CodeFault.Memory) → IsOk result }
    ensures first { (code : List Insn) (fault : Fault) → IsTextOf bytes.now code → length code ≤ MAX_INSNS
        → IsFirstFault code fault
        → result ≢ Err (Refusal.Code CodeFault.Memory) → result ≡ Err (Refusal.Filter fault) }
{
    written_is_read();
    match bpf_code::read(alloc, bytes) {
        Ok(insns) => match verify(insns) {
            Ok(filter) => Ok(filter),
            Err((_, fault)) => Err(Refusal::Filter(fault)),
        },
        Err(fault) => Err(Refusal::Code(fault)),
    }
}

ghost use Rattle.std.specs.Prelude.{◌≡◌, ◌*◌, ◌<◌, ◌≤◌, ◌^◌, List, length};
ghost use Rattle.std.specs.List.{AllByRecursion};
ghost use Rattle.bpf_code.specs.declared.insn.Insn.{Insn};
ghost use Rattle.bpf_code.specs.declared.fault.CodeFault.{CodeFault};
ghost use Rattle.bpf_code.specs.declared.limits.TheConstants.{DATA_LEN, MAX_BYTES, MAX_INSNS, SCRATCH_WORDS};
ghost use Rattle.bpf_code.specs.declared.operation.Operation.{Operation};
ghost use Rattle.bpf_code.specs.Code.{Fits, bytes_of_code, code_of};
ghost use Rattle.bpf_code.specs.Reading.{HasFault};

use crate::insn::Insn;

/// Written code can be read back: the bytes of instructions have no fault, and no other instructions have the
/// same bytes.
pub fn written_is_read()
    ensures fine { (code : List Insn) (fault : CodeFault) → 8 * length code ≤ MAX_BYTES
        → HasFault (bytes_of_code code) fault → ⊥ }
    ensures alone { (code other : List Insn) → AllByRecursion Fits code → AllByRecursion Fits other
        → bytes_of_code code ≡ bytes_of_code other → code ≡ other }
{}

/// The numbers of an instruction fit their fields, as its type ensures.
pub fn numbers_fit(insn: Insn)
    ensures { Fits insn }
{
    let _ = insn;
}

/// Each code of the table is a byte.
pub fn codes_are_small()
    ensures { (op : Operation) → code_of op < 2 ^ 8 }
{}

/// The values of this crate's constants, in the standards' own numbers.
pub fn constants_are_as_stated()
    // BPF_MAXINSNS of linux/bpf_common.h
    ensures max_insns { MAX_INSNS ≡ 4096 }
    // as many instructions of 8 bytes
    ensures max_bytes { MAX_BYTES ≡ 32768 }
    // the size of struct seccomp_data, seccomp(2)
    ensures data_len { DATA_LEN ≡ 64 }
    // BPF_MEMWORDS of linux/filter.h
    ensures scratch_words { SCRATCH_WORDS ≡ 16 }
{}

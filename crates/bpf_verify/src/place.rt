ghost use Rattle.std.specs.Prelude.{◌≡◌, ◌≤◌, ◌<◌, ◌↔◌, ◌+◌, ◌^◌, ℕ, IsTrue, IfSome, IfNone, length};
ghost use Rattle.bpf_code.specs.declared.limits.TheConstants.{MAX_INSNS};
ghost use Rattle.bpf_code.specs.declared.insn.Insn.{Insn};
ghost use Rattle.bpf_code.specs.Flow.{flow_of};
ghost use Rattle.bpf_verify.specs.Sound.{AllKeepRules, KeepsNumber, KeepsRules, KeepsTargets};
ghost use Rattle.bpf_verify.specs.Faults.{IsFirstBroken, broken_by};

use crate::fault::Fault;
use bpf_code::{DATA_LEN, Flow, Insn, Operation, SCRATCH_WORDS};

/// The lowest place that breaks a rule, as its fault.
pub(crate) fn first_broken(code: &[Insn]) -> Option<Fault>
    requires { length code.now ≤ MAX_INSNS }
    ensures broken { IfSome result (λ fault. (at : ℕ) × IsFirstBroken code.now at fault) }
    ensures fine { IfNone result (AllKeepRules code.now) }
{
    for (at, insn) in code.iter().enumerate() {
        if !keeps_rules(code.len(), at, insn) {
            return Some(broken_rule(insn.op, at));
        }
    }
    None
}

/// Whether an instruction by itself is one that a filter of this length may have at this place.
fn keeps_rules(len: usize, at: usize, insn: &Insn) -> bool
    requires { at < 2 ^ 32 }
    ensures { IsTrue result ↔ KeepsRules len at insn.now }
{
    keeps_number(insn.op, insn.k) && keeps_targets(len, at, insn)
}

fn keeps_number(op: Operation, k: u32) -> bool
    ensures { IsTrue result ↔ KeepsNumber op k }
{
    match op {
        Operation::LoadData => k < DATA_LEN && k % 4 == 0,
        Operation::LoadWord | Operation::LoadXWord | Operation::Store | Operation::StoreX => {
            k < SCRATCH_WORDS
        }
        Operation::DivK => k != 0,
        Operation::ShiftLeft | Operation::ShiftRight => k < 32,
        _ => true,
    }
}

fn keeps_targets(len: usize, at: usize, insn: &Insn) -> bool
    requires { at < 2 ^ 32 }
    ensures { IsTrue result ↔ KeepsTargets (flow_of insn.now.op) insn.now at len }
{
    let next = at + 1;
    match insn.op.flow() {
        Flow::Jumps => next + (insn.k as usize) < len,
        Flow::Branches => next + (insn.jt as usize) < len && next + (insn.jf as usize) < len,
        Flow::Returns | Flow::Continues => true,
    }
}

/// The fault of an instruction that breaks the rule of its operation.
fn broken_rule(op: Operation, at: usize) -> Fault
    ensures { result ≡ broken_by op at }
{
    match op {
        Operation::LoadData => Fault::BadOffset(at),
        Operation::LoadWord | Operation::LoadXWord | Operation::Store | Operation::StoreX => {
            Fault::BadWord(at)
        }
        Operation::DivK => Fault::ZeroDivisor(at),
        Operation::ShiftLeft | Operation::ShiftRight => Fault::BadShift(at),
        _ => Fault::BadJump(at),
    }
}

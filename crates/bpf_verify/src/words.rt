ghost use Rattle.std.specs.Prelude.{◌≡◌, ◌≤◌, ◌<◌, ◌-◌, ◌^◌, ℕ, IsTrue, IfSome, IfNone, Some, slice_get};
ghost use Rattle.std.specs.Prelude.{slice_index, length};
ghost use Rattle.std.specs.Bool.{OnFalse};
ghost use Rattle.std.specs.Int.{bit_at};
ghost use Rattle.bpf_code.specs.declared.insn.Insn.{Insn};
ghost use Rattle.bpf_code.specs.declared.limits.TheConstants.{MAX_INSNS};
ghost use Rattle.bpf_code.specs.Flow.{flow_of, scratch_of};
ghost use Rattle.bpf_verify.specs.Sound.{AllKeepRules, EndsWithReturn, FindsWord, KeepsNumber};
ghost use Rattle.bpf_verify.specs.Faults.{IsFirstUnstored};
ghost use Rattle.bpf_verify.specs.Masks.{GoesBelow, narrowed, passed_on, stored_after};

use bpf_code::{Flow, Insn, MAX_INSNS, Scratch};

/// The lowest place at which a scratch word is loaded that some walk to it did not store.
pub(crate) fn first_unstored(code: &[Insn]) -> Option<usize>
    requires some { 0 < length code.now }
    requires short { length code.now ≤ MAX_INSNS }
    requires rules { AllKeepRules code.now }
    requires last { EndsWithReturn code.now }
    ensures unstored { IfSome result (IsFirstUnstored code.now) }
    ensures fine { IfNone result ((at : ℕ) (insn : Insn) → slice_get code.now at ≡ Some insn
        → FindsWord code.now at insn) }
{
    let mut masks = [u16::MAX; MAX_INSNS];
    first_unstored_by(code, &mut masks)
}

/// Computes `first_unstored`, given an array with a mask for each place, all of whose bits are set.
///
/// Jumps only go forward, so one pass is enough. For each place it keeps a bit for each word that every walk
/// so far stored; a place that no walk reached has all bits.
fn first_unstored_by(code: &[Insn], masks: &mut [u16]) -> Option<usize>
    requires some { 0 < length code.now }
    requires short { length code.now ≤ MAX_INSNS }
    requires rules { AllKeepRules code.now }
    requires last { EndsWithReturn code.now }
    requires room { length masks.old ≡ MAX_INSNS }
    requires set { (at : ℕ) → at < length masks.old → slice_index masks.old at ≡ 2 ^ 16 - 1 }
    ensures unstored { IfSome result (IsFirstUnstored code.now) }
    ensures fine { IfNone result ((at : ℕ) (insn : Insn) → slice_get code.now at ≡ Some insn
        → FindsWord code.now at insn) }
{
    masks[0] = 0;
    for (at, insn) in code.iter().enumerate() {
        let mask = masks[at];
        if !finds_word(mask, insn) {
            return Some(at);
        }
        pass_on(masks, at, insn, after(mask, insn));
    }
    None
}

/// Whether each word that an instruction loads is among the stored ones.
fn finds_word(mask: u16, insn: &Insn) -> bool
    requires { KeepsNumber insn.now.op insn.now.k }
    ensures found { IsTrue result → scratch_of insn.now.op ≡ Scratch.Loads → bit_at mask insn.now.k ≡ 1 }
    ensures missed { OnFalse result
        ((scratch_of insn.now.op ≡ Scratch.Loads) × (bit_at mask insn.now.k ≡ 0)) }
{
    match insn.op.scratch() {
        Scratch::Loads => mask >> insn.k & 1 == 1,
        Scratch::Stores | Scratch::Untouched => true,
    }
}

/// The words stored after an instruction, given those stored before it.
fn after(mask: u16, insn: &Insn) -> u16
    requires { KeepsNumber insn.now.op insn.now.k }
    ensures { result ≡ stored_after (scratch_of insn.now.op) insn.now.k mask }
{
    match insn.op.scratch() {
        Scratch::Stores => mask | 1 << insn.k,
        Scratch::Loads | Scratch::Untouched => mask,
    }
}

/// Passes the words that are stored on the way through this place on to the places that may come next.
fn pass_on(masks: &mut [u16], at: usize, insn: &Insn, stored: u16)
    requires small { at < MAX_INSNS }
    requires targets { GoesBelow (flow_of insn.now.op) insn.now at (length masks.old) }
    ensures { masks.new ≡ passed_on (flow_of insn.now.op) insn.now at stored masks.old }
{
    let next = at + 1;
    match insn.op.flow() {
        Flow::Returns => {}
        Flow::Jumps => narrow(masks, next + insn.k as usize, stored),
        Flow::Branches => {
            narrow(masks, next + insn.jt as usize, stored);
            narrow(masks, next + insn.jf as usize, stored);
        }
        Flow::Continues => narrow(masks, next, stored),
    }
}

fn narrow(masks: &mut [u16], at: usize, stored: u16)
    requires { at < length masks.old }
    ensures { masks.new ≡ narrowed at stored masks.old }
{
    masks[at] &= stored;
}

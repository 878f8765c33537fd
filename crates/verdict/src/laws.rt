ghost use Rattle.std.specs.Prelude.{◌≡◌, ◌≤◌, ◌++◌, List, IsTrue};
ghost use Rattle.action.specs.declared.verdict.Verdict.{Verdict};
ghost use Rattle.action.specs.Verdict.{performs_of, rank_of};
ghost use Rattle.bpf_code.specs.declared.insn.Insn.{Insn};
ghost use Rattle.call_data.specs.declared.sys_call.SysCall.{SysCall};
ghost use Rattle.verdict.specs.declared.stack.TheConstants.{MAX_STACK_INSNS};
ghost use Rattle.verdict.specs.Stack.{AllSound, IsJudged, Judges};

use action::ranks_are_an_order;
use bpf_machine::{runs_are_determined, sound_code_runs};

/// A stack of sound filters has exactly one verdict on every call.
pub fn stacks_judge_every_call()
    ensures every { (stack : List (List Insn)) → AllSound stack → (verdicts : SysCall → Verdict)
        × Judges stack verdicts }
    ensures one { (stack : List (List Insn)) (call : SysCall) (verdict other : Verdict)
        → IsJudged stack call verdict → IsJudged stack call other → verdict ≡ other }
{
    ranks_are_an_order();
    runs_are_determined();
    sound_code_runs();
}

/// Filters that are added to a stack never let a call pass that the stack alone stops.
pub fn added_filters_widen_nothing()
    ensures rank { (stack added : List (List Insn)) (call : SysCall) (alone together : Verdict)
        → IsJudged stack call alone → IsJudged (stack ++ added) call together
        → rank_of together.action ≤ rank_of alone.action }
    ensures performs { (stack added : List (List Insn)) (call : SysCall) (alone together : Verdict)
        → IsJudged stack call alone → IsJudged (stack ++ added) call together
        → IsTrue (performs_of together.action) → IsTrue (performs_of alone.action) }
{
    ranks_are_an_order();
    runs_are_determined();
}

/// The value of this crate's constant, in the standard's own number.
pub fn constants_are_as_stated()
    // MAX_INSNS_PER_PATH of the kernel's seccomp: 2^18 bytes of 8-byte instructions
    ensures max_stack_insns { MAX_STACK_INSNS ≡ 32768 }
{}

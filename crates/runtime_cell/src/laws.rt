ghost use Rattle.std.specs.Prelude.{◌≡◌, ◌⊎◌, ◌+◌, ◌++◌, ℕ, List, Bool, IsTrue, Some};
ghost use Rattle.action.specs.declared.verdict.Verdict.{Verdict};
ghost use Rattle.action.specs.Verdict.{performs_of};
ghost use Rattle.bpf_code.specs.declared.insn.Insn.{Insn};
ghost use Rattle.call_data.specs.declared.sys_call.SysCall.{SysCall};
ghost use Rattle.script.specs.declared.scripts.Step.{Step};
ghost use Rattle.script.specs.Script.{HasSoundFilters};
ghost use Rattle.verdict.specs.Stack.{AllSound, IsJudged};
ghost use Rattle.runtime_cell.specs.declared.calls.TheConstants.{ENOMEM, KILLED, SECCOMP, SET_MODE_FILTER};
ghost use Rattle.runtime_cell.specs.declared.cell.Did.{Did};
ghost use Rattle.runtime_cell.specs.declared.cell.State.{State};
ghost use Rattle.runtime_cell.specs.Cell.{Cell, FollowsScript, IsWellMade, Making, Steps, filters_of, fresh};
ghost use Rattle.runtime_cell.specs.Cell.{killed, started};
ghost use Rattle.runtime_cell.specs.Laws.{IsAdded, IsLater, TakesUp};
ghost use Rattle.runtime_cell.specs.Outcome.{IsOutcome, Outcome};

use verdict::{added_filters_widen_nothing, stacks_judge_every_call};

/// Under sound filters each script has exactly one outcome.
pub fn outcomes_are_determined()
    ensures some { (start : List (List Insn)) (attempt : ℕ) (script : List Step) (added : List (List Insn))
        → AllSound (start ++ added) → HasSoundFilters script → (outcome : Outcome)
        × IsOutcome start attempt script added outcome }
    ensures one { (start : List (List Insn)) (attempt : ℕ) (script : List Step) (added : List (List Insn))
        (outcome other : Outcome)
        → IsOutcome start attempt script added outcome → IsOutcome start attempt script added other
        → outcome ≡ other }
{
    stacks_judge_every_call();
}

/// A cell follows its script from its creation on, whatever is done to it.
pub fn cells_follow_their_scripts()
    ensures created { (making : Making) → IsWellMade making → FollowsScript (fresh making State.Created) }
    ensures started { (c : Cell) → FollowsScript c → FollowsScript (started c) }
    ensures stepped { (old : Cell) (did : Did) (new : Cell) → FollowsScript old → Steps old did new
        → FollowsScript new }
    ensures killed { (c : Cell) (code : ℕ) → FollowsScript c → FollowsScript (killed code c) }
{
    stacks_judge_every_call();
}

/// Whatever is done to a cell, it only grows: it keeps its making, the record that it had and, once it has
/// ended, its end.
pub fn cells_only_grow()
    ensures same { (c : Cell) → IsLater c c }
    ensures later { (first then last : Cell) → IsLater first then → IsLater then last → IsLater first last }
    ensures started { (c : Cell) → IsLater c (started c) }
    ensures stepped { (old : Cell) (did : Did) (new : Cell) → Steps old did new → IsLater old new }
    ensures killed { (c : Cell) (code : ℕ) → IsLater c (killed code c) }
{}

/// Each call that a cell attempts is judged by all its filters, and no other call is added to its record.
/// Filters that the script added never let a call pass that the filters of its start alone stop.
pub fn calls_are_judged_by_all_filters()
    ensures taken { (old : Cell) (did : Did) (new : Cell) (call : SysCall) → Steps old did new
        → TakesUp old call → IsAdded old new call }
    ensures added { (old : Cell) (did : Did) (new : Cell) → Steps old did new
        → (new.entries ≡ old.entries) ⊎ ((call : SysCall) × TakesUp old call) }
    ensures start_binds { (c : Cell) (call : SysCall) (alone together : Verdict)
        → IsJudged c.making.stack call alone → IsJudged (filters_of c) call together
        → IsTrue (performs_of together.action) → IsTrue (performs_of alone.action) }
{
    added_filters_widen_nothing();
}

/// The values of this crate's constants.
pub fn constants_are_as_stated()
    // 128 and the number of SIGSYS on x86-64, signal(7), as a shell reports a signal
    ensures killed { KILLED ≡ 128 + 31 }
    // asm-generic/errno-base.h
    ensures enomem { ENOMEM ≡ 12 }
    // asm/unistd_64.h
    ensures seccomp { SECCOMP ≡ 317 }
    // SECCOMP_SET_MODE_FILTER of linux/seccomp.h
    ensures set_mode_filter { SET_MODE_FILTER ≡ 1 }
{}

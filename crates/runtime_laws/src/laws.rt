ghost use Rattle.std.specs.Prelude.{◌∷◌, List, Option};
ghost use Rattle.bpf_code.specs.declared.insn.Insn.{Insn};
ghost use Rattle.runtime_laws.specs.Laws.{LinkLaws, RunLaws};
ghost use Rattle.runtime_laws.specs.Runs.{IsRun, Link};

use runtime_cell::{calls_are_judged_by_all_filters, cells_follow_their_scripts, cells_only_grow};
use verdict::stacks_judge_every_call;

/// The laws of every run, for any requests, steps and kills: for all that happened, and for each link given
/// those before it.
pub fn every_run()
    ensures run { (baseline : Option (List Insn)) (ls : List Link) → IsRun baseline ls → RunLaws baseline ls }
    ensures link { (baseline : Option (List Insn)) (l : Link) (before : List Link)
        → IsRun baseline (l ∷ before) → LinkLaws l before }
{
    cells_only_grow();
    cells_follow_their_scripts();
    calls_are_judged_by_all_filters();
    stacks_judge_every_call();
}

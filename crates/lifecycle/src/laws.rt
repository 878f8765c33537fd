ghost use Rattle.std.specs.Prelude.{◌≡◌, ◌<◌, ◌≤◌, ◌+◌, ◌^◌, ◌++◌, ◌∷◌, List, Bool, true, false, length};
ghost use Rattle.std.specs.List.{All};
ghost use Rattle.lifecycle.specs.declared.policy.RestartPolicy.{RestartPolicy};
ghost use Rattle.lifecycle.specs.declared.track.Track.{Track};
ghost use Rattle.lifecycle.specs.declared.phases.Phase.{Phase};
ghost use Rattle.lifecycle.specs.declared.runs.TheConstants.{MAX_RUNS};
ghost use Rattle.lifecycle.specs.BackOff.{Run, lasted, row_of};
ghost use Rattle.lifecycle.specs.Phases.{has_failed_init, phase_of};
ghost use Rattle.lifecycle.specs.Restart.{may_restart};

/// An init container that succeeded is never started again, whatever the policy.
pub fn finished_init_stays_finished()
    ensures { (policy : RestartPolicy) → may_restart policy true 0 ≡ false }
{}

/// The back-off counts the latest run of ten minutes or more and those after it, or all runs if none lasted
/// so long.
pub fn back_off_counts_from_the_last_long_run()
    ensures long { (earlier later : List Run) (run : Run) → 600 ≤ lasted run
        → All (λ after. lasted after < 600) later
        → row_of (earlier ++ run ∷ later) ≡ length later + 1 }
    ensures none_long { (runs : List Run) → All (λ run. lasted run < 600) runs → row_of runs ≡ length runs }
{}

/// A pod with only init containers has succeeded, unless one of them failed.
pub fn init_containers_alone_succeed()
    ensures { (policy : RestartPolicy) (lost : Bool) (tracks : List Track)
        → All (λ track. track.init ≡ true) tracks
        → has_failed_init policy tracks ≡ false → phase_of policy lost tracks ≡ Phase.Succeeded }
{}

/// The values of this crate's constants.
pub fn constants_are_as_stated()
    // this many runs, and one more that is going on, are below 2 ^ 64
    ensures { MAX_RUNS + 2 ≡ 2 ^ 64 }
{}

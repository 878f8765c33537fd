ghost use Rattle.std.specs.Prelude.{◌≡◌, ◌≢◌, ◌↔◌, ℕ, ◌/◌, ◌%◌, ◌^◌, ◌<◌, ◌≤◌, IsTrue};
ghost use Rattle.action.specs.declared.action.Action.{Action};
ghost use Rattle.action.specs.declared.verdict.Verdict.{Verdict};
ghost use Rattle.action.specs.declared.verdict.TheConstants.{ENOSYS, MAX_ERRNO};
ghost use Rattle.action.specs.Verdict.{code_of, performs_of, rank_of, value_of, verdict_of};

/// A verdict's value decodes to the same verdict.
#[tactic(auto, unfolding(crate::specs::Verdict::action_of))]
pub fn verdicts_round_trip()
    ensures { (verdict : Verdict) → verdict.ret_data < 2 ^ 16
        → verdict_of (value_of verdict) ≡ verdict }
{}

/// A value is that of its verdict if its action is known. Any other value ends the process and keeps its
/// data.
#[tactic(auto, unfolding(crate::specs::Verdict::action_of))]
pub fn values_round_trip()
    ensures known { (value : ℕ) (action : Action) → value / 2 ^ 16 ≡ code_of action
        → value_of (verdict_of value) ≡ value }
    ensures unknown { (value : ℕ) → ((action : Action) → value / 2 ^ 16 ≢ code_of action)
        → verdict_of value ≡ record { action = Action.KillProcess; ret_data = value % 2 ^ 16 } }
{}

/// The ranks order the actions, and those that perform a call come last.
pub fn ranks_are_an_order()
    ensures below { (action : Action) → rank_of action < 8 }
    ensures distinct { (one other : Action) → rank_of one ≡ rank_of other → one ≡ other }
    ensures performing_last { (action : Action)
        → IsTrue (performs_of action) ↔ (rank_of Action.Log ≤ rank_of action) }
{}

/// The values of this crate's constants, in the standards' own numbers.
pub fn constants_are_as_stated()
    // linux/err.h, as seccomp(2) caps it
    ensures max_errno { MAX_ERRNO ≡ 4095 }
    // asm-generic/errno.h
    ensures enosys { ENOSYS ≡ 38 }
{}

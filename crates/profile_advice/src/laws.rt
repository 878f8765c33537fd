//! What the advice means.
ghost use Rattle.std.specs.Prelude.{◌≡◌, ◌↔◌, ◌<◌, ◌^◌, ℕ, true};
ghost use Rattle.oci_profile.specs.declared.conditions.Op.{Op};
ghost use Rattle.profile_advice.specs.Conditions.{always};
ghost use Rattle.profile_advice.specs.Laws.{HoldsAlways};

/// A comparison is reported to hold always exactly if it is true of every argument.
#[tactic(auto, using(crate::proofs::Always::exact))]
pub fn always_is_exact()
    ensures { (op : Op) (value two : ℕ) → value < 2 ^ 64 → two < 2 ^ 64
        → (always op value two ≡ true) ↔ HoldsAlways op value two }
{}

ghost use Rattle.std.specs.Prelude.{◌≡◌};
ghost use Rattle.worker_crew.specs.declared.pace.TheConstants.{LONGEST_WAIT};

/// The values of this crate's constants.
pub fn constants_are_as_stated()
    // seconds
    ensures longest_wait { LONGEST_WAIT ≡ 3600 }
{}

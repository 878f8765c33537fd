ghost use Rattle.std.specs.Prelude.{◌≡◌};
ghost use Rattle.script.specs.declared.scripts.TheConstants.{MAX_STEPS};

/// The value of this crate's constant, this project's own.
pub fn constants_are_as_stated()
    ensures max_steps { MAX_STEPS ≡ 4096 }
{}

ghost use Rattle.std.specs.Prelude.{◌≡◌};
ghost use Rattle.manifest.specs.declared.containers.TheConstants.{MAX_CONTAINERS};

/// The values of this crate's constants.
pub fn constants_are_as_stated()
    // This project's own.
    ensures limit { MAX_CONTAINERS ≡ 16 }
{}

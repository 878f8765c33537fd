ghost use Rattle.std.specs.Prelude.{◌≡◌};
ghost use Rattle.runner.specs.declared.reader.TheConstants.{LARGE_TEXT};

/// The values of this crate's constants.
pub fn constants_are_as_stated()
    // bytes
    ensures large_text { LARGE_TEXT ≡ 16384 }
{}

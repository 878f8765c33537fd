ghost use Rattle.std.specs.Prelude.{◌≡◌};
ghost use Rattle.cri_msgs.specs.declared.lists.TheConstants.{MAX_LISTED};
ghost use Rattle.cri_msgs.specs.declared.version.TheConstants.{MAX_TEXT};

/// The values of this crate's constants.
pub fn constants_are_as_stated()
    // This project's own.
    ensures listed { MAX_LISTED ≡ 1024 }
    ensures text { MAX_TEXT ≡ 1048576 }
{}

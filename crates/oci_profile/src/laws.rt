ghost use Rattle.std.specs.Prelude.{◌≡◌, ◌<◌, ◌*◌, ◌^◌};
ghost use Rattle.oci_profile.specs.declared.decision.Decision.TheVariants.{KillProcess};
ghost use Rattle.oci_profile.specs.declared.meaning.TheConstants.{X32_BIT};
ghost use Rattle.oci_profile.specs.declared.reader.TheConstants.{MAX_PROFILE_BYTES};
ghost use Rattle.oci_profile.specs.Decision.{value_of};
ghost use Rattle.oci_profile.specs.Meaning.{weight};
ghost use Rattle.oci_profile.specs.RuntimeDefault.{runtime_default};

/// The values of this crate's constants.
pub fn constants_are_as_stated()
    // asm/unistd.h.
    ensures x32 { X32_BIT ≡ 2 ^ 30 }

    // linux/seccomp.h.
    ensures kill_process { value_of KillProcess ≡ 0x8000_0000 }

    // This project's own.
    ensures limit { MAX_PROFILE_BYTES ≡ 256 * 1024 }
{}

/// The profile RuntimeDefault is light enough to be compiled: a filter has 4,096 instructions at most.
pub fn runtime_default_is_light()
    ensures { weight runtime_default < 4096 }
{}

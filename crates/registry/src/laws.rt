ghost use Rattle.std.specs.Prelude.{◌≡◌, ◌+◌};
ghost use Rattle.registry.specs.declared.limits.TheConstants.{MAX_CELLS, MAX_KEYS, MAX_UIDS, STOPPED};
ghost use Rattle.registry.specs.declared.limits.TheConstants.{TERMINATED};

/// The values of this crate's constants.
pub fn constants_are_as_stated()
    // 128 and the number of SIGKILL, and of SIGTERM, signal(7), as a shell reports a signal
    ensures stopped { STOPPED ≡ 128 + 9 }
    ensures terminated { TERMINATED ≡ 128 + 15 }
    // these limits are this project's own
    ensures uids { MAX_UIDS ≡ 65536 }
    ensures cells { MAX_CELLS ≡ 1024 }
    ensures keys { MAX_KEYS ≡ 65536 }
{}

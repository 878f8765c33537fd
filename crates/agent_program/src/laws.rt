ghost use Rattle.std.specs.Prelude.{◌≡◌};
ghost use Rattle.agent_program.specs.declared.limits.TheConstants.{LAST_CALLS, LOOKS, MAX_WORKERS, PATIENCE, RUNNERS};
ghost use Rattle.agent_program.specs.declared.dialing.TheConstants.{QUEUE_REST};

/// The values of this crate's constants.
pub fn constants_are_as_stated()
    ensures runners { RUNNERS ≡ 4 }
    ensures max_workers { MAX_WORKERS ≡ 64 }
    // two minutes
    ensures patience { PATIENCE ≡ 120 }
    // a second, in milliseconds
    ensures last_calls { LAST_CALLS ≡ 1000 }
    ensures looks { LOOKS ≡ 100 }
    // milliseconds
    ensures queue_rest { QUEUE_REST ≡ 10 }
{}

ghost use Rattle.std.specs.Prelude.{◌≡◌};
ghost use Rattle.agent_tasks.specs.declared.limits.TheConstants.{TASK_LOOK, SLICE};

/// The values of this crate's constants.
pub fn constants_are_as_stated()
    // a second
    ensures task_look { TASK_LOOK ≡ 1 }
    // milliseconds
    ensures slice { SLICE ≡ 50 }
{}

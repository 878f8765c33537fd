ghost use Rattle.std.specs.Prelude.{◌≡◌};
ghost use Rattle.agent_parts.specs.declared.limits.TheConstants.{LONGEST_REST, LOOK_SHARE, POLL, REMOVAL};
ghost use Rattle.agent_parts.specs.declared.limits.TheConstants.{SETTLE_UNTIL, SHORTEST_REST};
ghost use Rattle.agent_parts.specs.declared.repeats.TheConstants.{REPORT_REST};

/// The values of this crate's constants.
pub fn constants_are_as_stated()
    // a minute
    ensures report_rest { REPORT_REST ≡ 60 }
    // an hour
    ensures settle_until { SETTLE_UNTIL ≡ 3600 }
    ensures poll { POLL ≡ 1 }
    // so looks take less than a hundredth of a core
    ensures look_share { LOOK_SHARE ≡ 125 }
    // milliseconds
    ensures shortest_rest { SHORTEST_REST ≡ 1000 }
    ensures longest_rest { LONGEST_REST ≡ 10000 }
    // a minute
    ensures removal { REMOVAL ≡ 60 }
{}

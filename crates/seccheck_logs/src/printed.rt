//! The learned profile as it is printed.
ghost use Rattle.std.specs.Prelude.{IfOk, List, string_bytes};
ghost use Rattle.seccheck_logs.specs.LearnedLine.{IsLearnedLine};
ghost use Rattle.profile_learn.specs.Kept.{IsSummary};
ghost use Rattle.profile_learn.specs.declared.sighting.Sighting.{Sighting};

use oci_profile::Profile;
use profile_learn::{Learned, Wanted, profile_of};
use profile_text::{WriteFault, write};
use std::alloc::Global;
use sys_table::CallTable;

/// The line that reads as the profile of what was learned, and names these calls.
pub(crate) fn profile_line(
    alloc: Global,
    calls: CallTable,
    learned: &Learned,
    base: &Profile,
    wanted: Wanted,
) -> Result<String, WriteFault>
    ensures learned { (history : List Sighting) → IsSummary learned.now history
        → IfOk result (λ line. IsLearnedLine calls history wanted base.now (string_bytes line)) }
{
    let profile = profile_of(alloc, learned, base, wanted)?;
    let mut line = write(alloc, calls, &profile)?;
    line.push_str("\n")?;
    Ok(line)
}

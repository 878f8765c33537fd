ghost use Rattle.std.specs.Prelude.{◌≡◌};
ghost use Rattle.std.specs.List.{list_all};
ghost use Rattle.profile_text.specs.Writable.{are_named, is_named, is_writable, is_writable_entry};

use oci_profile::{Decision, Entry, Profile};
use sys_table::CallTable;

/// Whether each entry can be written.
pub(crate) fn is_writable(calls: CallTable, profile: &Profile) -> bool
    ensures { result ≡ is_writable calls profile.now }
{
    are_writable(calls, profile.default, profile.entries.as_slice())
}

fn are_writable(calls: CallTable, default: Decision, entries: &[Entry]) -> bool
    ensures { result ≡ list_all (is_writable_entry calls default) entries.now }
{
    entries
        .iter()
        .all(|entry| is_writable_entry(calls, default, entry))
}

/// Each number has a name, and one that is stricter than the default has a number.
fn is_writable_entry(calls: CallTable, default: Decision, entry: &Entry) -> bool
    ensures { result ≡ is_writable_entry calls default entry.now }
{
    let numbers = entry.numbers.as_slice();
    are_named(calls, numbers) && (!numbers.is_empty() || default.rank() <= entry.decision.rank())
}

fn are_named(calls: CallTable, numbers: &[u32]) -> bool
    ensures { result ≡ are_named calls numbers.now }
{
    numbers.iter().all(|number| is_named(calls, *number))
}

fn is_named(calls: CallTable, number: u32) -> bool
    ensures { result ≡ is_named calls number }
{
    calls.name(number).is_some()
}

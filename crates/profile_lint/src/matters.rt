ghost use Rattle.std.specs.Prelude.{◌≡◌, IfOk, map};
ghost use Rattle.serde_json.specs.View.{view};
ghost use Rattle.profile_lint.specs.Matters.{is_newer, matters, passed_in, returns_default};
ghost use Rattle.profile_lint.specs.Passed.{told};

use crate::passed::Passed;
use crate::text::all_passed_in;
use absent_names::{AbsentName, kind_of};
use oci_profile::Profile;
use serde_json::Value;
use std::alloc::{AllocError, Global};
use sys_table::CallTable;

/// The parts of a profile's tree that decide nothing if these are the known calls, in order of the entries.
/// The name of a newer call is left out if the call gets what its entry returns.
pub fn passed_in<'v>(
    alloc: Global,
    calls: CallTable,
    profile: &Profile,
    tree: &'v Value,
) -> Result<Vec<Passed<'v>>, AllocError>
    ensures { IfOk result (λ v. map told v.items ≡ passed_in calls profile.now (view tree.now)) }
{
    let mut found = all_passed_in(alloc, calls, tree)?;
    found.retain(|one| matters(profile, one));
    Ok(found)
}

/// Whether the finding matters for what the profile returns.
fn matters(profile: &Profile, passed: &Passed<'_>) -> bool
    ensures { result ≡ matters profile.now (told passed.now) }
{
    match passed {
        Passed::UnknownName(entry, _, name) => {
            !(is_newer(kind_of(name)) && returns_default(profile, *entry))
        }
        _ => true,
    }
}

fn is_newer(name: AbsentName) -> bool
    ensures { result ≡ is_newer name }
{
    matches!(name, AbsentName::Newer(_))
}

/// Whether the entry at this place returns what the profile returns where no entry decides.
fn returns_default(profile: &Profile, place: usize) -> bool
    ensures { result ≡ returns_default profile.now place }
{
    match profile.entries.as_slice().get(place) {
        Some(entry) => entry.decision.value() == profile.default.value(),
        None => false,
    }
}

ghost use Rattle.std.specs.Prelude.{◌≡◌, ◌++◌, [], ◌∷◌, IfOk};
ghost use Rattle.oci_profile.specs.Entries.{AreEntries};
ghost use Rattle.profile_lint.specs.Entries.{turned, turned_entry, with_entries};
ghost use Rattle.profile_lint.specs.Sameness.{near, shares};

use oci_profile::{Conds, Decision, Entries, Entry, Numbers, Profile};
use std::alloc::{AllocError, Global};

/// A copy of the entry.
pub(crate) fn copy(alloc: Global, entry: &Entry) -> Result<Entry, AllocError>
    ensures { IfOk result (λ e. e ≡ entry.now) }
{
    deciding(alloc, entry, entry.decision)
}

/// The entry with another decision.
pub(crate) fn turned(alloc: Global, entry: &Entry) -> Result<Entry, AllocError>
    ensures { IfOk result (λ e. e ≡ turned_entry entry.now) }
{
    deciding(alloc, entry, other_than(entry.decision))
}

fn other_than(decision: Decision) -> Decision
    ensures { result ≡ turned decision }
{
    match decision {
        Decision::Allow => Decision::KillProcess,
        _ => Decision::Allow,
    }
}

fn deciding(alloc: Global, entry: &Entry, decision: Decision) -> Result<Entry, AllocError>
    ensures { IfOk result (λ e. e ≡ record {
      numbers = entry.now.numbers;
      decision = decision;
      conds = entry.now.conds;
    }) }
{
    let numbers = Vec::from_slice(alloc, entry.numbers.as_slice())?;
    let conds = Vec::from_slice(alloc, entry.conds.as_slice())?;
    Ok(Entry {
        numbers: Numbers::new(numbers),
        decision,
        conds: Conds::new(conds),
    })
}

/// Adds copies of the others that share a call with the entry.
pub(crate) fn add_near(
    alloc: Global,
    list: &mut Vec<Entry>,
    entry: &Entry,
    others: &[Entry],
) -> Result<(), AllocError>
    ensures { IfOk result (λ _. list.new.items ≡ list.old.items ++ near entry.now others.now) }
{
    for other in others {
        if shares(entry, other) {
            list.push(copy(alloc, other)?)?;
        }
    }
    Ok(())
}

/// Whether the other entry names a call that this one names.
#[tactic(auto, unfolding(crate::specs::Sameness::shares))]
pub(crate) fn shares(entry: &Entry, other: &Entry) -> bool
    ensures { result ≡ shares entry.now other.now }
{
    entry
        .numbers
        .as_slice()
        .iter()
        .any(|number| other.names(*number))
}

/// The profile with other entries.
pub(crate) fn with_entries(profile: &Profile, entries: Vec<Entry>) -> Profile
    requires { AreEntries entries.items }
    ensures { result ≡ with_entries profile.now entries.items }
{
    Profile {
        default: profile.default,
        entries: Entries::new(entries),
    }
}

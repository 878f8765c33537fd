//! Advice about names that an earlier entry decides.
ghost use Rattle.std.specs.Prelude.{◌≡◌, ◌≤◌, ◌++◌, IfOk, filter_map, length, take};
ghost use Rattle.std.specs.List.{list_all};
ghost use Rattle.profile_advice.specs.Names.{about_names, bare_place, is_bare, is_shadowed, shadow_at, shadow_of};

use crate::conditions::add;
use crate::kind::Advice;
use oci_profile::Entry;
use std::alloc::{AllocError, Global};

/// Whether the entry decides each call with the number that no earlier entry decides.
fn is_bare(number: u32, entry: &Entry) -> bool
    ensures { result ≡ is_bare number entry.now }
{
    entry.names(number) && entry.conds.as_slice().is_empty()
}

/// The place of the first such entry.
fn bare_place(entries: &[Entry], number: u32) -> Option<usize>
    ensures { result ≡ bare_place entries.now number }
{
    entries.iter().position(|entry| is_bare(number, entry))
}

fn shadow_of(place: usize, entry: &Entry, number: u32, at: usize, earlier: &Entry) -> Advice
    ensures { result ≡ shadow_of place entry.now number at earlier.now }
{
    if earlier.decision.value() == entry.decision.value() {
        Advice::RepeatedName(place, number, at)
    } else {
        Advice::ShadowedName(place, number, at)
    }
}

/// The advice about a name of the entry at this place.
#[tactic(auto, unfolding(crate::specs::Names::shadow_at))]
fn shadow_at(entries: &[Entry], place: usize, entry: &Entry, number: u32) -> Option<Advice>
    requires { place ≤ length entries.now }
    ensures { result ≡ shadow_at entries.now place entry.now number }
{
    let at = bare_place(&entries[..place], number)?;
    let earlier = entries.get(at)?;
    Some(shadow_of(place, entry, number, at, earlier))
}

fn are_shadowed(entries: &[Entry], place: usize, numbers: &[u32]) -> bool
    requires { place ≤ length entries.now }
    ensures { result ≡ list_all (is_shadowed entries.now place) numbers.now }
{
    let earlier = &entries[..place];
    numbers
        .iter()
        .all(|number| bare_place(earlier, *number).is_some())
}

fn add_names(
    found: &mut Vec<Advice>,
    entries: &[Entry],
    place: usize,
    entry: &Entry,
) -> Result<(), AllocError>
    requires { place ≤ length entries.now }
    ensures { IfOk result (λ _. found.new.items
        ≡ found.old.items ++ filter_map (shadow_at entries.now place entry.now) entry.now.numbers) }
{
    for number in entry.numbers.as_slice() {
        add(found, shadow_at(entries, place, entry, *number))?;
    }
    Ok(())
}

/// The advice about the names of the entry at this place.
pub(crate) fn about_names(
    alloc: Global,
    entries: &[Entry],
    place: usize,
    entry: &Entry,
) -> Result<Vec<Advice>, AllocError>
    requires { place ≤ length entries.now }
    ensures { IfOk result (λ v. v.items ≡ about_names entries.now place entry.now) }
{
    let mut found = Vec::new(alloc);
    if !are_shadowed(entries, place, entry.numbers.as_slice()) {
        add_names(&mut found, entries, place, entry)?;
    }
    Ok(found)
}

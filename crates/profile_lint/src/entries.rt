ghost use Rattle.std.specs.Prelude.{◌≡◌, ◌++◌, IfOk, IfSome, slice_get, Some};
ghost use Rattle.profile_lint.specs.Entries.{DifferOn, Stands, in_place, without};
ghost use Rattle.profile_lint.specs.Sameness.{IsAround, Says, middle_of};

use crate::copies::{add_near, copy, shares, turned, with_entries};
use crate::sameness::{Sameness, compared};
use crate::stands::Standing;
use crate::witness::likely_needed;
use call_data::{SysCall, fields_fit};
use oci_profile::{Entry, Profile};
use std::alloc::{AllocError, Global};

/// How many entries that share a call are compared at most.
const MAX_NEAR: usize = 12;

/// What replaces an entry in a comparison.
#[derive(Clone, Copy, Debug, PartialEq, Eq)]
pub(crate) enum Middle {
    /// The entry itself.
    Kept,
    /// The entry with another decision.
    Turned,
    /// Nothing.
    LeftOut,
}

/// Whether the entry at this place is needed.
pub fn standing(alloc: Global, profile: &Profile, place: usize) -> Result<Standing, AllocError>
    ensures { IfOk result (λ s. Stands profile.now place s) }
{
    match profile.entries.as_slice().get(place) {
        Some(entry) => standing_of(alloc, profile, place, entry),
        None => Ok(Standing::Unknown),
    }
}

fn standing_of(
    alloc: Global,
    profile: &Profile,
    place: usize,
    entry: &Entry,
) -> Result<Standing, AllocError>
    requires { slice_get profile.now.entries place ≡ Some entry.now }
    ensures { IfOk result (λ s. Stands profile.now place s) }
{
    if entry.numbers.as_slice().is_empty() {
        return Ok(Standing::NeverDecides);
    }
    if let Some(call) = needed_on(alloc, profile, place, entry)? {
        return Ok(Standing::Needed(call));
    }
    if has_many_near(profile.entries.as_slice(), entry) {
        return Ok(Standing::Unknown);
    }
    if let Sameness::Same = compared_with(alloc, profile, place, entry, Middle::Turned)? {
        return Ok(Standing::NeverDecides);
    }
    match compared_with(alloc, profile, place, entry, Middle::LeftOut)? {
        Sameness::Same => Ok(Standing::Redundant),
        Sameness::Differ(call) => Ok(Standing::Needed(call)),
        Sameness::Unknown => Ok(Standing::Unknown),
    }
}

/// A likely candidate call, if it shows that the entry is needed.
fn needed_on(
    alloc: Global,
    profile: &Profile,
    place: usize,
    entry: &Entry,
) -> Result<Option<SysCall>, AllocError>
    requires { slice_get profile.now.entries place ≡ Some entry.now }
    ensures { IfOk result (λ found. IfSome found (DifferOn profile.now (without profile.now place))) }
{
    match likely_needed(profile, place, entry) {
        Some(call) => differ_on(alloc, profile, place, entry, call),
        None => Ok(None),
    }
}

/// The call, if the profile decides it differently without the entry.
fn differ_on(
    alloc: Global,
    profile: &Profile,
    place: usize,
    entry: &Entry,
    call: SysCall,
) -> Result<Option<SysCall>, AllocError>
    requires { slice_get profile.now.entries place ≡ Some entry.now }
    ensures { IfOk result (λ found. IfSome found (DifferOn profile.now (without profile.now place))) }
{
    fields_fit(call);
    let kept = around(alloc, profile, place, entry, Middle::Kept)?;
    let left_out = around(alloc, profile, place, entry, Middle::LeftOut)?;
    if kept.value_on(&call) != left_out.value_on(&call) {
        Ok(Some(call))
    } else {
        Ok(None)
    }
}

/// How the profile compares with the one that has this in place of the entry.
fn compared_with(
    alloc: Global,
    profile: &Profile,
    place: usize,
    entry: &Entry,
    middle: Middle,
) -> Result<Sameness, AllocError>
    requires { slice_get profile.now.entries place ≡ Some entry.now }
    ensures { IfOk result (λ s.
        Says s profile.now (in_place profile.now place (middle_of entry.now middle))) }
{
    let kept = around(alloc, profile, place, entry, Middle::Kept)?;
    let other = around(alloc, profile, place, entry, middle)?;
    compared(alloc, &kept, &other)
}

/// Whether too many entries share a call with this one to be compared.
pub(crate) fn has_many_near(entries: &[Entry], entry: &Entry) -> bool {
    let mut left = MAX_NEAR;
    for other in entries {
        if shares(entry, other) {
            match left.checked_sub(1) {
                Some(fewer) => left = fewer,
                None => return true,
            }
        }
    }
    false
}

/// The profile with only the entries that share a call with the one at this place, and with this in its
/// place.
fn around(
    alloc: Global,
    profile: &Profile,
    place: usize,
    entry: &Entry,
    middle: Middle,
) -> Result<Profile, AllocError>
    requires { slice_get profile.now.entries place ≡ Some entry.now }
    ensures { IfOk result (IsAround profile.now place entry.now middle) }
{
    let entries = profile.entries.as_slice();
    let mut list = Vec::new(alloc);
    add_near(alloc, &mut list, entry, &entries[..place])?;
    add_middle(alloc, &mut list, entry, middle)?;
    add_near(alloc, &mut list, entry, &entries[place + 1..])?;
    Ok(with_entries(profile, list))
}

pub(crate) fn add_middle(
    alloc: Global,
    list: &mut Vec<Entry>,
    entry: &Entry,
    middle: Middle,
) -> Result<(), AllocError>
    ensures { IfOk result (λ _. list.new.items ≡ list.old.items ++ middle_of entry.now middle) }
{
    match middle {
        Middle::Kept => list.push(copy(alloc, entry)?)?,
        Middle::Turned => list.push(turned(alloc, entry)?)?,
        Middle::LeftOut => {}
    }
    Ok(())
}

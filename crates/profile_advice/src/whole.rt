//! All advice about a profile.
ghost use Rattle.std.specs.Prelude.{◌≡◌, ◌≤◌, IfOk, flat_map, length, option_map};
ghost use Rattle.std.specs.List.{enumerate_from};
ghost use Rattle.profile_advice.specs.Advice.{about_entry, advice_of, is_unknown, odd_errno};
ghost use Rattle.profile_advice.specs.declared.kind.Advice.TheVariants.{UnknownDefaultErrno, UnknownErrno};

use crate::calls::about_calls;
use crate::conditions::{about_conds, add};
use crate::kind::Advice;
use crate::names::about_names;
use oci_profile::{Decision, Entry, Profile};
use std::alloc::{AllocError, Global};

/// The advice about a profile: about its entries in order, then about its default and about calls.
#[tactic(auto, unfolding(crate::specs::Advice::advice_of))]
pub fn advice(alloc: Global, profile: &Profile) -> Result<Vec<Advice>, AllocError>
    ensures { IfOk result (λ v. v.items ≡ advice_of profile.now) }
{
    let mut found = about_entries(alloc, profile)?;
    add(&mut found, default_errno(profile))?;
    let calls = about_calls(alloc, profile)?;
    found.extend_from_slice(calls.as_slice())?;
    Ok(found)
}

/// Whether Linux has no errno with this number.
fn is_unknown(code: u16) -> bool
    ensures { result ≡ is_unknown code }
{
    code > 133 || code == 41 || code == 58
}

/// The errno of the decision, if Linux does not have it.
fn odd_errno(decision: Decision) -> Option<u16>
    ensures { result ≡ odd_errno decision }
{
    match decision {
        Decision::Errno(errno) if is_unknown(errno.code()) => Some(errno.code()),
        _ => None,
    }
}

fn default_errno(profile: &Profile) -> Option<Advice>
    ensures { result ≡ option_map (λ code. UnknownDefaultErrno code) (odd_errno profile.now.default) }
{
    Some(Advice::UnknownDefaultErrno(odd_errno(profile.default)?))
}

fn entry_errno(place: usize, entry: &Entry) -> Option<Advice>
    ensures { result ≡ option_map (λ code. UnknownErrno place code) (odd_errno entry.now.decision) }
{
    Some(Advice::UnknownErrno(place, odd_errno(entry.decision)?))
}

fn about_entries(alloc: Global, profile: &Profile) -> Result<Vec<Advice>, AllocError>
    ensures { IfOk result (λ v. v.items
        ≡ flat_map (about_entry profile.now) (enumerate_from 0 profile.now.entries)) }
{
    let mut found = Vec::new(alloc);
    for (place, entry) in profile.entries.as_slice().iter().enumerate() {
        let more = about_entry(alloc, profile, place, entry)?;
        found.extend_from_slice(more.as_slice())?;
    }
    Ok(found)
}

fn about_entry(
    alloc: Global,
    profile: &Profile,
    place: usize,
    entry: &Entry,
) -> Result<Vec<Advice>, AllocError>
    requires { place ≤ length profile.now.entries }
    ensures { IfOk result (λ v. v.items ≡ about_entry profile.now (place, entry.now)) }
{
    let mut found = Vec::new(alloc);
    add(&mut found, entry_errno(place, entry))?;
    let names = about_names(alloc, profile.entries.as_slice(), place, entry)?;
    found.extend_from_slice(names.as_slice())?;
    let conds = about_conds(alloc, profile, place, entry)?;
    found.extend_from_slice(conds.as_slice())?;
    Ok(found)
}

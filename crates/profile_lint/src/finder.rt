ghost use Rattle.std.specs.Prelude.{◌≡◌, ℕ, All, ◌++◌, IfOk, IfSome, false, map, option_map, option_to_list, slice_get, Some};
ghost use Rattle.oci_profile.specs.declared.profile.Profile.{Profile};
ghost use Rattle.profile_lint.specs.Engines.{as_engines_read, kept_of};
ghost use Rattle.profile_lint.specs.Entries.{Stands, with_entries};
ghost use Rattle.profile_lint.specs.Findings.{AreAll, AreWhole, HasNeed, HasOverlap, HasReading, IsReported, IsSo, is_uncompared};
ghost use Rattle.profile_lint.specs.Findings.{newer_of, once_from};
ghost use Rattle.profile_lint.specs.Readings.{OverlapsAs, Reads};
ghost use Rattle.profile_lint.specs.declared.engines.Kind.TheVariants.{Bare};
ghost use Rattle.profile_lint.specs.declared.engines.Overlapping.TheVariants as of_overlap;
ghost use Rattle.profile_lint.specs.declared.engines.Reading.TheVariants as of_reading;
ghost use Rattle.profile_lint.specs.declared.finding.Finding.TheVariants.{Advised, NewerCalls, NotCompared};

use crate::engines::{Overlapping, Reading, as_engines_read, bare_of, compare_reading, overlap};
use crate::entries::standing;
use crate::finding::Finding;
use crate::stands::Standing;
use action::ENOSYS;
use oci_profile::{Decision, Entry, Profile};
use profile_advice::{Advice, advice};
use std::alloc::{AllocError, Global};

/// The greatest number of names in all entries together for which entries are compared: a profile with more
/// is too long to be compiled.
const MAX_NAMES: usize = 511;

/// The findings about a profile: about its entries in order, then about its default.
#[tactic(auto, using(crate::proofs::Reports::so_more, crate::proofs::Reports::newer_so, crate::proofs::Reports::newer_all))]
pub fn findings(alloc: Global, profile: &Profile) -> Result<Vec<Finding>, AllocError>
    // Each finding is true.
    ensures so { IfOk result (λ v. All (IsSo profile.now) v.items) }

    // What is not reported is not so.
    ensures all { IfOk result (λ v. AreAll profile.now v.items) }
{
    let mut found = about_entries_or_none(alloc, profile)?;
    add(&mut found, newer_at(newer_calls(profile)))?;
    Ok(found)
}

/// The findings about a profile, and then the advice about it.
pub fn all_findings(alloc: Global, profile: &Profile) -> Result<Vec<Finding>, AllocError>
    ensures { IfOk result (λ v. AreWhole profile.now v.items) }
{
    let mut found = findings(alloc, profile)?;
    let advice = advice(alloc, profile)?;
    add_advice(&mut found, advice.as_slice())?;
    Ok(found)
}

fn add_advice(found: &mut Vec<Finding>, advice: &[Advice]) -> Result<(), AllocError>
    ensures { IfOk result (λ _. found.new.items
        ≡ found.old.items ++ map (λ one. Advised one) advice.now) }
{
    for one in advice {
        found.push(Finding::Advised(*one))?;
    }
    Ok(())
}

/// The finding about calls above the table's last number, if there is one.
fn newer_at(errno: Option<u16>) -> Option<Finding>
    ensures { result ≡ option_map (λ code. NewerCalls code) errno }
{
    Some(Finding::NewerCalls(errno?))
}

fn about_entries_or_none(alloc: Global, profile: &Profile) -> Result<Vec<Finding>, AllocError>
    ensures so { IfOk result (λ v. All (IsSo profile.now) v.items) }
    ensures all { IfOk result (λ v. (place : ℕ) → IsReported profile.now v.items place) }
{
    if has_many_names(profile.entries.as_slice()) {
        let mut found = Vec::new(alloc);
        found.push(Finding::NotLookedAt(0))?;
        Ok(found)
    } else {
        about_entries(alloc, profile)
    }
}

/// The errno of calls above the table's last number, unless it is ENOSYS, on which programs fall back to
/// older calls.
pub fn newer_calls(profile: &Profile) -> Option<u16>
    ensures { result ≡ newer_of profile.now.default }
{
    match profile.default {
        Decision::Errno(errno) if errno.code() != ENOSYS => Some(errno.code()),
        _ => None,
    }
}

fn has_many_names(entries: &[Entry]) -> bool {
    let mut left = MAX_NAMES;
    for entry in entries {
        match left.checked_sub(entry.numbers.as_slice().len()) {
            Some(fewer) => left = fewer,
            None => return true,
        }
    }
    false
}

#[tactic(auto, using(crate::proofs::Reports::reported_next, crate::proofs::Reports::reported_all))]
fn about_entries(alloc: Global, profile: &Profile) -> Result<Vec<Finding>, AllocError>
    ensures so { IfOk result (λ v. All (IsSo profile.now) v.items) }
    ensures all { IfOk result (λ v. (place : ℕ) → IsReported profile.now v.items place) }
{
    let engines = as_engines_read(alloc, profile)?;
    let bare = bare_of(alloc, profile)?;
    let mut found = Vec::new(alloc);
    for place in 0..profile.entries.as_slice().len() {
        let here = about_place(alloc, profile, &engines, &bare, place)?;
        found.extend_from_slice(here.as_slice())?;
    }
    Ok(found)
}

/// The findings about the entry at this place.
#[tactic(auto, using(crate::proofs::Reports::past_reported))]
fn about_place(
    alloc: Global,
    profile: &Profile,
    engines: &Profile,
    bare: &Profile,
    place: usize,
) -> Result<Vec<Finding>, AllocError>
    requires read { engines.now ≡ as_engines_read profile.now }
    requires bare { bare.now ≡ with_entries profile.now (kept_of Bare profile.now) }
    ensures so { IfOk result (λ v. All (IsSo profile.now) v.items) }
    ensures all { IfOk result (λ v. IsReported profile.now v.items place) }
{
    match profile.entries.as_slice().get(place) {
        Some(entry) => about_entry(alloc, profile, engines, bare, place, entry),
        None => Ok(Vec::new(alloc)),
    }
}

#[tactic(auto, using(crate::proofs::Reports::so_more, crate::proofs::Reports::all_reported))]
fn about_entry(
    alloc: Global,
    profile: &Profile,
    engines: &Profile,
    bare: &Profile,
    place: usize,
    entry: &Entry,
) -> Result<Vec<Finding>, AllocError>
    requires read { engines.now ≡ as_engines_read profile.now }
    requires bare { bare.now ≡ with_entries profile.now (kept_of Bare profile.now) }
    requires at { slice_get profile.now.entries place ≡ Some entry.now }
    ensures so { IfOk result (λ v. All (IsSo profile.now) v.items) }
    ensures all { IfOk result (λ v. IsReported profile.now v.items place) }
{
    let mut found = Vec::new(alloc);
    add(&mut found, need_at(place, standing(alloc, profile, place)?))?;
    let others = about_engines(alloc, profile, engines, bare, place, entry)?;
    found.extend_from_slice(others.as_slice())?;
    Ok(found)
}

/// Adds the finding, if there is one.
fn add(found: &mut Vec<Finding>, one: Option<Finding>) -> Result<(), AllocError>
    ensures { IfOk result (λ _. found.new.items ≡ found.old.items ++ option_to_list one) }
{
    if let Some(one) = one {
        found.push(one)?;
    }
    Ok(())
}

/// The finding about the need for the entry at this place, if there is one.
fn need_at(place: usize, standing: Standing) -> Option<Finding>
    ensures so { (profile : Profile) → Stands profile place standing → IfSome result (IsSo profile) }
    ensures all { (profile : Profile) → Stands profile place standing
        → HasNeed profile (option_to_list result) place }
{
    match standing {
        Standing::Needed(_) => None,
        Standing::NeverDecides => Some(Finding::NeverDecides(place)),
        Standing::Redundant => Some(Finding::Redundant(place)),
        Standing::Unknown => Some(Finding::NotFoundOut(place)),
    }
}

/// The findings about how engines read this entry, alone and beside later ones. If it is not known how they
/// read it alone, that is the only one.
#[tactic(auto, using(crate::proofs::Reports::so_more, crate::proofs::Reports::reading_left, crate::proofs::Reports::overlap_right, crate::proofs::Reports::uncompared))]
fn about_engines(
    alloc: Global,
    profile: &Profile,
    engines: &Profile,
    bare: &Profile,
    place: usize,
    entry: &Entry,
) -> Result<Vec<Finding>, AllocError>
    requires read { engines.now ≡ as_engines_read profile.now }
    requires bare { bare.now ≡ with_entries profile.now (kept_of Bare profile.now) }
    requires at { slice_get profile.now.entries place ≡ Some entry.now }
    ensures so { IfOk result (λ v. All (IsSo profile.now) v.items) }
    ensures reading { IfOk result (λ v. HasReading profile.now v.items place) }
    ensures overlaps { IfOk result (λ v. (second : ℕ) → HasOverlap profile.now v.items place second) }
{
    let mut found = Vec::new(alloc);
    let reading = compare_reading(alloc, profile, engines, place, entry)?;
    add(&mut found, reading_at(place, reading))?;
    if let Reading::Unknown = reading {
        return Ok(found);
    }
    let others = overlaps(alloc, profile, bare, place, entry)?;
    found.extend_from_slice(others.as_slice())?;
    Ok(found)
}

/// The finding about how engines read the entry at this place, if there is one.
fn reading_at(place: usize, reading: Reading) -> Option<Finding>
    ensures so { (profile : Profile) → Reads reading profile place → IfSome result (IsSo profile) }
    ensures all { (profile : Profile) → Reads reading profile place
        → HasReading profile (option_to_list result) place }
    ensures unknown { reading ≡ of_reading.Unknown → result ≡ Some (NotCompared place) }
{
    match reading {
        Reading::Differs(call, values) => Some(Finding::EnginesDiffer(place, call, values)),
        Reading::Same => None,
        Reading::Unknown => Some(Finding::NotCompared(place)),
    }
}

/// The overlaps of this entry with later ones. If one is not known, it is the last finding.
#[tactic(auto, using(crate::proofs::Near::fit_at, crate::proofs::Reports::so_more, crate::proofs::Reports::apart_start, crate::proofs::Reports::apart_more, crate::proofs::Reports::apart_all, crate::proofs::Reports::uncompared))]
fn overlaps(
    alloc: Global,
    profile: &Profile,
    bare: &Profile,
    place: usize,
    entry: &Entry,
) -> Result<Vec<Finding>, AllocError>
    requires bare { bare.now ≡ with_entries profile.now (kept_of Bare profile.now) }
    requires at { slice_get profile.now.entries place ≡ Some entry.now }
    ensures so { IfOk result (λ v. All (IsSo profile.now) v.items) }
    ensures all { IfOk result (λ v. (second : ℕ) → HasOverlap profile.now v.items place second) }
{
    let mut found = Vec::new(alloc);
    let entries = profile.entries.as_slice();
    for second in place + 1..entries.len() {
        let other = &entries[second];
        let overlapping = overlap(alloc, profile, bare, place, entry, second, other)?;
        add(&mut found, overlap_at(place, second, overlapping))?;
        if let Overlapping::Unknown = overlapping {
            return Ok(found);
        }
    }
    Ok(found)
}

/// The finding about the overlap of the entries at both places, if there is one.
fn overlap_at(place: usize, second: usize, overlapping: Overlapping) -> Option<Finding>
    ensures so { (profile : Profile) → OverlapsAs overlapping profile place second
        → IfSome result (IsSo profile) }
    ensures all { (profile : Profile) → OverlapsAs overlapping profile place second
        → HasOverlap profile (option_to_list result) place second }
    ensures unknown { overlapping ≡ of_overlap.Unknown → result ≡ Some (NotCompared place) }
{
    match overlapping {
        Overlapping::On(call) => Some(Finding::Overlap(place, second, call)),
        Overlapping::Never => None,
        Overlapping::Unknown => Some(Finding::NotCompared(place)),
    }
}

/// The findings as they are printed. After the first finding that entries were not compared, others of this
/// kind are left out.
pub fn once(alloc: Global, found: &[Finding]) -> Result<Vec<Finding>, AllocError>
    ensures { IfOk result (λ v. v.items ≡ once_from false found.now) }
{
    let mut kept = Vec::new(alloc);
    let mut is_said = false;
    for one in found {
        let is_uncompared = is_uncompared(one);
        if !(is_said && is_uncompared) {
            kept.push(*one)?;
        }
        is_said = is_said || is_uncompared;
    }
    Ok(kept)
}

fn is_uncompared(one: &Finding) -> bool
    ensures { result ≡ is_uncompared one.now }
{
    matches!(one, Finding::NotCompared(_))
}

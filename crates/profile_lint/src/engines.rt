//! Where engines read a profile differently: `specs/Engines.antt` defines how they read it.
ghost use Rattle.std.specs.Prelude.{◌≡◌, ◌<◌, ◌++◌, [], ◌∷◌, IfOk, IsTrue, false, filter, find, option_copied, slice_get, Some};
ghost use Rattle.std.specs.List.{list_any};
ghost use Rattle.explain.specs.Explained.{IsJudged, applies};
ghost use Rattle.oci_profile.specs.Entries.{IsFit};
ghost use Rattle.profile_lint.specs.Engines.{IsApart, ReadsAlike, as_engines_read, is_kept, is_kept_of, is_of, is_taken};
ghost use Rattle.profile_lint.specs.Engines.{is_taken_instead, kept_of, value_instead};
ghost use Rattle.profile_lint.specs.Entries.{before, with_entries};
ghost use Rattle.profile_lint.specs.Readings.{AreAsked, OverlapsAs, OverlapsOn, Reads, in_queue};
ghost use Rattle.profile_lint.specs.Sameness.{Says, middle_of, near};
ghost use Rattle.profile_lint.specs.declared.engines.Kind.TheVariants.{Bare};

use crate::copies::{add_near, copy, shares, with_entries};
use crate::entries::{Middle, add_middle, has_many_near};
use crate::finding::EngineValues;
use crate::sameness::{Sameness, compared};
use crate::witness::likely_call;
use call_data::{NATIVE_ARCH, SysCall, fields_fit};
use explain::{Decider, applies, explain};
use oci_profile::{Entry, Profile, X32_BIT};
use std::alloc::{AllocError, Global};

/// Whether an entry has conditions.
#[derive(Clone, Copy, Debug, PartialEq, Eq)]
pub(crate) enum Kind {
    /// It has none.
    Bare,
    /// It has some.
    Asking,
}

/// How engines read an entry.
#[derive(Clone, Copy, Debug, PartialEq, Eq)]
pub(crate) enum Reading {
    /// The entry decides the call, and engines have another value for it.
    Differs(SysCall, EngineValues),
    /// Engines have the profile's value for each call that the entry decides.
    Same,
    /// No answer was found.
    Unknown,
}

/// Whether two entries with conditions overlap.
#[derive(Clone, Copy, Debug, PartialEq, Eq)]
pub(crate) enum Overlapping {
    /// On this call.
    On(SysCall),
    /// On no call.
    Never,
    /// No answer was found.
    Unknown,
}

/// The profile as engines read it.
pub(crate) fn as_engines_read(alloc: Global, profile: &Profile) -> Result<Profile, AllocError>
    ensures { IfOk result (λ p. p ≡ as_engines_read profile.now) }
{
    let mut list = Vec::new(alloc);
    let entries = profile.entries.as_slice();
    add_kept(alloc, &mut list, profile, entries, Kind::Bare)?;
    add_kept(alloc, &mut list, profile, entries, Kind::Asking)?;
    Ok(with_entries(profile, list))
}

/// The profile with only the entries without conditions that engines have.
pub(crate) fn bare_of(alloc: Global, profile: &Profile) -> Result<Profile, AllocError>
    ensures { IfOk result (λ p. p ≡ with_entries profile.now (kept_of Bare profile.now)) }
{
    let mut list = Vec::new(alloc);
    add_kept(
        alloc,
        &mut list,
        profile,
        profile.entries.as_slice(),
        Kind::Bare,
    )?;
    Ok(with_entries(profile, list))
}

fn add_kept(
    alloc: Global,
    list: &mut Vec<Entry>,
    profile: &Profile,
    entries: &[Entry],
    kind: Kind,
) -> Result<(), AllocError>
    ensures { IfOk result (λ _. list.new.items
        ≡ list.old.items ++ filter (is_kept_of kind profile.now) entries.now) }
{
    for entry in entries {
        if is_kept_of(kind, profile, entry) {
            list.push(copy(alloc, entry)?)?;
        }
    }
    Ok(())
}

/// Whether engines have the entry, and it is of this kind.
fn is_kept_of(kind: Kind, profile: &Profile, entry: &Entry) -> bool
    ensures { result ≡ is_kept_of kind profile.now entry.now }
{
    is_kept(profile, entry) && is_of(kind, entry)
}

fn is_kept(profile: &Profile, entry: &Entry) -> bool
    ensures { result ≡ is_kept profile.now entry.now }
{
    entry.decision.value() != profile.default.value()
}

fn is_of(kind: Kind, entry: &Entry) -> bool
    ensures { result ≡ is_of kind entry.now }
{
    match kind {
        Kind::Bare => entry.conds.as_slice().is_empty(),
        Kind::Asking => !entry.conds.as_slice().is_empty(),
    }
}

/// How engines read the entry at this place.
pub(crate) fn compare_reading(
    alloc: Global,
    profile: &Profile,
    engines: &Profile,
    place: usize,
    entry: &Entry,
) -> Result<Reading, AllocError>
    requires read { engines.now ≡ as_engines_read profile.now }
    requires at { slice_get profile.now.entries place ≡ Some entry.now }
    ensures { IfOk result (λ r. Reads r profile.now place) }
{
    if is_read_alike(profile, place, entry) {
        return Ok(Reading::Same);
    }
    for number in entry.numbers.as_slice() {
        let call = likely_call(entry, *number);
        let found = judged(alloc, profile, engines, place, call)?;
        if let Reading::Differs(_, _) = found {
            return Ok(found);
        }
    }
    if has_many_near(profile.entries.as_slice(), entry) {
        return Ok(Reading::Unknown);
    }
    match decided_otherwise(alloc, profile, engines, place, entry)? {
        Sameness::Same => Ok(Reading::Same),
        Sameness::Differ(call) => judged(alloc, profile, engines, place, call),
        Sameness::Unknown => Ok(Reading::Unknown),
    }
}

/// An entry without conditions that is not left out decides the same calls for engines, and one without names
/// decides none.
#[tactic(auto, using(crate::proofs::Alike::bare_alike, crate::proofs::Alike::unnamed_alike))]
fn is_read_alike(profile: &Profile, place: usize, entry: &Entry) -> bool
    requires { slice_get profile.now.entries place ≡ Some entry.now }
    ensures { IsTrue result → ReadsAlike profile.now place }
{
    if is_kept_of(Kind::Bare, profile, entry) {
        return true;
    }
    entry.numbers.as_slice().is_empty()
}

/// How the entries before this one, the entry, and those that engines have compare with the same entries
/// without it: a call that they decide differently is likely one that engines read differently.
fn decided_otherwise(
    alloc: Global,
    profile: &Profile,
    engines: &Profile,
    place: usize,
    entry: &Entry,
) -> Result<Sameness, AllocError>
    requires { slice_get profile.now.entries place ≡ Some entry.now }
    ensures { IfOk result (λ s. Says s
        (in_queue profile.now engines.now place entry.now (entry.now ∷ []))
        (in_queue profile.now engines.now place entry.now [])) }
{
    let with = queue(alloc, profile, engines, place, entry, Middle::Kept)?;
    let without = queue(alloc, profile, engines, place, entry, Middle::LeftOut)?;
    compared(alloc, &with, &without)
}

/// The entries before this one, what replaces it, and the entries that engines have: of each list only those
/// that share a call with the entry.
fn queue(
    alloc: Global,
    profile: &Profile,
    engines: &Profile,
    place: usize,
    entry: &Entry,
    middle: Middle,
) -> Result<Profile, AllocError>
    requires { slice_get profile.now.entries place ≡ Some entry.now }
    ensures { IfOk result (λ p.
        p ≡ in_queue profile.now engines.now place entry.now (middle_of entry.now middle)) }
{
    let mut list = Vec::new(alloc);
    let entries = profile.entries.as_slice();
    add_near(alloc, &mut list, entry, &entries[..place])?;
    add_middle(alloc, &mut list, entry, middle)?;
    add_near(alloc, &mut list, entry, engines.entries.as_slice())?;
    Ok(with_entries(profile, list))
}

/// The values of profile and engines for the call, if the entry at this place decides it and they differ.
fn judged(
    alloc: Global,
    profile: &Profile,
    engines: &Profile,
    place: usize,
    call: SysCall,
) -> Result<Reading, AllocError>
    requires { engines.now ≡ as_engines_read profile.now }
    ensures { IfOk result (λ r. Reads r profile.now place) }
{
    let here = profile.value_on(&call);
    let there = engines.value_on(&call);
    let explanation = explain(alloc, profile, &call)?;
    match explanation.decider {
        Decider::Entry(found) if found == place && here != there => {
            let instead = value_instead(profile, &call, there);
            Ok(Reading::Differs(
                call,
                EngineValues {
                    here,
                    there,
                    instead,
                },
            ))
        }
        _ => Ok(Reading::Unknown),
    }
}

/// What engines may return for the call instead of this value: libseccomp keeps no order between entries with
/// conditions.
fn value_instead(profile: &Profile, call: &SysCall, value: u32) -> Option<u32>
    ensures { result ≡ value_instead profile.now call.now value }
{
    if has_taken(Kind::Bare, profile, call) {
        return None;
    }
    match taken_instead(profile, call, value) {
        Some(entry) => Some(entry.decision.value()),
        None => None,
    }
}

/// Whether an entry of this kind that engines have applies to the call.
fn has_taken(kind: Kind, profile: &Profile, call: &SysCall) -> bool
    ensures { result ≡ list_any (is_taken kind profile.now call.now) profile.now.entries }
{
    profile
        .entries
        .as_slice()
        .iter()
        .any(|entry| is_taken(kind, profile, call, entry))
}

/// The first entry with conditions that applies to the call, and decides it with another value.
fn taken_instead<'a>(profile: &'a Profile, call: &SysCall, value: u32) -> Option<&'a Entry>
    ensures { option_copied result ≡ find (is_taken_instead profile.now call.now value) profile.now.entries }
{
    profile.entries.as_slice().iter().find(|entry| {
        is_taken(Kind::Asking, profile, call, entry) && entry.decision.value() != value
    })
}

/// Whether engines have the entry, it is of this kind, and it applies to the call.
fn is_taken(kind: Kind, profile: &Profile, call: &SysCall, entry: &Entry) -> bool
    ensures { result ≡ is_taken kind profile.now call.now entry.now }
{
    is_kept_of(kind, profile, entry) && applies(entry, call)
}

/// Whether the entries at both places overlap.
pub(crate) fn overlap(
    alloc: Global,
    profile: &Profile,
    bare: &Profile,
    place: usize,
    one: &Entry,
    second: usize,
    two: &Entry,
) -> Result<Overlapping, AllocError>
    requires bare { bare.now ≡ with_entries profile.now (kept_of Bare profile.now) }
    requires one_fit { IsFit one.now }
    requires two_fit { IsFit two.now }
    requires one_at { slice_get profile.now.entries place ≡ Some one.now }
    requires two_at { slice_get profile.now.entries second ≡ Some two.now }
    requires ordered { place < second }
    ensures { IfOk result (λ o. OverlapsAs o profile.now place second) }
{
    if are_apart(profile, place, one, second, two) {
        return Ok(Overlapping::Never);
    }
    if has_many_near(profile.entries.as_slice(), one) {
        return Ok(Overlapping::Unknown);
    }
    let first = pair(alloc, bare, one, one, two)?;
    let turned = pair(alloc, bare, one, two, one)?;
    match compared(alloc, &first, &turned)? {
        Sameness::Same => Ok(Overlapping::Never),
        Sameness::Differ(call) => Ok(overlap_on(bare, one, two, call)),
        Sameness::Unknown => Ok(Overlapping::Unknown),
    }
}

/// Whether engines lack one of the entries, one has no conditions, or both share no call or have one value.
#[tactic(auto, using(crate::proofs::Alike::unkept_apart, crate::proofs::Alike::unshared_apart, crate::proofs::Alike::equal_apart))]
fn are_apart(profile: &Profile, place: usize, one: &Entry, second: usize, two: &Entry) -> bool
    requires one_at { slice_get profile.now.entries place ≡ Some one.now }
    requires two_at { slice_get profile.now.entries second ≡ Some two.now }
    ensures apart { IsTrue result → IsApart profile.now place second }
    ensures asks { result ≡ false → AreAsked profile.now one.now two.now }
{
    let asks = is_kept_of(Kind::Asking, profile, one) && is_kept_of(Kind::Asking, profile, two);
    if !asks {
        return true;
    }
    if !shares(one, two) {
        return true;
    }
    one.decision.value() == two.decision.value()
}

/// The call, if both entries apply to it and no entry without conditions decides it.
fn overlap_on(bare: &Profile, one: &Entry, two: &Entry, call: SysCall) -> Overlapping
    ensures { OverlapsOn result bare.now one.now two.now }
{
    let is_native = call.arch == NATIVE_ARCH && call.nr < X32_BIT;
    if is_native && applies(one, &call) && applies(two, &call) && !is_settled(bare, &call) {
        Overlapping::On(call)
    } else {
        Overlapping::Unknown
    }
}

/// The entries without conditions that share a call with the entry, and then these two.
fn pair(
    alloc: Global,
    bare: &Profile,
    entry: &Entry,
    one: &Entry,
    two: &Entry,
) -> Result<Profile, AllocError>
    requires one_fit { IsFit one.now }
    requires two_fit { IsFit two.now }
    ensures { IfOk result (λ p. p ≡ with_entries bare.now
        (near entry.now bare.now.entries ++ (one.now ∷ two.now ∷ []))) }
{
    let mut list = Vec::new(alloc);
    add_near(alloc, &mut list, entry, bare.entries.as_slice())?;
    list.push(copy(alloc, one)?)?;
    list.push(copy(alloc, two)?)?;
    Ok(with_entries(bare, list))
}

/// Whether an entry of the profile applies to the call.
fn is_settled(bare: &Profile, call: &SysCall) -> bool
    ensures { result ≡ list_any (applies call.now) bare.now.entries }
{
    bare.entries
        .as_slice()
        .iter()
        .any(|entry| applies(entry, call))
}

ghost use Rattle.std.specs.Prelude.{◌≡◌, IfNone, IfOk, IfSome, filter_map};
ghost use Rattle.std.specs.List.{enumerate_from};
ghost use Rattle.oci_profile.specs.Decision.{value_of};
ghost use Rattle.oci_profile.specs.Meaning.{meaning};
ghost use Rattle.explain.specs.Explained.{AppliesFirst, Decides, IsWithin, NoneApplies, before, passed_over};
ghost use Rattle.explain.specs.Explained.{told};

use crate::conditions::{applies, first_failing};
use crate::explanation::{Decider, Explanation, PassedOver};
use call_data::{NATIVE_ARCH, SysCall};
use oci_profile::{Decision, Entry, Profile, X32_BIT};
use std::alloc::{AllocError, Global};

/// Explains the profile's decision on the call.
pub fn explain(alloc: Global, profile: &Profile, call: &SysCall) -> Result<Explanation, AllocError>
    // Another architecture, the bit of x32, the first entry that applies, or the default.
    ensures decides { IfOk result (λ e. Decides profile.now call.now e.decider e.decision) }

    // The decision is the profile's meaning, so its filter returns it.
    ensures means { IfOk result (λ e. value_of e.decision ≡ meaning profile.now call.now) }

    // Each earlier entry that names the number is listed, with its first condition that fails.
    ensures passed { IfOk result (λ e. e.passed.items ≡ passed_over profile.now call.now e.decider) }
{
    let (decider, decision) = decided(profile, call);
    let passed = passed_over(alloc, before(profile.entries.as_slice(), decider), call)?;
    Ok(Explanation {
        decision,
        decider,
        passed,
    })
}

/// What decides the call, and the decision.
#[tactic(auto, unfolding(oci_profile::specs::Meaning::meaning, oci_profile::specs::Meaning::chosen), using(crate::proofs::Firsts::first_means, crate::proofs::Firsts::none_means, crate::proofs::Firsts::within))]
fn decided(profile: &Profile, call: &SysCall) -> (Decider, Decision)
    ensures decides { Decides profile.now call.now result.0 result.1 }
    ensures means { value_of result.1 ≡ meaning profile.now call.now }
    ensures within { IsWithin profile.now.entries result.0 }
{
    if call.arch != NATIVE_ARCH {
        return (Decider::Architecture, Decision::KillProcess);
    }
    if call.nr >= X32_BIT {
        return (Decider::X32Bit, Decision::KillProcess);
    }
    match first(profile.entries.as_slice(), call) {
        Some((place, decision)) => (Decider::Entry(place), decision),
        None => (Decider::Default, profile.default),
    }
}

/// The place of the first entry that applies, and its decision.
fn first(entries: &[Entry], call: &SysCall) -> Option<(usize, Decision)>
    ensures first { IfSome result (λ found. AppliesFirst entries.now call.now found.0 found.1) }
    ensures none { IfNone result (NoneApplies entries.now call.now) }
{
    for (place, entry) in entries.iter().enumerate() {
        if applies(entry, call) {
            return Some((place, entry.decision));
        }
    }
    None
}

/// The entries before the one that decides.
fn before(entries: &[Entry], decider: Decider) -> &[Entry]
    requires { IsWithin entries.now decider }
    ensures { result.now ≡ before entries.now decider }
{
    match decider {
        Decider::Architecture | Decider::X32Bit => &entries[..0],
        Decider::Entry(place) => &entries[..place],
        Decider::Default => entries,
    }
}

/// Those of these entries that name the number, each with its first condition that fails.
fn passed_over(
    alloc: Global,
    entries: &[Entry],
    call: &SysCall,
) -> Result<Vec<PassedOver>, AllocError>
    ensures { IfOk result (λ v. v.items ≡ filter_map (told call.now) (enumerate_from 0 entries.now)) }
{
    let mut passed = Vec::new(alloc);
    for (place, entry) in entries.iter().enumerate() {
        if let Some(entry) = told(place, entry, call) {
            passed.push(entry)?;
        }
    }
    Ok(passed)
}

/// The line for the entry at this place, if it names the number.
fn told(place: usize, entry: &Entry, call: &SysCall) -> Option<PassedOver>
    ensures { result ≡ told call.now (place, entry.now) }
{
    if !entry.names(call.nr) {
        return None;
    }
    let cond = first_failing(entry, call)?;
    Some(PassedOver {
        place,
        cond,
        argument: call.args[cond.index as usize],
    })
}

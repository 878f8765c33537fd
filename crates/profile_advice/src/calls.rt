//! Advice about calls that undo what a profile is for.
ghost use Rattle.std.specs.Prelude.{◌≡◌, ◌++◌, [], IfOk, filter_map, if◌then◌else◌};
ghost use Rattle.profile_advice.specs.Calls.{about_calls, bypass_at, is_bypassed, power_at};
ghost use Rattle.profile_advice.specs.Judged.{allows_by_default, denies_by_default};
ghost use Rattle.profile_advice.specs.declared.table.TheConstants.{POWERFUL, WAYS};

use crate::conditions::add;
use crate::judged::{allows_by_default, denies_by_default, is_allowed, is_denied, plain_call};
use crate::kind::Advice;
use crate::table::{NAMESPACE_WAYS, OtherWay, POWERFUL, WAYS};
use oci_profile::Profile;
use std::alloc::{AllocError, Global};

fn is_bypassed(profile: &Profile, way: &OtherWay) -> bool
    ensures { result ≡ is_bypassed profile.now way.now }
{
    is_denied(profile, &plain_call(way.call, 0))
        && is_allowed(profile, &plain_call(way.other, way.first))
}

/// The advice about a call that is denied while another one, which can do the same, is allowed.
fn bypass_at(profile: &Profile, way: &OtherWay) -> Option<Advice>
    ensures { result ≡ bypass_at profile.now way.now }
{
    if is_bypassed(profile, way) {
        let other = plain_call(way.other, way.first);
        Some(Advice::Bypass(way.call, other))
    } else {
        None
    }
}

/// The advice about a powerful call that is allowed.
fn power_at(profile: &Profile, number: u32) -> Option<Advice>
    ensures { result ≡ power_at profile.now number }
{
    if is_allowed(profile, &plain_call(number, 0)) {
        Some(Advice::Powerful(number))
    } else {
        None
    }
}

fn add_ways(found: &mut Vec<Advice>, profile: &Profile, ways: &[OtherWay]) -> Result<(), AllocError>
    ensures { IfOk result (λ _. found.new.items
        ≡ found.old.items ++ filter_map (bypass_at profile.now) ways.now) }
{
    for way in ways {
        add(found, bypass_at(profile, way))?;
    }
    Ok(())
}

fn add_powers(found: &mut Vec<Advice>, profile: &Profile, numbers: &[u32]) -> Result<(), AllocError>
    ensures { IfOk result (λ _. found.new.items
        ≡ found.old.items ++ filter_map (power_at profile.now) numbers.now) }
{
    for number in numbers {
        add(found, power_at(profile, *number))?;
    }
    Ok(())
}

/// Adds the other ways, in a profile that allows most calls.
fn add_ways_if_open(found: &mut Vec<Advice>, profile: &Profile) -> Result<(), AllocError>
    ensures { IfOk result (λ _. found.new.items ≡ found.old.items
        ++ (if allows_by_default profile.now then filter_map (bypass_at profile.now) WAYS else [])) }
{
    if allows_by_default(profile) {
        add_ways(found, profile, &WAYS)?;
    }
    Ok(())
}

/// Adds the powerful calls, in a profile that denies most calls.
fn add_powers_if_closed(found: &mut Vec<Advice>, profile: &Profile) -> Result<(), AllocError>
    ensures { IfOk result (λ _. found.new.items ≡ found.old.items
        ++ (if denies_by_default profile.now then filter_map (power_at profile.now) POWERFUL else [])) }
{
    if denies_by_default(profile) {
        add_powers(found, profile, &POWERFUL)?;
    }
    Ok(())
}

/// The advice about calls.
pub(crate) fn about_calls(alloc: Global, profile: &Profile) -> Result<Vec<Advice>, AllocError>
    ensures { IfOk result (λ v. v.items ≡ about_calls profile.now) }
{
    let mut found = Vec::new(alloc);
    add_ways_if_open(&mut found, profile)?;
    add_ways(&mut found, profile, &NAMESPACE_WAYS)?;
    add_powers_if_closed(&mut found, profile)?;
    Ok(found)
}

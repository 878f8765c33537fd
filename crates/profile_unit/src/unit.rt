ghost use Rattle.std.specs.Prelude.{◌≡◌, ℕ, ◌<◌, ◌==◌, Some, Err, IfOk, false, find, not};
ghost use Rattle.std.specs.Option.{option_copied};
ghost use Rattle.std.specs.Prelude.{position};
ghost use Rattle.call_data.specs.declared.sys_call.SysCall.{SysCall};
ghost use Rattle.sys_table.specs.declared.table.TheConstants.{TABLE_LIMIT};
ghost use Rattle.oci_profile.specs.Decision.{value_of};
ghost use Rattle.oci_profile.specs.Meaning.{meaning, names};
ghost use Rattle.profile_unit.specs.Units.{Fits, IsUpTo, decision_in, denies, first_named};
ghost use Rattle.profile_unit.specs.Units.{has_conditions, is_default, is_listed, unlisted};

use crate::faults::UnitFault;
use oci_profile::{Decision, Entry, Profile};
use std::alloc::{AllocError, Global};
use sys_table::TABLE_LIMIT;

/// A call of the list, by its number, and its decision.
#[derive(Clone, Copy, Debug, PartialEq, Eq)]
pub struct NamedCall {
    /// A number of the table.
    pub nr: u32,
    pub decision: Decision,
}

/// A unit's filter of calls.
#[derive(Drop)]
pub struct Unit {
    /// The decision on calls that are not listed. ALLOW makes the list one of denied calls.
    pub rest: Decision,
    /// The listed calls, by number.
    pub calls: Vec<NamedCall>,
}

/// The unit's filter that decides each call as the profile does.
#[tactic(auto, using(crate::proofs::Listed::all_listed, crate::proofs::Listed::is_unlisted, crate::proofs::Means::means, crate::proofs::Means::all_by_default))]
pub fn unit_of(alloc: Global, profile: &Profile) -> Result<Unit, UnitFault>
    // 0xc000003e is AUDIT_ARCH_X86_64 of linux/audit.h, 0x40000000 the bit of x32 of asm/unistd.h.
    ensures means { IfOk result (λ unit. (call : SysCall) → call.arch ≡ 0xc000003e → call.nr < 0x40000000
        → meaning profile.now call ≡ value_of (decision_in unit.calls.items unit.rest call.nr)) }
    ensures fits { IfOk result (λ unit. Fits unit.rest unit.calls.items) }
    ensures condition { (place : ℕ) → result ≡ Err (UnitFault.Condition place)
        → position has_conditions profile.now.entries ≡ Some place }
    ensures default_action { result ≡ Err UnitFault.DefaultAction → is_default profile.now.default ≡ false }
    ensures call_action { (nr : ℕ) → result ≡ Err (UnitFault.CallAction nr)
        → is_listed profile.now.default (first_named profile.now.entries profile.now.default nr) ≡ false }
    ensures no_calls { result ≡ Err UnitFault.NoCalls
        → (nr : ℕ) → value_of (first_named profile.now.entries profile.now.default nr) ≡ value_of profile.now.default }
{
    let entries = profile.entries.as_slice();
    if let Some(place) = condition_at(entries) {
        return Err(UnitFault::Condition(place));
    }
    if !is_default(&profile.default) {
        return Err(UnitFault::DefaultAction);
    }
    let calls = named_calls(alloc, entries, &profile.default)?;
    if calls.is_empty() {
        return Err(UnitFault::NoCalls);
    }
    if let Some(nr) = unlisted(&profile.default, calls.as_slice()) {
        return Err(UnitFault::CallAction(nr));
    }
    Ok(Unit {
        rest: profile.default,
        calls,
    })
}

/// The place of the first entry with conditions.
fn condition_at(entries: &[Entry]) -> Option<usize>
    ensures { result ≡ position has_conditions entries.now }
{
    entries.iter().position(has_conditions)
}

fn has_conditions(entry: &Entry) -> bool
    ensures { result ≡ has_conditions entry.now }
{
    !entry.conds.as_slice().is_empty()
}

/// Whether a unit can have this decision on the calls that are not listed.
fn is_default(decision: &Decision) -> bool
    ensures { result ≡ is_default decision.now }
{
    matches!(*decision, Decision::Allow) || denies(decision)
}

fn denies(decision: &Decision) -> bool
    ensures { result ≡ denies decision.now }
{
    match *decision {
        Decision::KillProcess => true,
        Decision::Errno(errno) => errno.code() > 0,
        _ => false,
    }
}

/// Whether a list can have a call with this decision.
fn is_listed(rest: &Decision, decision: &Decision) -> bool
    ensures { result ≡ is_listed rest.now decision.now }
{
    match *rest {
        Decision::Allow => denies(decision),
        _ => matches!(*decision, Decision::Allow),
    }
}

/// The calls that the default does not decide.
#[tactic(auto, using(crate::proofs::Listed::none, crate::proofs::Listed::pushed, crate::proofs::Listed::left))]
fn named_calls(
    alloc: Global,
    entries: &[Entry],
    default: &Decision,
) -> Result<Vec<NamedCall>, AllocError>
    ensures { IfOk result (λ v. IsUpTo entries.now default.now TABLE_LIMIT v.items) }
{
    let mut calls = Vec::new(alloc);
    for nr in 0..TABLE_LIMIT as u32 {
        let decision = first_named(entries, default, nr);
        let call = NamedCall { nr, decision };
        if differs(&call.decision, default) {
            calls.push(call)?;
        }
    }
    Ok(calls)
}

fn differs(one: &Decision, other: &Decision) -> bool
    ensures { result ≡ not (value_of one.now == value_of other.now) }
{
    one.value() != other.value()
}

/// The decision of the first entry that names the call.
fn first_named(entries: &[Entry], default: &Decision, nr: u32) -> Decision
    ensures { result ≡ first_named entries.now default.now nr }
{
    match naming(entries, nr) {
        Some(entry) => entry.decision,
        None => *default,
    }
}

/// The first entry that names the call.
fn naming(entries: &[Entry], nr: u32) -> Option<&Entry>
    ensures { option_copied result ≡ find (λ entry. names entry nr) entries.now }
{
    entries.iter().find(|entry| entry.names(nr))
}

/// The first call that the list can't have.
fn unlisted(rest: &Decision, calls: &[NamedCall]) -> Option<u32>
    ensures { result ≡ unlisted rest.now calls.now }
{
    match calls.iter().find(|call| !is_listed(rest, &call.decision)) {
        Some(call) => Some(call.nr),
        None => None,
    }
}

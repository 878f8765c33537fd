//! What of a profile may have denied a call. The call's arguments are in no record and in no audit.
ghost use Rattle.std.specs.Prelude.{◌≡◌, IfOk};
ghost use Rattle.denied_calls.specs.Deciding.{deciders, gives, of_entries, one_if, rank_in};

use action::Verdict;
use call_data::NATIVE_ARCH;
use explain::Decider;
use oci_profile::{Decision, Entry, Profile, X32_BIT};
use std::alloc::{AllocError, Global};

/// What is known of the value that a filter returned.
#[derive(Clone, Copy, Debug, PartialEq, Eq)]
pub enum Returned {
    /// This value.
    Value(u32),
    /// A value with the action of this one.
    ActionOf(u32),
}

/// A call that a filter denied, without its arguments.
#[derive(Clone, Copy, Debug, PartialEq, Eq)]
pub struct DeniedCall {
    /// The number of the call in the table of its architecture.
    pub nr: u32,
    /// The architecture, an `AUDIT_ARCH_` value of `linux/audit.h`.
    pub arch: u32,
    pub returned: Returned,
}

/// The entries of the profile that name the call with this verdict, or else its default, the architecture or
/// the bit of x32, if that has this verdict. None if another filter denied the call.
pub fn deciders(
    alloc: Global,
    profile: &Profile,
    call: &DeniedCall,
) -> Result<Vec<Decider>, AllocError>
    ensures { IfOk result (λ v. v.items ≡ deciders profile.now call.now) }
{
    if call.arch != NATIVE_ARCH {
        let is_killed = gives(Decision::KillProcess, call.returned);
        return one_if(alloc, is_killed, Decider::Architecture);
    }
    if call.nr >= X32_BIT {
        let is_killed = gives(Decision::KillProcess, call.returned);
        return one_if(alloc, is_killed, Decider::X32Bit);
    }
    let entries = of_entries(alloc, profile.entries.as_slice(), call)?;
    if entries.is_empty() {
        let is_default = gives(profile.default, call.returned);
        return one_if(alloc, is_default, Decider::Default);
    }
    Ok(entries)
}

fn one_if(alloc: Global, holds: bool, decider: Decider) -> Result<Vec<Decider>, AllocError>
    ensures { IfOk result (λ v. v.items ≡ one_if holds decider) }
{
    let mut found = Vec::new(alloc);
    if holds {
        found.push(decider)?;
    }
    Ok(found)
}

/// Whether a filter that decides so returns this.
fn gives(decision: Decision, returned: Returned) -> bool
    ensures { result ≡ gives decision returned }
{
    let value = decision.value();
    match returned {
        Returned::Value(given) => value == given,
        Returned::ActionOf(given) => rank_in(value) == rank_in(given),
    }
}

/// The place of a value's action in the order of strictness, which no other action has.
fn rank_in(value: u32) -> u8
    ensures { result ≡ rank_in value }
{
    Verdict::of_value(value).rank()
}

fn of_entries(
    alloc: Global,
    entries: &[Entry],
    call: &DeniedCall,
) -> Result<Vec<Decider>, AllocError>
    ensures { IfOk result (λ v. v.items ≡ of_entries call.now 0 entries.now) }
{
    let mut found = Vec::new(alloc);
    for (place, entry) in entries.iter().enumerate() {
        if entry.names(call.nr) && gives(entry.decision, call.returned) {
            found.push(Decider::Entry(place))?;
        }
    }
    Ok(found)
}

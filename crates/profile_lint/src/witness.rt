use call_data::{NATIVE_ARCH, SysCall};
use explain::applies;
use oci_profile::{Cond, Entry, Op, Profile};

// Calls to try before anything is compared. They are not guaranteed: the caller checks the profile's decision
// on them.

/// One of the entry's calls, with arguments that it is likely to apply to, if what follows the entry decides
/// it differently.
pub(crate) fn likely_needed(profile: &Profile, place: usize, entry: &Entry) -> Option<SysCall> {
    for number in entry.numbers.as_slice() {
        let call = likely_call(entry, *number);
        if is_decided_alone(profile, place, &call) {
            return Some(call);
        }
    }
    None
}

/// A call with this number to which the entry is likely to apply.
pub(crate) fn likely_call(entry: &Entry, nr: u32) -> SysCall {
    let mut args = [0; 6];
    for cond in entry.conds.as_slice() {
        if let Some(argument) = args.get_mut(cond.index as usize) {
            *argument = likely_argument(cond);
        }
    }
    SysCall {
        nr,
        arch: NATIVE_ARCH,
        ip: 0,
        args,
    }
}

fn likely_argument(cond: &Cond) -> u64 {
    match cond.op {
        Op::Equal | Op::LessOrEqual | Op::GreaterOrEqual => cond.value,
        Op::NotEqual => !cond.value,
        Op::Less => cond.value.saturating_sub(1),
        Op::Greater => cond.value.saturating_add(1),
        Op::MaskedEqual => cond.value_two,
    }
}

/// Whether the entry at this place is the first that applies to the call, and what follows decides it
/// differently.
fn is_decided_alone(profile: &Profile, place: usize, call: &SysCall) -> bool {
    let mut decided = None;
    for (at, entry) in profile.entries.as_slice().iter().enumerate() {
        if applies(entry, call) {
            let value = entry.decision.value();
            match decided {
                None if at == place => decided = Some(value),
                None => return false,
                Some(first) => return first != value,
            }
        }
    }
    match decided {
        Some(first) => first != profile.default.value(),
        None => false,
    }
}

ghost use Rattle.std.specs.Prelude.{◌≡◌, ◌≤◌, ◌+◌, List, Some, ℕ, is_some, true};
ghost use Rattle.std.specs.Option.{option_copied};
ghost use Rattle.sys_table.specs.SysTable.{limit_of, number_in};
ghost use Rattle.sys_table.specs.declared.calls.CallTable.{CallTable};
ghost use Rattle.absent_names.specs.Near.{first_from, is_like, is_within_one, is_within_two, suggestion};

use sys_table::{CallTable, names_and_numbers_agree};

/// Whether at most one byte has to be left out, added or replaced to make the one of the other.
fn is_within_one(name: &[u8], call: &[u8]) -> bool
    ensures { result ≡ is_within_one name.now call.now }
{
    let Some((a, rest)) = name.split_first() else {
        return call.len() <= 1;
    };
    let Some((b, others)) = call.split_first() else {
        return name.len() <= 1;
    };
    if *a == *b {
        is_within_one(rest, others)
    } else {
        rest == others || rest == call || name == others
    }
}

/// Whether at most two bytes have to be left out, added or replaced to make the one of the other.
fn is_within_two(name: &[u8], call: &[u8]) -> bool
    ensures { result ≡ is_within_two name.now call.now }
{
    let Some((a, rest)) = name.split_first() else {
        return call.len() <= 2;
    };
    let Some((b, others)) = call.split_first() else {
        return name.len() <= 2;
    };
    if *a == *b {
        is_within_two(rest, others)
    } else {
        is_within_one(rest, others) || is_within_one(rest, call) || is_within_one(name, others)
    }
}

/// Whether the name may be meant to be this call, by one byte or by two.
fn is_like(once: bool, name: &[u8], call: &[u8]) -> bool
    ensures { result ≡ is_like once name.now call.now }
{
    if once {
        name.len() >= 3 && is_within_one(name, call)
    } else {
        name.len() >= 5 && is_within_two(name, call)
    }
}

/// The first of these calls that is like the name, among so many numbers from this one on.
fn first_from(
    calls: CallTable,
    once: bool,
    name: &str,
    number: u32,
    count: u32,
) -> Option<&'static str>
    requires { number + count ≤ limit_of calls }
    ensures { option_copied result ≡ first_from calls once name.now number count }
{
    if count == 0 {
        return None;
    }
    match calls.name(number) {
        Some(call) if is_like(once, name.as_bytes(), call.as_bytes()) => Some(call),
        _ => first_from(calls, once, name, number + 1, count - 1),
    }
}

/// The one of these calls that the name was probably meant to be.
#[tactic(auto, unfolding(crate::specs::Near::suggestion))]
pub fn suggestion(calls: CallTable, name: &str) -> Option<&'static str>
    ensures { option_copied result ≡ suggestion calls name.now }
{
    match first_from(calls, true, name, 0, calls.limit()) {
        Some(call) => Some(call),
        None => first_from(calls, false, name, 0, calls.limit()),
    }
}

/// A suggested name is that of one of the calls.
pub fn suggestions_are_calls()
    ensures { (calls : CallTable) (name call : List ℕ) → suggestion calls name ≡ Some call
        → is_some (number_in calls call) ≡ true }
{
    names_and_numbers_agree();
}

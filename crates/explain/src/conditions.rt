ghost use Rattle.std.specs.Prelude.{◌≡◌, ◌<◌, IfSome};
ghost use Rattle.oci_profile.specs.Meaning.{all_hold, compares, holds_on};
ghost use Rattle.explain.specs.Explained.{applies, first_failing};

use call_data::SysCall;
use oci_profile::{Cond, Entry, Op};

/// Whether the entry names the call's number and all its conditions hold.
pub fn applies(entry: &Entry, call: &SysCall) -> bool
    ensures { result ≡ applies call.now entry.now }
{
    entry.names(call.nr) && is_met(entry, call)
}

#[tactic(auto, unfolding(oci_profile::specs::Meaning::all_hold))]
fn is_met(entry: &Entry, call: &SysCall) -> bool
    ensures { result ≡ all_hold entry.now call.now }
{
    entry.conds.as_slice().iter().all(|cond| holds(cond, call))
}

/// The first of the entry's conditions that fails, if one does.
pub(crate) fn first_failing(entry: &Entry, call: &SysCall) -> Option<Cond>
    ensures value { result ≡ first_failing call.now entry.now }
    ensures of_an_argument { IfSome result (λ cond. cond.index < 6) }
{
    for cond in entry.conds.as_slice() {
        if !holds(cond, call) {
            return Some(*cond);
        }
    }
    None
}

// Whether the condition holds for the call's argument.
fn holds(cond: &Cond, call: &SysCall) -> bool
    requires { cond.now.index < 6 }
    ensures { result ≡ holds_on cond.now call.now }
{
    is_so(cond, call.args[cond.index as usize])
}

fn is_so(cond: &Cond, argument: u64) -> bool
    ensures { result ≡ compares cond.now.op cond.now.value cond.now.value_two argument }
{
    match cond.op {
        Op::NotEqual => argument != cond.value,
        Op::Less => argument < cond.value,
        Op::LessOrEqual => argument <= cond.value,
        Op::Equal => argument == cond.value,
        Op::GreaterOrEqual => argument >= cond.value,
        Op::Greater => argument > cond.value,
        Op::MaskedEqual => argument & cond.value == cond.value_two,
    }
}

ghost use Rattle.std.specs.Prelude.{◌≡◌, IfOk, codes, map};
ghost use Rattle.std.specs.List.{AllByRecursion};
ghost use Rattle.serde_json.specs.Data.{array, no_members, put, string};
ghost use Rattle.serde_json.specs.View.{items_of, members_view, view};
ghost use Rattle.profile_text.specs.Fits.{FitsDecision, FitsEntry};
ghost use Rattle.profile_text.specs.Written.{action_name, cond_tree, entry_tree, entry_with, errno_of};
ghost use Rattle.profile_text.specs.Written.{name_text, names_of, op_name, profile_tree, two_of, with_whole};

use crate::object::Object;
use oci_profile::{Cond, Decision, Entry, Op, Profile};
use serde_json::Value;
use std::alloc::{AllocError, Global};
use sys_table::CallTable;

// The trees of a profile's parts. Each contract also states the limits that the part's types ensure.

#[tactic(auto, unfolding(crate::specs::Written::profile_tree))]
pub(crate) fn profile_tree(
    alloc: Global,
    calls: CallTable,
    profile: &Profile,
) -> Result<Value, AllocError>
    ensures tree { IfOk result (λ v. view v ≡ profile_tree calls profile.now) }
    ensures fit { IfOk result (λ _. AllByRecursion FitsEntry profile.now.entries) }
    ensures fit_default { IfOk result (λ _. FitsDecision profile.now.default) }
{
    let entries = entry_trees(alloc, calls, profile.entries.as_slice())?;
    Ok(head(alloc, profile.default, entries)?.done())
}

/// A profile with these entries.
pub(crate) fn head(
    alloc: Global,
    default: Decision,
    entries: Vec<Value>,
) -> Result<Object, AllocError>
    ensures members { IfOk result (λ o. members_view o.members.entries
        ≡ with_whole (codes "defaultErrnoRet") (errno_of default) (
        put (codes "defaultAction") (string (action_name default)) (
        put (codes "syscalls") (array (items_of (map view entries.items))) no_members))) }
    ensures fit { IfOk result (λ _. FitsDecision default) }
{
    Object::new(alloc)
        .with("syscalls", Value::Array(entries))?
        .text("defaultAction", action_name(default))?
        .may_be_whole("defaultErrnoRet", errno_of(default))
}

#[tactic(auto, using(crate::proofs::Loops::written_more, crate::proofs::Loops::fits_more))]
fn entry_trees(alloc: Global, calls: CallTable, entries: &[Entry]) -> Result<Vec<Value>, AllocError>
    ensures trees { IfOk result (λ vs. map view vs.items ≡ map (entry_tree calls) entries.now) }
    ensures fit { IfOk result (λ _. AllByRecursion FitsEntry entries.now) }
{
    let mut trees = Vec::new(alloc);
    for entry in entries {
        trees.push(entry_tree(alloc, calls, entry)?)?;
    }
    Ok(trees)
}

fn entry_tree(alloc: Global, calls: CallTable, entry: &Entry) -> Result<Value, AllocError>
    ensures tree { IfOk result (λ v. view v ≡ entry_tree calls entry.now) }
    ensures fit { IfOk result (λ _. FitsEntry entry.now) }
{
    let names = name_trees(alloc, calls, entry.numbers.as_slice())?;
    let conds = entry.conds.as_slice();
    let errno = errno_of(entry.decision);
    entry_with(alloc, names, action_name(entry.decision), errno, conds)
}

/// An entry with these names.
pub(crate) fn entry_with(
    alloc: Global,
    names: Vec<Value>,
    action: &'static str,
    errno: Option<u64>,
    conds: &[Cond],
) -> Result<Value, AllocError>
    ensures { IfOk result (λ v. view v ≡ entry_with (map view names.items) action.now errno conds.now) }
{
    let args = cond_trees(alloc, conds)?;
    let object = Object::new(alloc)
        .with("names", Value::Array(names))?
        .text("action", action)?
        .may_be_list("args", args)?
        .may_be_whole("errnoRet", errno)?;
    Ok(object.done())
}

/// The names of an entry that names some, else the empty name, which no call has.
fn name_trees(alloc: Global, calls: CallTable, numbers: &[u32]) -> Result<Vec<Value>, AllocError>
    ensures { IfOk result (λ vs. map view vs.items ≡ map string (names_of calls numbers.now)) }
{
    if numbers.is_empty() {
        let mut nameless = Vec::new(alloc);
        nameless.push(Value::try_from_str(alloc, "")?)?;
        return Ok(nameless);
    }
    each_name(alloc, calls, numbers)
}

#[tactic(auto, using(crate::proofs::Loops::named_more))]
fn each_name(alloc: Global, calls: CallTable, numbers: &[u32]) -> Result<Vec<Value>, AllocError>
    ensures { IfOk result (λ vs. map view vs.items ≡ map string (map (name_text calls) numbers.now)) }
{
    let mut trees = Vec::new(alloc);
    for number in numbers {
        trees.push(Value::try_from_str(alloc, name_text(calls, *number))?)?;
    }
    Ok(trees)
}

fn name_text(calls: CallTable, number: u32) -> &'static str
    ensures { result.now ≡ name_text calls number }
{
    match calls.name(number) {
        Some(name) => name,
        None => "",
    }
}

#[tactic(auto, using(crate::proofs::Loops::written_more))]
fn cond_trees(alloc: Global, conds: &[Cond]) -> Result<Vec<Value>, AllocError>
    ensures { IfOk result (λ vs. map view vs.items ≡ map cond_tree conds.now) }
{
    let mut trees = Vec::new(alloc);
    for cond in conds {
        trees.push(cond_tree(alloc, cond)?)?;
    }
    Ok(trees)
}

fn cond_tree(alloc: Global, cond: &Cond) -> Result<Value, AllocError>
    ensures { IfOk result (λ v. view v ≡ cond_tree cond.now) }
{
    let object = Object::new(alloc)
        .whole("index", u64::from(cond.index))?
        .whole("value", cond.value)?
        .text("op", op_name(cond.op))?
        .may_be_whole("valueTwo", two_of(cond.value_two))?;
    Ok(object.done())
}

/// `valueTwo`, which is 0 if it is left out.
fn two_of(value_two: u64) -> Option<u64>
    ensures { result ≡ two_of value_two }
{
    if value_two == 0 {
        None
    } else {
        Some(value_two)
    }
}

fn op_name(op: Op) -> &'static str
    ensures { result.now ≡ op_name op }
{
    match op {
        Op::NotEqual => "SCMP_CMP_NE",
        Op::Less => "SCMP_CMP_LT",
        Op::LessOrEqual => "SCMP_CMP_LE",
        Op::Equal => "SCMP_CMP_EQ",
        Op::GreaterOrEqual => "SCMP_CMP_GE",
        Op::Greater => "SCMP_CMP_GT",
        Op::MaskedEqual => "SCMP_CMP_MASKED_EQ",
    }
}

pub(crate) fn action_name(decision: Decision) -> &'static str
    ensures { result.now ≡ action_name decision }
{
    match decision {
        Decision::KillProcess => "SCMP_ACT_KILL_PROCESS",
        Decision::KillThread => "SCMP_ACT_KILL_THREAD",
        Decision::Trap => "SCMP_ACT_TRAP",
        Decision::Errno(_) => "SCMP_ACT_ERRNO",
        Decision::Trace(_) => "SCMP_ACT_TRACE",
        Decision::Allow => "SCMP_ACT_ALLOW",
        Decision::Log => "SCMP_ACT_LOG",
    }
}

/// The errno, or a tracer's message, that is written with the action.
pub(crate) fn errno_of(decision: Decision) -> Option<u64>
    ensures value { result ≡ errno_of decision }
    ensures fit { FitsDecision decision }
{
    match decision {
        Decision::Errno(errno) => Some(u64::from(errno.code())),
        Decision::Trace(message) => Some(u64::from(message)),
        _ => None,
    }
}

ghost use Rattle.std.specs.Prelude.{◌≡◌, [], IfOk, filter_map, map};
ghost use Rattle.serde_json.specs.View.{view};
ghost use Rattle.json_tree.specs.Reading.{Gives, as_read, in_order_after};
ghost use Rattle.denied_calls.specs.declared.faults.LineFault.{LineFault};
ghost use Rattle.denied_calls.specs.Reading.{action_named, call_of, denied_of, head_of, head_seen, line_of};
ghost use Rattle.denied_calls.specs.Reading.{is_plain, plain_text, seen, seen_of, verdict_of};

use crate::faults::LineFault;
use crate::sighting::Sighting;
use action::{Action, Verdict};
use call_data::NATIVE_ARCH;
use json_tree::{optional_word, required_list, required_text, required_whole, required_word};
use serde_json::Value;
use std::alloc::{AllocError, Global};

/// The denied calls of a line that is the record of a container (see `cell_records`). Calls that were
/// performed are left out, and members that no record has are ignored.
pub fn read_line(alloc: Global, line: &[u8]) -> Result<Vec<Sighting>, LineFault>
    ensures { Gives LineFault.Memory (λ v. map seen v.items) result (line_of line.now) }
{
    let tree = json_tree::read(alloc, line)?;
    let head = head_of(&tree)?;
    let calls = calls_of(alloc, head.calls)?;
    Ok(sightings_of(alloc, &head, calls.as_slice())?)
}

/// Whose record a line is, and its calls.
#[derive(Clone, Copy)]
struct Head<'v> {
    uid: &'v str,
    name: &'v str,
    attempt: u32,
    profile: &'v str,
    calls: &'v [Value],
}

/// A call in the list of a record.
#[derive(Clone, Copy)]
pub(crate) struct ListedCall {
    nr: u32,
    arch: u32,
    verdict: Verdict,
    count: usize,
    first: usize,
}

#[tactic(auto, unfolding(crate::specs::Reading::head_of))]
fn head_of(tree: &Value) -> Result<Head<'_>, LineFault>
    ensures { as_read head_seen result ≡ head_of (view tree.now) }
{
    let uid = plain_text(tree, "uid")?;
    let name = plain_text(tree, "name")?;
    let attempt = required_word(tree, "attempt")?;
    let profile = required_text(tree, "profile")?;
    let calls = required_list(tree, "calls")?;
    Ok(Head {
        uid,
        name,
        attempt,
        profile,
        calls,
    })
}

/// The text of a member that is printed in a table as it is.
#[tactic(auto, unfolding(crate::specs::Reading::plain_text))]
fn plain_text<'v>(tree: &'v Value, key: &str) -> Result<&'v str, LineFault>
    ensures { as_read (λ t. t.now) result ≡ plain_text key.now (view tree.now) }
{
    let text = required_text(tree, key)?;
    if is_plain(text.as_bytes()) {
        Ok(text)
    } else {
        Err(LineFault::BadName)
    }
}

fn is_plain(bytes: &[u8]) -> bool
    ensures { result ≡ is_plain bytes.now }
{
    bytes.iter().all(|byte| *byte > 0x20 && *byte < 0x7f)
}

#[tactic(auto, using(json_tree::proofs::After::after_more, json_tree::proofs::After::after_stops))]
fn calls_of(alloc: Global, items: &[Value]) -> Result<Vec<ListedCall>, LineFault>
    ensures { Gives LineFault.Memory (λ v. v.items) result
        (in_order_after (λ done item. call_of item) [] (map view items.now)) }
{
    let mut calls = Vec::new(alloc);
    for item in items {
        calls.push(call_of(item)?)?;
    }
    Ok(calls)
}

#[tactic(auto, unfolding(crate::specs::Reading::call_of))]
fn call_of(tree: &Value) -> Result<ListedCall, LineFault>
    ensures { result ≡ call_of (view tree.now) }
{
    let nr = required_word(tree, "nr")?;
    let arch = optional_word(tree, "arch")?.unwrap_or(NATIVE_ARCH);
    let verdict = verdict_of(tree)?;
    let count = required_whole(tree, "count")?;
    let first = required_whole(tree, "first")?;
    Ok(ListedCall {
        nr,
        arch,
        verdict,
        count: count as usize,
        first: first as usize,
    })
}

#[tactic(auto, unfolding(crate::specs::Reading::verdict_of))]
fn verdict_of(tree: &Value) -> Result<Verdict, LineFault>
    ensures { result ≡ verdict_of (view tree.now) }
{
    let name = required_text(tree, "action")?;
    let action = action_named(name).ok_or(LineFault::WrongType)?;
    let given = required_whole(tree, "data")?;
    let ret_data = u16::try_from(given).map_err(|_| LineFault::WrongType)?;
    Ok(Verdict { action, ret_data })
}

/// The action with this name of seccomp(2), without `SECCOMP_RET_`.
#[tactic(auto, unfolding(crate::specs::Reading::action_named))]
fn action_named(name: &str) -> Option<Action>
    ensures { result ≡ action_named name.now }
{
    match name {
        "KILL_PROCESS" => Some(Action::KillProcess),
        "KILL_THREAD" => Some(Action::KillThread),
        "TRAP" => Some(Action::Trap),
        "ERRNO" => Some(Action::Errno),
        "USER_NOTIF" => Some(Action::UserNotif),
        "TRACE" => Some(Action::Trace),
        "LOG" => Some(Action::Log),
        "ALLOW" => Some(Action::Allow),
        _ => None,
    }
}

/// Those of the calls that were denied, each with the container of the record.
fn sightings_of(
    alloc: Global,
    head: &Head<'_>,
    calls: &[ListedCall],
) -> Result<Vec<Sighting>, AllocError>
    ensures { IfOk result (λ v. map seen v.items ≡ filter_map (denied_of (head_seen head.now)) calls.now) }
{
    let mut sightings = Vec::new(alloc);
    for call in calls {
        if !call.verdict.performs() {
            sightings.push(sighting_of(alloc, head, *call)?)?;
        }
    }
    Ok(sightings)
}

fn sighting_of(alloc: Global, head: &Head<'_>, call: ListedCall) -> Result<Sighting, AllocError>
    ensures { IfOk result (λ s. seen s ≡ seen_of (head_seen head.now) call) }
{
    Ok(Sighting {
        uid: String::from_str(alloc, head.uid)?,
        name: String::from_str(alloc, head.name)?,
        nr: call.nr,
        arch: call.arch,
        value: call.verdict.value(),
        attempt: head.attempt,
        first: call.first,
        count: call.count,
        profile: String::from_str(alloc, head.profile)?,
    })
}

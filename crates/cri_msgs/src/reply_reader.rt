ghost use Rattle.std.specs.Prelude.{◌≡◌, ◌≤◌, IfOk, length, map};
ghost use Rattle.serde_json.specs.View.{view};
ghost use Rattle.json_tree.specs.declared.faults.FieldFault.{FieldFault};
ghost use Rattle.json_tree.specs.Reading.{Gives, as_read, in_order};
ghost use Rattle.cri_msgs.specs.declared.lists.TheConstants.{MAX_LISTED};
ghost use Rattle.cri_msgs.specs.Reading.{answer_of, few, kind_in, listed_of, listed_status_of, listing_in};
ghost use Rattle.cri_msgs.specs.Reading.{ok_in, ok_of, refused_in, reply_of, state_by, state_of, status_of};
ghost use Rattle.cri_msgs.specs.Reading.{statuses_by, statuses_in, with_exit, without_exit};

use crate::fields::{container, numbered};
use crate::lists::{ListedContainer, ListedStatus, Listing, MAX_LISTED, Statuses};
use crate::names::{kind_named, refusal_numbered};
use crate::replies::{Answer, Reply};
use crate::states::{ContainerState, State, Status};
use crate::version::Version;
use json_tree::{FieldFault, has, required_list, required_object, required_text, required_whole};
use serde_json::Value;
use std::alloc::Global;

// Reads replies from their trees.

#[tactic(auto, unfolding(crate::specs::Reading::reply_of))]
pub(crate) fn reply(alloc: Global, version: Version, tree: &Value) -> Result<Reply, FieldFault>
    ensures { Gives FieldFault.Memory (λ r. r) result (reply_of version (view tree.now)) }
{
    let id = numbered(version, tree)?;
    let answer = answer(alloc, version, tree)?;
    Ok(Reply { id, answer })
}

#[tactic(auto, unfolding(crate::specs::Reading::answer_of))]
fn answer(alloc: Global, version: Version, tree: &Value) -> Result<Answer, FieldFault>
    ensures { Gives FieldFault.Memory (λ a. a) result (answer_of version (view tree.now)) }
{
    if has(tree, "refused") {
        refused(tree)
    } else {
        ok_in(alloc, version, tree)
    }
}

#[tactic(auto, unfolding(crate::specs::Reading::refused_in))]
fn refused(tree: &Value) -> Result<Answer, FieldFault>
    ensures { result ≡ refused_in (view tree.now) }
{
    let number = required_whole(tree, "refused")?;
    Ok(Answer::Refused(refusal_numbered(number)?))
}

#[tactic(auto, unfolding(crate::specs::Reading::ok_in))]
fn ok_in(alloc: Global, version: Version, tree: &Value) -> Result<Answer, FieldFault>
    ensures { Gives FieldFault.Memory (λ a. a) result (ok_in version (view tree.now)) }
{
    let found = required_object(tree, "ok")?;
    ok(alloc, version, found)
}

// The first of these members decides what the answer is.
#[tactic(auto, unfolding(crate::specs::Reading::ok_of, crate::specs::Reading::id_in, crate::specs::Reading::status_in))]
fn ok(alloc: Global, version: Version, tree: &Value) -> Result<Answer, FieldFault>
    ensures { Gives FieldFault.Memory (λ a. a) result (ok_of version (view tree.now)) }
{
    if has(tree, "container") {
        Ok(Answer::Container(required_whole(tree, "container")?))
    } else if has(tree, "containers") {
        listing(alloc, tree)
    } else if has(tree, "state") {
        Ok(Answer::Status(status(tree)?))
    } else if has(tree, "statuses") {
        statuses_by(alloc, version, tree)
    } else {
        Ok(Answer::Done)
    }
}

fn statuses_by(alloc: Global, version: Version, tree: &Value) -> Result<Answer, FieldFault>
    ensures { Gives FieldFault.Memory (λ a. a) result (statuses_by version (view tree.now)) }
{
    match version {
        Version::V1 => Err(FieldFault::WrongType),
        Version::V2 => statuses(alloc, tree),
    }
}

#[tactic(auto, unfolding(crate::specs::Reading::few))]
fn few<'v>(tree: &'v Value, key: &str) -> Result<&'v [Value], FieldFault>
    ensures value { as_read (λ items. map view items.now) result ≡ few key.now (view tree.now) }
    ensures few { IfOk result (λ items. length items.now ≤ MAX_LISTED) }
{
    let items = required_list(tree, key)?;
    if items.len() > MAX_LISTED {
        return Err(FieldFault::WrongType);
    }
    Ok(items)
}

#[tactic(auto, unfolding(crate::specs::Reading::listing_in))]
fn listing(alloc: Global, tree: &Value) -> Result<Answer, FieldFault>
    ensures { Gives FieldFault.Memory (λ a. a) result (listing_in (view tree.now)) }
{
    let items = few(tree, "containers")?;
    let list = each_listed(alloc, items)?;
    Ok(Answer::List(Listing::new(list)))
}

#[tactic(auto, unfolding(crate::specs::Reading::statuses_in))]
fn statuses(alloc: Global, tree: &Value) -> Result<Answer, FieldFault>
    ensures { Gives FieldFault.Memory (λ a. a) result (statuses_in (view tree.now)) }
{
    let items = few(tree, "statuses")?;
    let list = each_status(alloc, items)?;
    Ok(Answer::Statuses(Statuses::new(list)))
}

#[tactic(auto, using(json_tree::proofs::Loops::in_order_more, json_tree::proofs::Loops::in_order_stops))]
fn each_listed(alloc: Global, items: &[Value]) -> Result<Vec<ListedContainer>, FieldFault>
    ensures value { Gives FieldFault.Memory (λ v. v.items) result (in_order listed_of (map view items.now)) }
    ensures as_many { IfOk result (λ v. length v.items ≡ length items.now) }
{
    let mut list = Vec::new(alloc);
    for item in items {
        list.push(listed(alloc, item)?)?;
    }
    Ok(list)
}

#[tactic(auto, using(json_tree::proofs::Loops::in_order_more, json_tree::proofs::Loops::in_order_stops))]
fn each_status(alloc: Global, items: &[Value]) -> Result<Vec<ListedStatus>, FieldFault>
    ensures value { Gives FieldFault.Memory (λ v. v.items) result
        (in_order listed_status_of (map view items.now)) }
    ensures as_many { IfOk result (λ v. length v.items ≡ length items.now) }
{
    let mut list = Vec::new(alloc);
    for item in items {
        list.push(listed_status(alloc, item)?)?;
    }
    Ok(list)
}

#[tactic(auto, unfolding(crate::specs::Reading::listed_of))]
fn listed(alloc: Global, tree: &Value) -> Result<ListedContainer, FieldFault>
    ensures { Gives FieldFault.Memory (λ l. l) result (listed_of (view tree.now)) }
{
    let container = container(alloc, tree)?;
    let state = kind(tree)?;
    Ok(ListedContainer { container, state })
}

#[tactic(auto, unfolding(crate::specs::Reading::listed_status_of))]
fn listed_status(alloc: Global, tree: &Value) -> Result<ListedStatus, FieldFault>
    ensures { Gives FieldFault.Memory (λ l. l) result (listed_status_of (view tree.now)) }
{
    let container = container(alloc, tree)?;
    let status = status(tree)?;
    Ok(ListedStatus { container, status })
}

#[tactic(auto, unfolding(crate::specs::Reading::status_of))]
fn status(tree: &Value) -> Result<Status, FieldFault>
    ensures { result ≡ status_of (view tree.now) }
{
    let state = state(tree)?;
    let performed = required_whole(tree, "performed")?;
    let denied = required_whole(tree, "denied")?;
    Ok(Status {
        state,
        performed,
        denied,
    })
}

#[tactic(auto, unfolding(crate::specs::Reading::state_of))]
fn state(tree: &Value) -> Result<State, FieldFault>
    ensures { result ≡ state_of (view tree.now) }
{
    match kind(tree)? {
        ContainerState::Created => without_exit(State::Created, tree),
        ContainerState::Running => without_exit(State::Running, tree),
        ContainerState::Exited => with_exit(tree),
    }
}

#[tactic(auto, unfolding(crate::specs::Reading::kind_in))]
fn kind(tree: &Value) -> Result<ContainerState, FieldFault>
    ensures { result ≡ kind_in (view tree.now) }
{
    let text = required_text(tree, "state")?;
    kind_named(text)
}

#[tactic(auto, unfolding(crate::specs::Reading::without_exit))]
fn without_exit(state: State, tree: &Value) -> Result<State, FieldFault>
    ensures { result ≡ without_exit state (view tree.now) }
{
    if has(tree, "exit") {
        return Err(FieldFault::WrongType);
    }
    Ok(state)
}

#[tactic(auto, unfolding(crate::specs::Reading::with_exit))]
fn with_exit(tree: &Value) -> Result<State, FieldFault>
    ensures { result ≡ with_exit (view tree.now) }
{
    let code = required_whole(tree, "exit")?;
    match u8::try_from(code) {
        Ok(code) => Ok(State::Exited(code)),
        Err(_) => Err(FieldFault::WrongType),
    }
}

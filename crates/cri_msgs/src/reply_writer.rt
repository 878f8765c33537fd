ghost use Rattle.std.specs.Prelude.{◌≡◌, IfOk, codes, map};
ghost use Rattle.std.specs.List.{AllByRecursion};
ghost use Rattle.serde_json.specs.Data.{array, member, no_members, object, put, string};
ghost use Rattle.serde_json.specs.View.{items_view, members_view, view};
ghost use Rattle.cri_msgs.specs.declared.lists.ListedContainer.{ListedContainer};
ghost use Rattle.cri_msgs.specs.declared.lists.ListedStatus.{ListedStatus};
ghost use Rattle.cri_msgs.specs.Fits.{FitsAnswer, FitsContainer, FitsList, FitsListed, FitsListedStatus};
ghost use Rattle.cri_msgs.specs.Fits.{FitsState, FitsStatus, IsSmall};
ghost use Rattle.cri_msgs.specs.Names.{kind_of, state_name};
ghost use Rattle.cri_msgs.specs.Written.{answer_tree, exit_tree, list_tree, listed_status_tree, listed_tree};
ghost use Rattle.cri_msgs.specs.Written.{ok_tree, refused_tree, status_tree, version_last, whole_number};

use crate::keys::ContainerMetadata;
use crate::lists::{ListedContainer, ListedStatus, Listing, Statuses};
use crate::object::Object;
use crate::replies::Answer;
use crate::states::{ContainerState, State, Status};
use crate::version::Version;
use serde_json::Value;
use std::alloc::{AllocError, Global};

// The trees of replies. Each contract also states the limits that the answer's types ensure.

#[tactic(auto, unfolding(crate::specs::Written::answer_tree))]
pub(crate) fn answer_tree(
    alloc: Global,
    version: Version,
    id: u64,
    answer: &Answer,
) -> Result<Value, AllocError>
    ensures tree { IfOk result (λ v. view v ≡ answer_tree version id answer.now) }
    ensures fit { IfOk result (λ _. FitsAnswer answer.now) }
    ensures number { IfOk result (λ _. IsSmall id) }
{
    match answer {
        Answer::Refused(refusal) => refused(alloc, version, id, refusal.number()),
        Answer::Done => ok(alloc, version, id, Object::new(alloc).done()),
        Answer::Container(made) => ok(alloc, version, id, made_tree(alloc, *made)?),
        Answer::Status(status) => ok(alloc, version, id, status_tree(alloc, *status)?),
        Answer::List(list) => ok(alloc, version, id, listing_tree(alloc, list)?),
        Answer::Statuses(list) => ok(alloc, version, id, statuses_tree(alloc, list)?),
    }
}

fn refused(alloc: Global, version: Version, id: u64, number: u64) -> Result<Value, AllocError>
    ensures { IfOk result (λ v. view v ≡ refused_tree version id number) }
{
    let object = Object::new(alloc)
        .whole("id", id)?
        .whole("refused", number)?
        .whole("v", version.number())?;
    Ok(object.done())
}

fn ok(alloc: Global, version: Version, id: u64, answer: Value) -> Result<Value, AllocError>
    ensures { IfOk result (λ v. view v ≡ ok_tree version id (view answer)) }
{
    let object = Object::new(alloc)
        .with("ok", answer)?
        .whole("id", id)?
        .whole("v", version.number())?;
    Ok(object.done())
}

fn made_tree(alloc: Global, made: u64) -> Result<Value, AllocError>
    ensures { IfOk result (λ v. view v ≡ object (member (codes "container") (whole_number made) no_members)) }
{
    let object = Object::new(alloc).whole("container", made)?;
    Ok(object.done())
}

fn name(state: ContainerState) -> &'static str
    ensures { result.now ≡ state_name state }
{
    match state {
        ContainerState::Created => "CREATED",
        ContainerState::Running => "RUNNING",
        ContainerState::Exited => "EXITED",
    }
}

fn exit(state: State) -> Value
    ensures tree { view result ≡ exit_tree state }
    ensures fit { FitsState state }
{
    match state {
        State::Created | State::Running => Value::Null,
        State::Exited(code) => Value::from(code),
    }
}

fn status_tree(alloc: Global, status: Status) -> Result<Value, AllocError>
    ensures tree { IfOk result (λ v. view v ≡ status_tree status) }
    ensures fit { IfOk result (λ _. FitsStatus status) }
{
    let object = with_status(Object::new(alloc), status)?;
    Ok(object.done())
}

// The status of a container.
fn with_status(object: Object, status: Status) -> Result<Object, AllocError>
    ensures members { IfOk result (λ o. members_view o.members.entries
        ≡ put (codes "state") (string (state_name (kind_of status.state)))
        (put (codes "performed") (whole_number status.performed)
        (put (codes "exit") (exit_tree status.state)
        (put (codes "denied") (whole_number status.denied) (members_view object.members.entries))))) }
    ensures fit { IfOk result (λ _. FitsStatus status) }
{
    let object = object
        .whole("denied", status.denied)?
        .with("exit", exit(status.state))?
        .whole("performed", status.performed)?
        .text("state", name(status.state.kind()))?;
    Ok(object)
}

// Which container it is.
fn with_container(object: Object, container: &ContainerMetadata) -> Result<Object, AllocError>
    ensures members { IfOk result (λ o. members_view o.members.entries
        ≡ put (codes "name") (string container.now.name)
        (put (codes "attempt") (whole_number container.now.attempt) (members_view object.members.entries))) }
    ensures fit { IfOk result (λ _. FitsContainer container.now) }
{
    let attempt = container.attempt;
    let object = object
        .whole("attempt", u64::from(attempt))?
        .text("name", container.name.as_str())?;
    Ok(object)
}

fn listing_tree(alloc: Global, list: &Listing) -> Result<Value, AllocError>
    ensures tree { IfOk result (λ v. view v ≡ list_tree (codes "containers") listed_tree list.now) }
    ensures fit { IfOk result (λ _. FitsList FitsListed list.now) }
{
    let trees = listed_trees(alloc, list.as_slice())?;
    list_tree(alloc, "containers", trees)
}

fn statuses_tree(alloc: Global, list: &Statuses) -> Result<Value, AllocError>
    ensures tree { IfOk result (λ v. view v ≡ list_tree (codes "statuses") listed_status_tree list.now) }
    ensures fit { IfOk result (λ _. FitsList FitsListedStatus list.now) }
{
    let trees = status_trees(alloc, list.as_slice())?;
    list_tree(alloc, "statuses", trees)
}

fn list_tree(alloc: Global, key: &str, trees: Vec<Value>) -> Result<Value, AllocError>
    ensures { IfOk result (λ v. view v
        ≡ object (member key.now (array (items_view trees.items)) no_members)) }
{
    let object = Object::new(alloc).with(key, Value::Array(trees))?;
    Ok(object.done())
}

#[tactic(auto, using(crate::proofs::Entries::written_more, crate::proofs::Entries::fits_more))]
fn listed_trees(alloc: Global, list: &[ListedContainer]) -> Result<Vec<Value>, AllocError>
    ensures trees { IfOk result (λ vs. map view vs.items ≡ map listed_tree list.now) }
    ensures fit { IfOk result (λ _. AllByRecursion FitsListed list.now) }
{
    let mut trees = Vec::new(alloc);
    for listed in list {
        trees.push(listed_tree(alloc, listed)?)?;
    }
    Ok(trees)
}

#[tactic(auto, using(crate::proofs::Entries::written_more, crate::proofs::Entries::fits_more))]
fn status_trees(alloc: Global, list: &[ListedStatus]) -> Result<Vec<Value>, AllocError>
    ensures trees { IfOk result (λ vs. map view vs.items ≡ map listed_status_tree list.now) }
    ensures fit { IfOk result (λ _. AllByRecursion FitsListedStatus list.now) }
{
    let mut trees = Vec::new(alloc);
    for listed in list {
        trees.push(listed_status_tree(alloc, listed)?)?;
    }
    Ok(trees)
}

fn listed_tree(alloc: Global, listed: &ListedContainer) -> Result<Value, AllocError>
    ensures tree { IfOk result (λ v. view v ≡ listed_tree listed.now) }
    ensures fit { IfOk result (λ _. FitsListed listed.now) }
{
    let object = with_container(Object::new(alloc), &listed.container)?.text(
        "state",
        name(listed.state),
    )?;
    Ok(object.done())
}

fn listed_status_tree(alloc: Global, listed: &ListedStatus) -> Result<Value, AllocError>
    ensures tree { IfOk result (λ v. view v ≡ listed_status_tree listed.now) }
    ensures fit { IfOk result (λ _. FitsListedStatus listed.now) }
{
    let object = with_container(Object::new(alloc), &listed.container)?;
    let object = with_status(object, listed.status)?;
    Ok(object.done())
}

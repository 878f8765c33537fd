//! What a book needs of a node: room for an event, the answer, and the step itself.
ghost use Rattle.std.specs.Prelude.{◌≡◌, ◌+◌, ◌<◌, ◌≤◌, ◌++◌, [], ◌∷◌, false, length, vec_len, vec_capacity};
ghost use Rattle.std.specs.Prelude.{IfOk, OnOk, OnErr};
ghost use Rattle.worker_core.specs.Kept.{after_event, answer_of};
ghost use Rattle.worker_core.specs.Slots.{held_in};
ghost use Rattle.node_lock.specs.Histories.{IsStep};
ghost use Rattle.node_lock.specs.Rooms.{is_abandon, room_for};

use crate::entries::Entry;
use crate::faults::BookFault;
use std::alloc::{AllocError, Global};
use worker_core::{AgentEvent, Answer, Node};

// How many entries an event needs, besides those that are reserved for held claims. A claim needs a second
// one for its end, whatever its answer, and the end of a claim has its own already.
pub(crate) fn room_for(node: &Node, event: &AgentEvent) -> usize
    ensures { result ≡ room_for node.now event.now }
{
    match event {
        AgentEvent::Claim(_) => 2,
        AgentEvent::Report(worker, _) | AgentEvent::Abandon(worker) => {
            if node.is_busy(*worker) { 0 } else { 1 }
        }
        AgentEvent::Admit(_) | AgentEvent::Delete(_) | AgentEvent::Tick(_) => 1,
    }
}

// A copy of the event. Giving a claim up needs no memory.
fn copied(alloc: Global, event: &AgentEvent) -> Result<AgentEvent, AllocError>
    ensures same { IfOk result (λ copy. copy ≡ event.now) }
    ensures only { OnErr result (is_abandon event.now ≡ false) }
{
    match event {
        AgentEvent::Abandon(worker) => Ok(AgentEvent::Abandon(*worker)),
        event => event.try_clone(alloc),
    }
}

// The answer that the node will return.
#[tactic(auto, using(crate::proofs::Abandons::asking))]
fn foreseen(node: &Node, event: &AgentEvent) -> Result<Answer, BookFault>
    ensures answer { IfOk result (λ answer. answer ≡ answer_of node.now event.now) }
    ensures fault { OnErr result (result ≡ Err BookFault.Memory) }
    ensures only { OnErr result (is_abandon event.now ≡ false) }
{
    let answer = node.answer(event);
    if answer.is_memory() {
        return Err(BookFault::Memory);
    }
    Ok(answer)
}

// The parts of an entry and its receipt: the event twice, and the predicted answer.
struct Copies {
    kept: AgentEvent,
    copy: AgentEvent,
    told: Answer,
}

// Allocates everything, before the node changes.
fn prepared(alloc: Global, node: &Node, event: &AgentEvent) -> Result<Copies, BookFault>
    ensures kept { IfOk result (λ c. c.kept ≡ event.now) }
    ensures copy { IfOk result (λ c. c.copy ≡ event.now) }
    ensures told { IfOk result (λ c. c.told ≡ answer_of node.now event.now) }
    ensures fault { OnErr result (result ≡ Err BookFault.Memory) }
    ensures only { OnErr result (is_abandon event.now ≡ false) }
{
    let told = foreseen(node, event)?;
    let kept = copied(alloc, event)?;
    let copy = copied(alloc, event)?;
    Ok(Copies { kept, copy, told })
}

// Applies the event to the node. Out of memory is reported apart from the node's answers, and is not a step.
#[tactic(auto, using(crate::proofs::Abandons::growing, crate::proofs::Rooms::room_enough))]
fn taken(node: &mut Node, event: AgentEvent) -> Result<Answer, BookFault>
    ensures answer { IfOk result (λ answer. answer ≡ answer_of node.old event) }
    ensures node { OnOk result (node.new ≡ after_event node.old event) }
    ensures step { IfOk result (λ answer. IsStep node.old event answer node.new) }
    ensures room { OnOk result
        (held_in node.new.slots + 1 ≤ held_in node.old.slots + room_for node.old event) }
    ensures fault { OnErr result (result ≡ Err BookFault.Memory) }
    ensures only { OnErr result (is_abandon event ≡ false) }
    ensures err { OnErr result (node.new ≡ node.old) }
{
    let answer = node.apply(event);
    if answer.is_memory() {
        return Err(BookFault::Memory);
    }
    Ok(answer)
}

// Appends the entry, for which there is room.
fn add(history: &mut Vec<Entry>, entry: Entry)
    requires { vec_len history.old < vec_capacity history.old }
    ensures items { history.new.items ≡ history.old.items ++ entry ∷ [] }
    ensures len { vec_len history.new ≡ vec_len history.old + 1 }
    ensures capacity { vec_capacity history.old ≤ vec_capacity history.new }
{
    let pushed = history.push(entry);
    let added = pushed.is_ok();
    prove!(added);
    drop(pushed);
}

// Appends the event to the history as an entry, and returns a copy of the entry. There must be room for it,
// and for the ends of the claims held then.
pub(crate) fn entered(
    alloc: Global,
    node: &mut Node,
    history: &mut Vec<Entry>,
    ahead: usize,
    worker: u32,
    event: AgentEvent,
) -> Result<Entry, BookFault>
    requires { ahead ≡ held_in node.old.slots + room_for node.old event }
    ensures worker { IfOk result (λ entry. entry.worker ≡ worker) }
    ensures event { IfOk result (λ entry. entry.event ≡ event) }
    ensures answer { IfOk result (λ entry. entry.answer ≡ answer_of node.old event) }
    ensures history { IfOk result (λ entry. history.new.items ≡ history.old.items ++ entry ∷ []) }
    ensures node { OnOk result (node.new ≡ after_event node.old event) }
    ensures step { IfOk result (λ entry. IsStep node.old event entry.answer node.new) }
    ensures held { OnOk result (held_in node.new.slots + 1 ≤ ahead) }
    ensures room { OnOk result (length history.old.items + ahead ≤ vec_capacity history.new) }
    ensures kept { vec_capacity history.old ≤ vec_capacity history.new }
    ensures same { OnErr result (history.new.items ≡ history.old.items) }
    ensures still { OnErr result (node.new ≡ node.old) }
    ensures fault { OnErr result (result ≡ Err BookFault.Memory) }
    ensures only { OnErr result (length history.old.items + ahead ≤ vec_capacity history.old
        → is_abandon event ≡ false) }
{
    history.reserve(ahead)?;
    let Copies { kept, copy, told } = prepared(alloc, node, &event)?;
    let answer = taken(node, event)?;
    let entry = Entry {
        worker,
        event: kept,
        answer,
    };
    add(history, entry);
    Ok(Entry {
        worker,
        event: copy,
        answer: told,
    })
}

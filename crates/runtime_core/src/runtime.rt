//! A registry with the lists of its sandboxes' cells.
ghost use Rattle.std.specs.Prelude.{◌≡◌, ◌≢◌, ℕ, List, [], Some, None, option_copied};
ghost use Rattle.cri_msgs.specs.declared.replies.Answer.{Answer};
ghost use Rattle.runtime_core.specs.declared.calls.Kind.{Kind};
ghost use Rattle.registry.specs.declared.stage.Stage.{Stage};
ghost use Rattle.registry.specs.Runtime.{empty};
ghost use Rattle.cri_msgs.specs.Calls.{uid_of};
ghost use Rattle.registry.specs.Serves.{Serves};
ghost use Rattle.registry.specs.Stands.{Agrees, AreBound, runtime_of, stages_in};
ghost use Rattle.runtime_core.specs.Stands.{IsListFor, IsWhole, LendsTo, cells_in, list_in, stands_for};
ghost use Rattle.runtime_core.specs.Stays.{kind_of};
ghost use Rattle.runtime_core.specs.Steps.{MayKill, MayStep, Reads, IsNext};

use crate::calls::{Kind, kind_of, uid_of};
use crate::lists::Lists;
use bpf_verify::Filter;
use creation::FileAnswers;
use cri_msgs::{Answer, Refusal, Reply, Request};
use manifest::Uid;
use registry::{Cells, Registry, RemovedCells, Stage};
use runtime_cell::{Cell, Did};
use std::alloc::{AllocError, Global};
use std::marker::Model;

/// A node's runtime. Contracts see its data, which represents a runtime by `specs/Stands.antt`.
#[derive(Drop)]
pub struct Runtime {
    registry: Registry,
    lists: Lists,
}

impl Model for Runtime {
    ghost use Rattle.runtime_core.specs.Stands.{Held, IsWhole};

    ghost Value = { Held };

    ghost view = { λ r. record { registry = r.registry; lists = r.lists } };

    // Registry and lists agree on every uid.
    ghost invariant = { λ r. IsWhole r.registry r.lists };
}

impl Runtime {
    /// An empty runtime, on a node with this baseline filter.
    pub fn new(alloc: Global, baseline: Option<Filter>) -> Runtime
        ensures { stands_for result ≡ empty baseline }
    {
        Runtime {
            registry: Registry::new(alloc, baseline),
            lists: Lists::new(alloc),
        }
    }

    /// Serves a request, given the results of reading its files.
    pub fn serve(&mut self, request: Request, files: FileAnswers) -> Reply
        ensures number { result.id ≡ request.id }
        ensures serves { Serves (stands_for self.old) request.call files result.answer (stands_for self.new) }
    {
        serve(&mut self.registry, &mut self.lists, request, files)
    }

    /// Steps the cell with this id, and returns the result. `None` if no cell has it.
    pub fn step(&mut self, id: u64) -> Option<Did>
        ensures { MayStep (stands_for self.old) id result (stands_for self.new) }
    {
        step(&self.registry, &mut self.lists, id)
    }

    /// Ends the cell with this id with this exit code. `None` if no cell has it.
    pub fn kill(&mut self, id: u64, code: u8) -> Option<()>
        ensures { MayKill (stands_for self.old) id code result (stands_for self.new) }
    {
        kill(&self.registry, &mut self.lists, id, code)
    }

    /// The cell with this id, if there is one.
    pub fn cell(&self, id: u64) -> Option<&Cell>
        ensures { Reads (stands_for self.now) id (option_copied result) }
    {
        cell(&self.registry, &self.lists, id)
    }

    /// The least id above this one that a cell has.
    pub fn next_id(&self, above: u64) -> Option<u64>
        ensures { IsNext (stands_for self.now) above result }
    {
        next_id(&self.registry, &self.lists, above)
    }
}

fn serve(registry: &mut Registry, lists: &mut Lists, request: Request, files: FileAnswers) -> Reply
    requires { IsWhole registry.old lists.old }
    ensures number { result.id ≡ request.id }
    ensures serves { Serves (runtime_of registry.old (cells_in lists.old)) request.call files result.answer
        (runtime_of registry.new (cells_in lists.new)) }
    ensures whole { IsWhole registry.new lists.new }
{
    match kind_of(&request.call) {
        Kind::Runs => run_pod(registry, lists, request, files),
        Kind::Removes => remove_pod(registry, lists, request, files),
        Kind::Other => serve_there(registry, lists, request, files),
    }
}

/// A call that neither makes nor removes a sandbox.
fn serve_there(
    registry: &mut Registry,
    lists: &mut Lists,
    request: Request,
    files: FileAnswers,
) -> Reply
    requires whole { IsWhole registry.old lists.old }
    requires quiet { kind_of request.call ≡ Kind.Other }
    ensures number { result.id ≡ request.id }
    ensures serves { Serves (runtime_of registry.old (cells_in lists.old)) request.call files result.answer
        (runtime_of registry.new (cells_in lists.new)) }
    ensures whole { IsWhole registry.new lists.new }
{
    lists.lend(registry, request, files)
}

/// The list is inserted before the registry is called.
fn run_pod(
    registry: &mut Registry,
    lists: &mut Lists,
    request: Request,
    files: FileAnswers,
) -> Reply
    requires whole { IsWhole registry.old lists.old }
    requires runs { kind_of request.call ≡ Kind.Runs }
    ensures number { result.id ≡ request.id }
    ensures serves { Serves (runtime_of registry.old (cells_in lists.old)) request.call files result.answer
        (runtime_of registry.new (cells_in lists.new)) }
    ensures whole { IsWhole registry.new lists.new }
{
    match registry.stage(uid_of(&request.call).as_str()) {
        Stage::Unknown => wake(registry, lists, request, files),
        Stage::Live { .. } => known(registry, lists, request, files),
        Stage::Removed => known(registry, lists, request, files),
    }
}

/// RunPodSandbox for a uid that was named before.
fn known(registry: &mut Registry, lists: &mut Lists, request: Request, files: FileAnswers) -> Reply
    requires whole { IsWhole registry.old lists.old }
    requires runs { kind_of request.call ≡ Kind.Runs }
    requires named { stages_in registry.old (uid_of request.call) ≢ Stage.Unknown }
    ensures number { result.id ≡ request.id }
    ensures serves { Serves (runtime_of registry.old (cells_in lists.old)) request.call files result.answer
        (runtime_of registry.new (cells_in lists.new)) }
    ensures whole { IsWhole registry.new lists.new }
{
    lists.lend(registry, request, files)
}

/// RunPodSandbox for a uid that was never named.
fn wake(registry: &mut Registry, lists: &mut Lists, request: Request, files: FileAnswers) -> Reply
    requires whole { IsWhole registry.old lists.old }
    requires runs { kind_of request.call ≡ Kind.Runs }
    requires unknown { stages_in registry.old (uid_of request.call) ≡ Stage.Unknown }
    ensures number { result.id ≡ request.id }
    ensures serves { Serves (runtime_of registry.old (cells_in lists.old)) request.call files result.answer
        (runtime_of registry.new (cells_in lists.new)) }
    ensures whole { IsWhole registry.new lists.new }
{
    let id = request.id;
    if registry.is_full() {
        return refused(id, Refusal::ResourceExhausted);
    }
    match uid_of(&request.call).try_clone(lists.alloc) {
        Err(AllocError) => refused(id, Refusal::Memory),
        Ok(uid) => match lists.put(uid.as_str()) {
            Err(AllocError) => refused(id, Refusal::Memory),
            Ok(()) => lent_new(registry, lists, &uid, request, files),
        },
    }
}

fn refused(id: u64, refusal: Refusal) -> Reply
    ensures { result ≡ record { id = id; answer = Answer.Refused refusal } }
{
    Reply {
        id,
        answer: Answer::Refused(refusal),
    }
}

/// RunPodSandbox with the list for the new sandbox. If no sandbox is made, the list is removed again.
fn lent_new(
    registry: &mut Registry,
    lists: &mut Lists,
    uid: &Uid,
    request: Request,
    files: FileAnswers,
) -> Reply
    requires same { uid.now ≡ uid_of request.call }
    requires agrees { Agrees registry.old (uid_of request.call) [] }
    requires bound { AreBound registry.old }
    requires list { list_in lists.old (uid_of request.call) ≡ Some [] }
    requires runs { kind_of request.call ≡ Kind.Runs }
    requires unknown { stages_in registry.old (uid_of request.call) ≡ Stage.Unknown }
    ensures number { result.id ≡ request.id }
    ensures others { (u : List ℕ) → u ≢ uid_of request.call → list_in lists.new u ≡ list_in lists.old u }
    ensures lent { LendsTo registry.old registry.new request.call files result.answer []
        (cells_in lists.new (uid_of request.call)) }
    ensures listed { IsListFor (stages_in registry.new (uid_of request.call))
        (list_in lists.new (uid_of request.call)) }
{
    let reply = lists.lend(registry, request, files);
    match registry.stage(uid.as_str()) {
        Stage::Live { .. } => reply,
        Stage::Unknown => without(lists, uid, reply),
        Stage::Removed => without(lists, uid, reply),
    }
}

fn without(lists: &mut Lists, uid: &Uid, reply: Reply) -> Reply
    ensures reply { result ≡ reply }
    ensures here { list_in lists.new uid.now ≡ None }
    ensures others { (u : List ℕ) → u ≢ uid.now → list_in lists.new u ≡ list_in lists.old u }
{
    drop(lists.take(uid.as_str()));
    reply
}

/// RemovePodSandbox: removes the list of the uid.
fn remove_pod(
    registry: &mut Registry,
    lists: &mut Lists,
    request: Request,
    files: FileAnswers,
) -> Reply
    requires whole { IsWhole registry.old lists.old }
    requires removes { kind_of request.call ≡ Kind.Removes }
    ensures number { result.id ≡ request.id }
    ensures serves { Serves (runtime_of registry.old (cells_in lists.old)) request.call files result.answer
        (runtime_of registry.new (cells_in lists.new)) }
    ensures whole { IsWhole registry.new lists.new }
{
    let mut cells = lists.take(uid_of(&request.call).as_str());
    let mut gone = RemovedCells::new(lists.alloc);
    registry.serve_lent(&mut cells, &mut gone, request, files)
}

fn step(registry: &Registry, lists: &mut Lists, id: u64) -> Option<Did>
    requires { IsWhole registry.now lists.old }
    ensures step { MayStep (runtime_of registry.now (cells_in lists.old)) id result
        (runtime_of registry.now (cells_in lists.new)) }
    ensures whole { IsWhole registry.now lists.new }
{
    match registry.home(id) {
        Some(uid) => lists.step(uid, id),
        None => None,
    }
}

fn kill(registry: &Registry, lists: &mut Lists, id: u64, code: u8) -> Option<()>
    requires { IsWhole registry.now lists.old }
    ensures kill { MayKill (runtime_of registry.now (cells_in lists.old)) id code result
        (runtime_of registry.now (cells_in lists.new)) }
    ensures whole { IsWhole registry.now lists.new }
{
    match registry.home(id) {
        Some(uid) => lists.kill(uid, id, code),
        None => None,
    }
}

fn cell<'r>(registry: &Registry, lists: &'r Lists, id: u64) -> Option<&'r Cell>
    requires { IsWhole registry.now lists.now }
    ensures { Reads (runtime_of registry.now (cells_in lists.now)) id (option_copied result) }
{
    match registry.home(id) {
        Some(uid) => lists.cell(uid, id),
        None => None,
    }
}

/// The registry's answer. The lists are a parameter only because the contract mentions them.
fn next_id(registry: &Registry, _lists: &Lists, above: u64) -> Option<u64>
    requires { IsWhole registry.now _lists.now }
    ensures { IsNext (runtime_of registry.now (cells_in _lists.now)) above result }
{
    registry.next_id(above)
}

//! A runtime that threads share. The registry has one lock, and each sandbox's cells have their own, so a
//! step of a cell blocks only its own sandbox. All that happens under these locks is one history.
ghost use Rattle.std.specs.Prelude.{◌≡◌, ◌≢◌, ◌↔◌, IfNone, IfSome, IsTrue, List, ℕ, is_some, true};
ghost use Rattle.std.specs.Arc.{arc_value};
ghost use Rattle.cri_msgs.specs.Calls.{uid_of};
ghost use Rattle.registry.specs.Stands.{stages_in};
ghost use Rattle.runtime_history.specs.declared.event.Event.TheVariants.{Served};
ghost use Rattle.runtime_history.specs.History.{Grows, unseen};
ghost use Rattle.runtime_history.specs.Sandboxes.{IsLive, Removes, Wakes};
ghost use Rattle.runner.specs.Labelled.{AreDue};
ghost use Rattle.runner.specs.Shared.{AreListed, MayServe, has};

use crate::due::Due;
use crate::lists::CellLists;
use crate::sandbox::SandboxCells;
use crate::service::Host;
use creation::KeptTexts;
use cri_msgs::{Call, Reply, Request};
use manifest::Uid;
use registry::RemovedCells;
use runtime_core::{FileAnswers, Registry, Stage, uid_of};
use runtime_history::{Asked, Begun, Blank, Callers, Client, History, Listed, Node, Registered};
use std::alloc::{AllocError, Global};
use std::marker::{Brand, Model};
use std::sync::{Arc, Mutex, Wait};

/// What is known of all uids, where their cells are, and which of these rounds visit.
#[derive(Drop)]
pub(crate) struct Sandboxes<B: Node> {
    pub(crate) registered: Registered<B>,
    pub(crate) lists: CellLists<B>,
    pub(crate) due: Due<B>,
    // The uids of the lists are those of the existing sandboxes.
    ghost listed: { AreListed registered.0 lists },
    // Rounds visit each cell that may run.
    ghost kept: { AreDue registered.1 due },
}

impl<B: Node> Sandboxes<B> {
    // The cells of an existing sandbox, for use after the registry's lock is released.
    fn there(&self, uid: &Uid) -> Option<Arc<SandboxCells<B>, Global>>
        ensures { IfSome result (λ list. (arc_value list).uid ≡ uid.now) }
    {
        Arc::try_clone(self.lists.get(uid.as_str())?).ok()
    }

    fn serve<R: Wait, Q: Asked>(
        &mut self,
        rt: &R,
        alloc: Global,
        history: &History<B>,
        gone: &mut RemovedCells,
        me: &mut Client<B>,
        request: Request,
        files: FileAnswers,
    ) -> Reply
        requires { (Q.call ≡ request.call) × (Q.files ≡ files) }
        ensures number { result.id ≡ request.id }
        ensures grows { Grows B.filter me.old (Served request.call files result.answer) me.new }
    {
        serve::<B, R, Q>(
            rt,
            alloc,
            history,
            &mut self.registered,
            &mut self.lists,
            &mut self.due,
            gone,
            me,
            request,
            files,
        )
    }
}

/// A runtime that threads share.
#[derive(Drop)]
pub struct SharedRuntime<B: Node> {
    pub(crate) history: History<B>,
    pub(crate) sandboxes: Mutex<Sandboxes<B>>,
    // The texts read lately, with their results. This lock is never held while another one is.
    texts: Mutex<KeptTexts>,
    alloc: Global,
}

impl<B: Node> SharedRuntime<B> {
    /// A runtime that has served nothing, and the maker of its callers.
    pub fn new(alloc: Global, begun: Begun) -> (SharedRuntime<B>, Callers<B>)
        requires { begun ≡ (B.filter, B.table) }
    {
        let (history, registered, callers) = begun.of_node::<B>();
        let sandboxes = Sandboxes {
            registered,
            lists: CellLists::new(alloc),
            due: Due::new(alloc),
        };
        let runtime = SharedRuntime {
            history,
            sandboxes: Mutex::new(sandboxes),
            texts: Mutex::new(KeptTexts::new(alloc)),
            alloc,
        };
        (runtime, callers)
    }

    /// A caller that has seen nothing of its history.
    pub fn client(&self, callers: &Callers<B>) -> Client<B>
        ensures { result ≡ unseen }
    {
        callers.client(&self.history)
    }

    /// Serves a request, given the results of reading its files. The caller sees the history up to that
    /// event. The request's script and profile are read, and the profile is compiled, before any lock is
    /// taken. The registry's lock, and then that of the sandbox's cells, are held until the reply is made;
    /// cells are listed under the cells' lock alone. Removed cells are dropped once neither lock is held.
    pub fn serve<R: Wait>(
        &self,
        rt: &R,
        me: &mut Client<B>,
        request: Request,
        files: FileAnswers,
    ) -> Reply
        ensures number { result.id ≡ request.id }
        ensures grows { Grows B.filter me.old (Served request.call files result.answer) me.new }
    {
        let mut gone = RemovedCells::new(self.alloc);
        let reply = self.serve_keeping(rt, &mut gone, me, request, files);
        drop(gone);
        reply
    }

    /// Serves a request as `serve` does, and hands out the cells that it removes.
    pub fn serve_keeping<R: Wait>(
        &self,
        rt: &R,
        gone: &mut RemovedCells,
        me: &mut Client<B>,
        request: Request,
        files: FileAnswers,
    ) -> Reply
        ensures number { result.id ≡ request.id }
        ensures grows { Grows B.filter me.old (Served request.call files result.answer) me.new }
    {
        self.serve_asked::<R, Brand>(rt, gone, me, request, files)
    }

    fn serve_asked<R: Wait, Q: Asked>(
        &self,
        rt: &R,
        gone: &mut RemovedCells,
        me: &mut Client<B>,
        request: Request,
        files: FileAnswers,
    ) -> Reply
        requires { (Q.call ≡ request.call) × (Q.files ≡ files) }
        ensures number { result.id ≡ request.id }
        ensures grows { Grows B.filter me.old (Served request.call files result.answer) me.new }
    {
        match self.list::<R, Q>(rt, me, &request) {
            Some(reply) => reply,
            None => {
                let files = self.prepared(rt, files);
                self.serve_locked::<R, Q>(rt, gone, me, request, files)
            }
        }
    }

    // The same results, with script and profile read, and the profile compiled. A text that another container
    // used lately is not read or compiled again.
    fn prepared<R: Wait>(&self, rt: &R, files: FileAnswers) -> FileAnswers
        ensures { result ≡ files }
    {
        if files.is_empty() {
            return files;
        }
        let texts = self.texts.lock(rt);
        let files = texts.lend(files);
        drop(texts);
        let files = files.prepared(self.alloc);
        let new = files.new_texts(self.alloc);
        let mut texts = self.texts.lock(rt);
        texts.keep(new);
        drop(texts);
        files
    }

    // The reply to a request that lists the cells of an existing sandbox.
    fn list<R: Wait, Q: Asked>(
        &self,
        rt: &R,
        me: &mut Client<B>,
        request: &Request,
    ) -> Option<Reply>
        requires { Q.call ≡ request.now.call }
        ensures number { IfSome result (λ reply. reply.id ≡ request.now.id) }
        ensures some { IfSome result (λ reply. Grows B.filter me.old
            (Served request.now.call Q.files reply.answer)
            me.new) }
        ensures none { IfNone result (me.new ≡ me.old) }
    {
        if !lists(&request.call) {
            return None;
        }
        // Waiting for these cells blocks no other sandbox. A sandbox that is removed meanwhile has none, and
        // the reply then shows that.
        let list = self.there(rt, uid_of(&request.call))?;
        tell::<B, R, Q>(rt, self.alloc, &self.history, &list, me, request)
    }

    // The cells of an existing sandbox.
    fn there<R: Wait>(&self, rt: &R, uid: &Uid) -> Option<Arc<SandboxCells<B>, Global>>
        ensures { IfSome result (λ list. (arc_value list).uid ≡ uid.now) }
    {
        let sandboxes = self.sandboxes.lock(rt);
        sandboxes.there(uid)
    }

    fn serve_locked<R: Wait, Q: Asked>(
        &self,
        rt: &R,
        gone: &mut RemovedCells,
        me: &mut Client<B>,
        request: Request,
        files: FileAnswers,
    ) -> Reply
        requires { (Q.call ≡ request.call) × (Q.files ≡ files) }
        ensures number { result.id ≡ request.id }
        ensures grows { Grows B.filter me.old (Served request.call files result.answer) me.new }
    {
        let mut sandboxes = self.sandboxes.lock(rt);
        sandboxes.serve::<R, Q>(rt, self.alloc, &self.history, gone, me, request, files)
    }
}

/// The host by which a thread serves a shared runtime's connections. Contracts see what the connection has
/// seen of the runtime's history.
#[derive(Drop)]
pub struct SharedHost<'a, B: Node, R: Wait> {
    rt: &'a R,
    runtime: &'a SharedRuntime<B>,
    client: Client<B>,
}

impl<'a, B: Node, R: Wait> Model for SharedHost<'a, B, R> {
    ghost use Rattle.runtime_history.specs.declared.event.Seen.{Seen};

    ghost Value = { Seen };

    ghost view = { λ host. host.client };
}

impl<'a, B: Node, R: Wait> SharedHost<'a, B, R> {
    /// A host of this runtime, which has seen nothing of its history.
    pub fn new(
        rt: &'a R,
        runtime: &'a SharedRuntime<B>,
        callers: &Callers<B>,
    ) -> SharedHost<'a, B, R>
        ensures { result ≡ unseen }
    {
        SharedHost {
            rt,
            runtime,
            client: runtime.client(callers),
        }
    }

    /// The connection's caller.
    pub fn client(&self) -> &Client<B>
        ensures { result.now ≡ self.now }
    {
        &self.client
    }

    /// Serves a request, and hands out the cells that it removes.
    pub fn serve_keeping(
        &mut self,
        gone: &mut RemovedCells,
        request: Request,
        files: FileAnswers,
    ) -> Reply
        ensures { MayServe B.filter self.old request files result self.new }
    {
        self.runtime
            .serve_keeping(self.rt, gone, &mut self.client, request, files)
    }
}

impl<'a, B: Node, R: Wait> Host for SharedHost<'a, B, R> {
    ghost use Rattle.runner.specs.Shared.{MayServe};

    ghost may = { MayServe B.filter };

    fn serve(&mut self, request: Request, files: FileAnswers) -> Reply {
        self.runtime
            .serve(self.rt, &mut self.client, request, files)
    }
}

// Lists the cells of a sandbox, with their lock held.
fn tell<B: Node, R: Wait, Q: Asked>(
    rt: &R,
    alloc: Global,
    history: &History<B>,
    list: &SandboxCells<B>,
    me: &mut Client<B>,
    request: &Request,
) -> Option<Reply>
    requires asked { Q.call ≡ request.now.call }
    requires own { list.now.uid ≡ uid_of request.now.call }
    ensures number { IfSome result (λ reply. reply.id ≡ request.now.id) }
    ensures some { IfSome result (λ reply. Grows B.filter me.old
        (Served request.now.call Q.files reply.answer)
        me.new) }
    ensures none { IfNone result (me.new ≡ me.old) }
{
    let (mut listed, loan) = list.lock.take(rt);
    let reply = listed.tell::<Q>(alloc, history, me, request);
    list.lock.put_back(listed, loan);
    reply
}

fn serve<B: Node, R: Wait, Q: Asked>(
    rt: &R,
    alloc: Global,
    history: &History<B>,
    registered: &mut Registered<B>,
    lists: &mut CellLists<B>,
    due: &mut Due<B>,
    gone: &mut RemovedCells,
    me: &mut Client<B>,
    request: Request,
    files: FileAnswers,
) -> Reply
    requires asked { (Q.call ≡ request.call) × (Q.files ≡ files) }
    requires listed { AreListed registered.old.0 lists.old }
    requires due { AreDue registered.old.1 due.old }
    ensures number { result.id ≡ request.id }
    ensures grows { Grows B.filter me.old (Served request.call files result.answer) me.new }
    ensures listed { AreListed registered.new.0 lists.new }
    ensures due { AreDue registered.new.1 due.new }
{
    if wakes(registered.registry(), &request.call) {
        return wake::<B, Q>(alloc, history, registered, lists, me, request, files);
    }
    if removes(&request.call) {
        return remove::<B, R, Q>(
            rt, alloc, history, registered, lists, gone, me, request, files,
        );
    }
    match lists.get(uid_of(&request.call).as_str()) {
        Some(list) => serve_there::<B, R, Q>(
            rt, history, registered, list, due, gone, me, request, files,
        ),
        None => registered.serve_absent::<Q>(alloc, history, gone, me, request, files),
    }
}

// Adds a started cell to those that rounds visit.
fn serve_there<B: Node, R: Wait, Q: Asked>(
    rt: &R,
    history: &History<B>,
    registered: &mut Registered<B>,
    list: &Arc<SandboxCells<B>, Global>,
    due: &mut Due<B>,
    gone: &mut RemovedCells,
    me: &mut Client<B>,
    request: Request,
    files: FileAnswers,
) -> Reply
    requires asked { (Q.call ≡ request.call) × (Q.files ≡ files) }
    requires own { (arc_value list.now).uid ≡ uid_of request.call }
    requires live { IsLive (stages_in registered.old.0 (uid_of request.call)) }
    requires keeps { Removes request.call → ⊥ }
    requires due { AreDue registered.old.1 due.old }
    ensures number { result.id ≡ request.id }
    ensures grows { Grows B.filter me.old (Served request.call files result.answer) me.new }
    ensures stays { IsLive (stages_in registered.new.0 (uid_of request.call)) }
    ensures others { (u : List ℕ) → u ≢ uid_of request.call → stages_in registered.new.0 u
        ≡ stages_in registered.old.0 u }
    ensures due { AreDue registered.new.1 due.new }
{
    let (mut listed, loan) = list.lock.take(rt);
    let (reply, started) = registered.serve::<Q>(history, &mut listed, gone, me, request, files);
    list.lock.put_back(listed, loan);
    if let Some(id) = started {
        due.put(id, list);
    }
    reply
}

// Whether a call may create a sandbox for a uid that was never named.
fn wakes(registry: &Registry, call: &Call) -> bool
    ensures { IsTrue result ↔ Wakes registry.now call.now }
{
    match call {
        Call::RunPodSandbox { uid } => {
            registry.stage(uid.as_str()) == Stage::Unknown && !registry.is_full()
        }
        _ => false,
    }
}

fn removes(call: &Call) -> bool
    ensures { IsTrue result ↔ Removes call.now }
{
    matches!(call, Call::RemovePodSandbox { .. })
}

fn lists(call: &Call) -> bool {
    matches!(
        call,
        Call::ListContainers { .. } | Call::ContainerStatuses { .. }
    )
}

// The list and its lock are made before the registry is called, and removed again if no sandbox was made.
fn wake<B: Node, Q: Asked>(
    alloc: Global,
    history: &History<B>,
    registered: &mut Registered<B>,
    lists: &mut CellLists<B>,
    me: &mut Client<B>,
    request: Request,
    files: FileAnswers,
) -> Reply
    requires asked { (Q.call ≡ request.call) × (Q.files ≡ files) }
    requires wakes { Wakes registered.old.0 request.call }
    requires listed { AreListed registered.old.0 lists.old }
    ensures number { result.id ≡ request.id }
    ensures grows { Grows B.filter me.old (Served request.call files result.answer) me.new }
    ensures listed { AreListed registered.new.0 lists.new }
    ensures may_run { registered.new.1 ≡ registered.old.1 }
{
    match lists.put(uid_of(&request.call)) {
        Ok((list, blank)) => {
            let (reply, listed) = registered.wake::<Q>(
                alloc, history, me, &list.uid, request, files,
            );
            settle(lists, &list, blank, listed);
            reply
        }
        Err(AllocError) => Reply {
            id: request.id,
            answer: registered.refuse::<Q>(history, me),
        },
    }
}

// Gives an added list its cells, or removes it again.
fn settle<B: Node>(
    lists: &mut CellLists<B>,
    list: &SandboxCells<B>,
    blank: Blank<Listed<B>>,
    listed: Option<Listed<B>>,
)
    requires fits { IfSome listed (λ l. l.0 ≡ list.now.uid) }
    requires blank { blank ≡ list.now.lock.1 }
    requires here { has lists.old list.now.uid ≡ true }
    ensures here { has lists.new list.now.uid ≡ is_some listed }
    ensures others { (u : List ℕ) → u ≢ list.now.uid → has lists.new u ≡ has lists.old u }
{
    match listed {
        Some(listed) => list.lock.fill(listed, blank),
        None => drop(lists.take(list.uid.as_str())),
    }
}

// Removes the list with its sandbox.
fn remove<B: Node, R: Wait, Q: Asked>(
    rt: &R,
    alloc: Global,
    history: &History<B>,
    registered: &mut Registered<B>,
    lists: &mut CellLists<B>,
    gone: &mut RemovedCells,
    me: &mut Client<B>,
    request: Request,
    files: FileAnswers,
) -> Reply
    requires asked { (Q.call ≡ request.call) × (Q.files ≡ files) }
    requires removes { Removes request.call }
    requires listed { AreListed registered.old.0 lists.old }
    ensures number { result.id ≡ request.id }
    ensures grows { Grows B.filter me.old (Served request.call files result.answer) me.new }
    ensures listed { AreListed registered.new.0 lists.new }
    ensures may_run { registered.new.1 ≡ registered.old.1 }
{
    match lists.take(uid_of(&request.call).as_str()) {
        Some(list) => {
            remove_there::<B, R, Q>(rt, history, registered, &list, gone, me, request, files)
        }
        None => registered.serve_absent::<Q>(alloc, history, gone, me, request, files),
    }
}

// Removes an existing sandbox, with its cells' lock held.
fn remove_there<B: Node, R: Wait, Q: Asked>(
    rt: &R,
    history: &History<B>,
    registered: &mut Registered<B>,
    list: &SandboxCells<B>,
    gone: &mut RemovedCells,
    me: &mut Client<B>,
    request: Request,
    files: FileAnswers,
) -> Reply
    requires asked { (Q.call ≡ request.call) × (Q.files ≡ files) }
    requires own { list.now.uid ≡ uid_of request.call }
    requires live { IsLive (stages_in registered.old.0 (uid_of request.call)) }
    requires removes { Removes request.call }
    ensures number { result.id ≡ request.id }
    ensures grows { Grows B.filter me.old (Served request.call files result.answer) me.new }
    ensures removed { IsLive (stages_in registered.new.0 (uid_of request.call)) → ⊥ }
    ensures others { (u : List ℕ) → u ≢ uid_of request.call → stages_in registered.new.0 u
        ≡ stages_in registered.old.0 u }
    ensures may_run { registered.new.1 ≡ registered.old.1 }
{
    let (mut listed, loan) = list.lock.take(rt);
    let (reply, _) = registered.serve::<Q>(history, &mut listed, gone, me, request, files);
    list.lock.put_back(listed, loan);
    reply
}

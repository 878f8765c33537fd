//! The contents of the registry's lock, of the lock of a sandbox's cells, and of a caller.
ghost use Rattle.std.specs.Prelude.{◌≡◌, ◌≢◌, ◌<◌, ℕ, List, [], IfNone, IfOk, IfSome, IsTrue, ◌↔◌};
ghost use Rattle.atomic_table.specs.Seated.{TableId};
ghost use Rattle.cri_msgs.specs.Calls.{uid_of};
ghost use Rattle.cri_msgs.specs.declared.replies.Answer.TheVariants.{Refused};
ghost use Rattle.cri_msgs.specs.declared.refusals.Refusal.TheVariants.{Memory};
ghost use Rattle.registry.specs.declared.stage.Stage.TheVariants.{Unknown};
ghost use Rattle.registry.specs.Kept.{MayStepIn};
ghost use Rattle.registry.specs.Stands.{stages_in};
ghost use Rattle.runtime_history.specs.declared.event.Event.TheVariants.{Served, Stepped};
ghost use Rattle.runtime_history.specs.History.{Grows, IsRunOf, unseen};
ghost use Rattle.runtime_history.specs.Sandboxes.{IsLive, Removes, Wakes, started_by};
ghost use Rattle.runtime_history.specs.Agreed.{with_started};

use crate::event::Seen;
use crate::keyed::Keyed;
use crate::room::{Agreed, Asked, Node, Notes, Token, View};
use crate::starts::{if_done, to_start};
use crate::tokens::{
    cells_part, lend_cells, lend_registry, note_absent, note_new, note_served, note_stepped,
    note_told, registry_part,
};
use atomic_table::Table;
use bpf_verify::Filter;
use creation::FileAnswers;
use cri_msgs::{Answer, Refusal, Reply, Request};
use manifest::Uid;
use registry::{Cells, Registry, RemovedCells, Stage, tell_cells};
use runtime_cell::Did;
use std::alloc::{AllocError, Global};
use std::marker::{Brand, Model, PhantomData};

/// The table of a runtime's history.
#[derive(Drop)]
pub struct History<B: Node> {
    pub(crate) table: Table<(), View, Registry, Agreed, Global>,
    pub(crate) node: PhantomData<B>,
    ghost named: { table.shared.table_id ≡ B.table },
    ghost words: { 0 < table.shared.table_id.words },
    ghost filter: { table.shared.key.baseline ≡ B.filter },
}

/// A caller of a runtime. Contracts see what it knows of the history.
#[derive(Drop)]
pub struct Client<B: Node> {
    pub(crate) token: Token,
    pub(crate) node: PhantomData<B>,
}

impl<B: Node> Model for Client<B> {
    ghost use Rattle.std.specs.Prelude.{◌≡◌, []};
    ghost use Rattle.runtime_history.specs.declared.event.Seen.{Seen};
    ghost use Rattle.runtime_history.specs.History.{IsRunOf};
    ghost use Rattle.runtime_history.specs.Agreed.{reader};

    ghost Value = { Seen };

    ghost view = { λ c. c.token.me.0.seen };

    // All that it has seen is a run.
    ghost invariant = { λ c. (c.token.table_id ≡ B.table) × (c.token.me ≡ (reader c.token.me.0.seen, []))
        × IsRunOf B.filter c.token.me.0.seen.all };
}

/// The contents of the registry's lock. Contracts see the registry, and ids among which are those of all
/// running cells.
#[derive(Drop)]
pub struct Registered<B: Node> {
    pub(crate) token: Token,
    pub(crate) registry: Registry,
    pub(crate) node: PhantomData<B>,
}

impl<B: Node> Model for Registered<B> {
    ghost use Rattle.std.specs.Prelude.{◌≡◌, ℕ, List, []};
    ghost use Rattle.registry.specs.declared.registry.Registry.{Registry};
    ghost use Rattle.runtime_history.specs.Agreed.{keeper, started_in};

    ghost Value = { Registry × List ℕ };

    ghost view = { λ r. (r.registry, started_in r.token.me.0.registry) };

    ghost invariant = { λ r. (r.token.table_id ≡ B.table)
        × (r.token.me ≡ (keeper r.registry (started_in r.token.me.0.registry), [])) };
}

/// The contents of the lock of a sandbox's cells. Contracts see the uid and the cells.
#[derive(Drop)]
pub struct Listed<B: Node> {
    pub(crate) token: Token,
    pub(crate) cells: Cells,
    node: PhantomData<B>,
}

impl<B: Node> Model for Listed<B> {
    ghost use Rattle.std.specs.Prelude.{◌≡◌, ℕ, List, []};
    ghost use Rattle.runtime_cell.specs.Cell.{Cell};
    ghost use Rattle.runtime_history.specs.Agreed.{holder, uid_by};

    ghost Value = { List ℕ × List Cell };

    ghost view = { λ l. (uid_by l.token.me.0.cells, l.cells) };

    ghost invariant = { λ l. (l.token.table_id ≡ B.table)
        × (l.token.me ≡ (holder (uid_by l.token.me.0.cells) l.cells, [])) };
}

/// They fit the uid of their sandbox.
impl<B: Node> Keyed for Listed<B> {
    ghost use Rattle.std.specs.Prelude.{◌≡◌};

    ghost fits = { λ uid listed. listed.0 ≡ uid };
}

impl<B: Node> History<B> {
    pub(crate) fn notes(&self) -> &Notes
        ensures { (result.now.table_id ≡ B.table) × (0 < result.now.table_id.words)
            × (result.now.key.baseline ≡ B.filter) }
    {
        &self.table.shared
    }
}

impl<B: Node> Client<B> {
    /// What it has seen is a run.
    pub(crate) fn is_run(&self)
        ensures { IsRunOf B.filter self.now.all }
    {
        let _token = &self.token;
    }
}

impl<B: Node> Registered<B> {
    /// The registry.
    pub fn registry(&self) -> &Registry
        ensures { result.now ≡ self.now.0 }
    {
        &self.registry
    }

    /// Serves a request with the cells of its existing sandbox. Also returns the id of the cell that was
    /// started, or that was started before.
    #[tactic(auto, using(crate::proofs::Stages::live_still))]
    pub fn serve<Q: Asked>(
        &mut self,
        history: &History<B>,
        listed: &mut Listed<B>,
        gone: &mut RemovedCells,
        me: &mut Client<B>,
        request: Request,
        files: FileAnswers,
    ) -> (Reply, Option<u64>)
        requires asked { (Q.call ≡ request.call) × (Q.files ≡ files) }
        requires own { listed.old.0 ≡ uid_of request.call }
        requires live { IsLive (stages_in self.old.0 (uid_of request.call)) }
        ensures number { result.0.id ≡ request.id }
        ensures grows { Grows B.filter me.old (Served request.call files result.0.answer) me.new }
        ensures started { result.1 ≡ started_by request.call result.0.answer listed.old.1 }
        ensures may_run { self.new.1 ≡ with_started result.1 self.old.1 }
        ensures uid { listed.new.0 ≡ listed.old.0 }
        ensures removed { Removes request.call → IsLive (stages_in self.new.0 (uid_of request.call)) → ⊥ }
        ensures stays { (Removes request.call → ⊥) → IsLive (stages_in self.new.0 (uid_of request.call)) }
        ensures others { (u : List ℕ) → u ≢ uid_of request.call
            → stages_in self.new.0 u ≡ stages_in self.old.0 u }
    {
        let notes = history.notes();
        lend_registry(notes, &mut me.token, &mut self.token);
        lend_cells(notes, &mut me.token, &mut listed.token);
        let to_start = to_start(&request.call, &listed.cells);
        let reply = self
            .registry
            .serve_lent(&mut listed.cells, gone, request, files);
        let started = if_done(&reply.answer, to_start);
        note_served::<Brand, Q>(
            notes,
            &mut me.token,
            &self.registry,
            started,
            &listed.cells,
            &reply.answer,
        );
        listed.token = cells_part(notes, &mut me.token);
        self.token = registry_part(notes, &mut me.token);
        (reply, started)
    }

    /// Serves a request that names no existing sandbox, and makes none.
    pub fn serve_absent<Q: Asked>(
        &mut self,
        alloc: Global,
        history: &History<B>,
        gone: &mut RemovedCells,
        me: &mut Client<B>,
        request: Request,
        files: FileAnswers,
    ) -> Reply
        requires asked { (Q.call ≡ request.call) × (Q.files ≡ files) }
        requires dead { IsLive (stages_in self.old.0 (uid_of request.call)) → ⊥ }
        requires makes_none { Wakes self.old.0 request.call → ⊥ }
        ensures number { result.id ≡ request.id }
        ensures grows { Grows B.filter me.old (Served request.call files result.answer) me.new }
        ensures stays { IsLive (stages_in self.new.0 (uid_of request.call)) → ⊥ }
        ensures others { (u : List ℕ) → u ≢ uid_of request.call
            → stages_in self.new.0 u ≡ stages_in self.old.0 u }
        ensures may_run { self.new.1 ≡ self.old.1 }
    {
        let notes = history.notes();
        let mut none = Cells::new(alloc);
        lend_registry(notes, &mut me.token, &mut self.token);
        let reply = self.registry.serve_lent(&mut none, gone, request, files);
        note_absent::<Brand, Q>(notes, &mut me.token, &self.registry, &reply.answer);
        self.token = registry_part(notes, &mut me.token);
        reply
    }

    /// Serves a request that may make a sandbox of this uid, and returns the contents for the lock of its
    /// cells. `None` if memory ran out, and there is no sandbox.
    pub fn wake<Q: Asked>(
        &mut self,
        alloc: Global,
        history: &History<B>,
        me: &mut Client<B>,
        uid: &Uid,
        request: Request,
        files: FileAnswers,
    ) -> (Reply, Option<Listed<B>>)
        requires asked { (Q.call ≡ request.call) × (Q.files ≡ files) }
        requires own { uid.now ≡ uid_of request.call }
        requires wakes { Wakes self.old.0 request.call }
        ensures number { result.0.id ≡ request.id }
        ensures grows { Grows B.filter me.old (Served request.call files result.0.answer) me.new }
        ensures made { IfSome result.1 (λ listed. (listed.0 ≡ uid.now)
            × IsLive (stages_in self.new.0 uid.now)) }
        ensures none { IfNone result.1 (IsLive (stages_in self.new.0 uid.now) → ⊥) }
        ensures others { (u : List ℕ) → u ≢ uid.now → stages_in self.new.0 u ≡ stages_in self.old.0 u }
        ensures may_run { self.new.1 ≡ self.old.1 }
    {
        let notes = history.notes();
        let mut cells = Cells::new(alloc);
        let mut gone = RemovedCells::new(alloc);
        lend_registry(notes, &mut me.token, &mut self.token);
        let reply = self
            .registry
            .serve_lent(&mut cells, &mut gone, request, files);
        if !is_live(self.registry.stage(uid.as_str())) {
            note_absent::<Brand, Q>(notes, &mut me.token, &self.registry, &reply.answer);
            self.token = registry_part(notes, &mut me.token);
            return (reply, None);
        }
        note_new::<Brand, Q>(notes, &mut me.token, &self.registry, &cells, &reply.answer);
        let token = cells_part(notes, &mut me.token);
        self.token = registry_part(notes, &mut me.token);
        let listed = Listed {
            token,
            cells,
            node: PhantomData,
        };
        (reply, Some(listed))
    }

    /// Refuses a request that might have made a sandbox, because memory ran out.
    pub fn refuse<Q: Asked>(&mut self, history: &History<B>, me: &mut Client<B>) -> Answer
        requires wakes { Wakes self.old.0 Q.call }
        ensures answer { result ≡ Refused Memory }
        ensures grows { Grows B.filter me.old (Served Q.call Q.files result) me.new }
        ensures same { self.new ≡ self.old }
    {
        let notes = history.notes();
        let answer = Answer::Refused(Refusal::Memory);
        lend_registry(notes, &mut me.token, &mut self.token);
        note_absent::<Brand, Q>(notes, &mut me.token, &self.registry, &answer);
        self.token = registry_part(notes, &mut me.token);
        answer
    }
}

fn is_live(stage: Stage) -> bool
    ensures { IsTrue result ↔ IsLive stage }
{
    match stage {
        Stage::Live { .. } => true,
        Stage::Unknown | Stage::Removed => false,
    }
}

impl<B: Node> Listed<B> {
    /// The cells.
    pub fn cells(&self) -> &Cells
        ensures { result.now ≡ self.now.1 }
    {
        &self.cells
    }

    /// Steps the cell with this id. `None` if it is not there, and then nothing happened.
    pub fn step(&mut self, history: &History<B>, me: &mut Client<B>, id: u64) -> Option<Did>
        ensures uid { self.new.0 ≡ self.old.0 }
        ensures some { IfSome result (λ did. Grows B.filter me.old (Stepped id did) me.new) }
        ensures none { IfNone result (me.new ≡ me.old) }
        ensures moves { MayStepIn self.old.1 id result self.new.1 }
    {
        let did = self.cells.step(id)?;
        let notes = history.notes();
        lend_cells(notes, &mut me.token, &mut self.token);
        note_stepped::<Brand>(notes, &mut me.token, id, did, &self.cells);
        self.token = cells_part(notes, &mut me.token);
        Some(did)
    }

    /// The reply to a request that lists these cells. `None` for any other request.
    pub fn tell<Q: Asked>(
        &mut self,
        alloc: Global,
        history: &History<B>,
        me: &mut Client<B>,
        request: &Request,
    ) -> Option<Reply>
        requires asked { Q.call ≡ request.now.call }
        requires own { self.old.0 ≡ uid_of request.now.call }
        ensures number { IfSome result (λ reply. reply.id ≡ request.now.id) }
        ensures some { IfSome result (λ reply. Grows B.filter me.old
            (Served request.now.call Q.files reply.answer)
            me.new) }
        ensures none { IfNone result (me.new ≡ me.old) }
        ensures same { self.new ≡ self.old }
    {
        let answer = tell_cells(alloc, &request.call, &self.cells)?;
        let notes = history.notes();
        lend_cells(notes, &mut me.token, &mut self.token);
        note_told::<Brand, Q>(notes, &mut me.token, &self.cells, &answer);
        self.token = cells_part(notes, &mut me.token);
        Some(Reply {
            id: request.id,
            answer,
        })
    }
}

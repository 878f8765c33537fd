//! Runners: each steps the cells of its share, round after round.
ghost use Rattle.std.specs.Prelude.{◌≡◌, ◌<◌, ◌++◌, ◌∷◌, ℕ, IfNone, IfSome, IsSome, List, Option, None, Some};
ghost use Rattle.std.specs.Prelude.{if◌then◌else◌, option_map};
ghost use Rattle.std.specs.Arc.{arc_value};
ghost use Rattle.runtime_cell.specs.declared.cell.Did.{Did};
ghost use Rattle.registry.specs.Kept.{IsNextIn, MayStepIn, home_in};
ghost use Rattle.registry.specs.Runtime.{In};
ghost use Rattle.runtime_history.specs.declared.event.Event.TheVariants.{Stepped};
ghost use Rattle.runtime_history.specs.History.{Grows, Looks};
ghost use Rattle.runtime_history.specs.Agreed.{IsHome, without};
ghost use Rattle.runner.specs.Labelled.{AreDue, of_share, visited};
ghost use Rattle.runner.specs.Rounds.{Asked, IsNotPassed, IsOwn, IsRound, MayVisit, StepsAt, moves_on};
ghost use Rattle.runner.specs.Shared.{AreListed};

use crate::due::Due;
use crate::lists::CellLists;
use crate::sandbox::SandboxCells;
use crate::shared::{Sandboxes, SharedRuntime};
use registry::Registry;
use runtime_cell::{Cell, Did};
use runtime_history::{Client, History, Listed, Node, Registered};
use std::alloc::Global;
use std::sync::{Arc, Wait};

/// Hooks around each step of a cell, called with the lock of the cell's sandbox held. Tests delay a step
/// there, and a runtime that writes records reads the cells that ended.
pub trait StepGate {
    /// Called before the step of the cell with this id.
    fn before(&self, id: u64);

    /// Called after the step.
    fn after(&self, id: u64);

    /// Called after a step that ended a cell of the sandbox with this uid.
    fn ended(&self, uid: &str, cell: &Cell);
}

/// Delays no step.
#[derive(Clone, Copy)]
pub struct Open;

impl StepGate for Open {
    fn before(&self, _id: u64) {}

    fn after(&self, _id: u64) {}

    fn ended(&self, _uid: &str, _cell: &Cell) {}
}

/// The result of a visit: the id of the visited cell, and whether it went on.
#[derive(Clone, Copy)]
pub(crate) struct Visit {
    pub(crate) id: u64,
    pub(crate) went_on: bool,
}

/// Picks the next cell of a round, and steps it.
pub(crate) trait Visits<B: Node> {
    // The runner's number, and how many there are.
    ghost runner: { Self → ℕ };

    ghost runners: { Self → ℕ };

    // What was asked for so far, the latest first. None if that is not kept.
    ghost asked: { Self → Option (List Asked) } = { λ _. None };

    /// Steps a cell of the runner's share above this id, and skips no running one. `None` if none runs.
    fn visit(&mut self, me: &mut Client<B>, above: u64) -> Option<Visit>
        ensures may { MayVisit B.filter (runner self.old) (runners self.old)
            (record { above = above; visit = result; old = me.old; new = me.new }) }
        ensures runner { runner self.new ≡ runner self.old }
        ensures runners { runners self.new ≡ runners self.old }
        ensures asked { asked self.new ≡ option_map (λ before. record {
          above = above;
          visit = result;
          old = me.old;
          new = me.new;
        } ∷ before) (asked self.old) };
}

// A round: asks for a visit above the id of the last one, until there is none. Returns whether a cell went
// on.
fn round<B: Node, V: Visits<B>>(visits: &mut V, me: &mut Client<B>) -> bool
    ensures { (asked : List Asked)
        × IsRound B.filter (V.runner visits.old) (V.runners visits.old) me.old asked result me.new
        × (V.asked visits.new ≡ option_map (λ before. asked ++ before) (V.asked visits.old)) }
{
    let mut last = 0;
    let mut went_on = false;
    while let Some(visit) = visits.visit(me, last) {
        last = visit.id;
        went_on = went_on || visit.went_on;
    }
    went_on
}

// A step that a round owes. It is neither copied nor dropped, so it is done once.
struct NextCell<B: Node> {
    id: u64,
    // The list that has the cell. `None` if a reference to it can't be taken.
    list: Option<Arc<SandboxCells<B>, Global>>,
}

impl<B: Node> SharedRuntime<B> {
    /// A round of one of `runners` runners, which are numbered from 0: each running cell whose id modulo
    /// `runners` is `runner` is stepped once, in the order of ids, each in its own critical section. Takes
    /// no memory, and returns whether a cell went on.
    pub fn step_round<R: Wait, G: StepGate>(
        &self,
        rt: &R,
        me: &mut Client<B>,
        runner: u64,
        runners: u64,
        gate: &G,
    ) -> bool
        requires { runner < runners }
        ensures { (asked : List Asked) × IsRound B.filter runner runners me.old asked result me.new }
    {
        let mut visits = RunnerVisits {
            rt,
            runtime: self,
            gate,
            runner,
            runners,
            over: None,
        };
        round(&mut visits, me)
    }

    // The runner's next step, above this id. A cell that was found ended is not visited again.
    fn next_cell<R: Wait>(
        &self,
        rt: &R,
        me: &mut Client<B>,
        above: u64,
        runner: u64,
        runners: u64,
        over: Option<u64>,
    ) -> Option<NextCell<B>>
        requires { runner < runners }
        ensures own { IsOwn runner runners above (option_map (λ next. next.id) result) }
        ensures looks { Looks B.filter me.old
            (IsNotPassed runner runners above (option_map (λ next. next.id) result)) me.new }
    {
        let mut sandboxes = self.sandboxes.lock(rt);
        sandboxes.next(&self.history, me, above, runner, runners, over)
    }

    // Does a step that is owed, and returns its result. `None` if no cell with its id runs.
    fn step<R: Wait, G: StepGate>(
        &self,
        rt: &R,
        me: &mut Client<B>,
        next: NextCell<B>,
        gate: &G,
    ) -> Option<Did>
        ensures { StepsAt B.filter next.id result me.old me.new }
    {
        let id = next.id;
        match step_listed(rt, &self.history, me, next, gate) {
            Some(did) => Some(did),
            None => self.step_home(rt, me, id, gate),
        }
    }

    // The same with the registry's lock held, so that the cell can't leave its sandbox meanwhile.
    fn step_home<R: Wait, G: StepGate>(
        &self,
        rt: &R,
        me: &mut Client<B>,
        id: u64,
        gate: &G,
    ) -> Option<Did>
        ensures { StepsAt B.filter id result me.old me.new }
    {
        let mut sandboxes = self.sandboxes.lock(rt);
        sandboxes.step(rt, &self.history, me, id, gate)
    }
}

// The visits of one of a shared runtime's runners. What was asked is not kept.
#[derive(Drop)]
struct RunnerVisits<'a, B: Node, R: Wait, G: StepGate> {
    rt: &'a R,
    runtime: &'a SharedRuntime<B>,
    gate: &'a G,
    runner: u64,
    runners: u64,
    // The cell that the last visit found ended.
    over: Option<u64>,
    ghost fit: { runner < runners },
}

impl<'a, B: Node, R: Wait, G: StepGate> Visits<B> for RunnerVisits<'a, B, R, G> {
    ghost runner = { λ v. v.runner };

    ghost runners = { λ v. v.runners };

    fn visit(&mut self, me: &mut Client<B>, above: u64) -> Option<Visit> {
        let next = self
            .runtime
            .next_cell(self.rt, me, above, self.runner, self.runners, self.over)?;
        let id = next.id;
        let did = self.runtime.step(self.rt, me, next, self.gate);
        self.over = if is_over(did) { Some(id) } else { None };
        Some(Visit {
            id,
            went_on: goes_on(did),
        })
    }
}

impl<B: Node> Sandboxes<B> {
    // The runner's next step above this id. Skips no running cell of its share.
    fn next(
        &mut self,
        history: &History<B>,
        me: &mut Client<B>,
        above: u64,
        runner: u64,
        runners: u64,
        over: Option<u64>,
    ) -> Option<NextCell<B>>
        requires { runner < runners }
        ensures own { IsOwn runner runners above (option_map (λ next. next.id) result) }
        ensures looks { Looks B.filter me.old
            (IsNotPassed runner runners above (option_map (λ next. next.id) result)) me.new }
    {
        if let Some(id) = over {
            self.forget(history, id);
        }
        self.look(history, me);
        self.next_cell(above, runner, runners)
    }

    // Excludes a cell from rounds, if it has ended or is gone.
    fn forget(&mut self, history: &History<B>, id: u64) {
        forget(history, &mut self.registered, &mut self.due, id);
    }

    // Sees all of the history. Rounds visit each cell that runs then.
    fn look(&mut self, history: &History<B>, me: &mut Client<B>)
        ensures { Looks B.filter me.old (λ id. IsSome (home_in
            (visited self.new.registered.0.homes self.new.due) id)) me.new }
    {
        self.registered.look(history, me);
    }

    // The step of the share's least id above this one.
    #[tactic(auto, using(crate::proofs::Shares::next_is_own, crate::proofs::Shares::next_is_none, crate::proofs::Shares::next_is_passed))]
    fn next_cell(&self, above: u64, runner: u64, runners: u64) -> Option<NextCell<B>>
        requires { runner < runners }
        ensures { IsNextIn (of_share runner runners (home_in
            (visited self.now.registered.0.homes self.now.due)))
            above (option_map (λ next. next.id) result) }
    {
        let mut last = above;
        while let Some(id) = self.next_id(last) {
            if id % runners == runner {
                let list = self.list_of(id);
                return Some(NextCell { id, list });
            }
            last = id;
        }
        None
    }

    // The least id above this one that rounds visit.
    fn next_id(&self, above: u64) -> Option<u64>
        ensures { IsNextIn (home_in (visited self.now.registered.0.homes self.now.due)) above result }
    {
        if self.due.lacks() {
            self.registered.registry().next_id(above)
        } else {
            self.due.next(above)
        }
    }

    fn step<R: Wait, G: StepGate>(
        &mut self,
        rt: &R,
        history: &History<B>,
        me: &mut Client<B>,
        id: u64,
        gate: &G,
    ) -> Option<Did>
        ensures { StepsAt B.filter id result me.old me.new }
    {
        let (registered, lists) = (&mut self.registered, &self.lists);
        step_home(rt, history, registered, lists, me, id, gate)
    }

    // The list that has the cell with this id.
    fn list_of(&self, id: u64) -> Option<Arc<SandboxCells<B>, Global>> {
        if let Some(list) = self.due.get(id) {
            return Arc::try_clone(list).ok();
        }
        let uid = self.registered.registry().home(id)?;
        let list = self.lists.get(uid)?;
        Arc::try_clone(list).ok()
    }
}

// A cell that has ended or is gone is not visited again. It stays while another thread has its sandbox's
// cells, so that no thread waits for these with the registry's lock held.
fn forget<B: Node>(history: &History<B>, registered: &mut Registered<B>, due: &mut Due<B>, id: u64)
    requires due { AreDue registered.old.1 due.old }
    ensures registry { registered.new.0 ≡ registered.old.0 }
    ensures due { AreDue registered.new.1 due.new }
{
    let is_over = forget_in(history, registered, due.get(id), id);
    if is_over {
        due.remove(id);
    }
}

fn forget_in<B: Node>(
    history: &History<B>,
    registered: &mut Registered<B>,
    list: Option<&Arc<SandboxCells<B>, Global>>,
    id: u64,
) -> bool
    ensures registry { registered.new.0 ≡ registered.old.0 }
    ensures may_run { registered.new.1 ≡ (if result then without id registered.old.1 else registered.old.1) }
{
    let Some(list) = list else {
        return false;
    };
    let Some((mut listed, loan)) = list.lock.try_take() else {
        return false;
    };
    let is_over = registered.forget(history, &mut listed, id);
    list.lock.put_back(listed, loan);
    is_over
}

// Does a step that is owed, under the lock of its list alone. `None` if it has no such cell now.
fn step_listed<B: Node, R: Wait, G: StepGate>(
    rt: &R,
    history: &History<B>,
    me: &mut Client<B>,
    next: NextCell<B>,
    gate: &G,
) -> Option<Did>
    ensures some { IfSome result (λ did. Grows B.filter me.old (Stepped next.id did) me.new) }
    ensures none { IfNone result (me.new ≡ me.old) }
{
    let NextCell { id, list } = next;
    let list = list?;
    let (mut listed, loan) = list.lock.take(rt);
    let did = step_in(history, me, &mut listed, id, list.uid.as_str(), gate);
    list.lock.put_back(listed, loan);
    did
}

// Steps the cell with this id, if it is in a sandbox.
fn step_home<B: Node, R: Wait, G: StepGate>(
    rt: &R,
    history: &History<B>,
    registered: &mut Registered<B>,
    lists: &CellLists<B>,
    me: &mut Client<B>,
    id: u64,
    gate: &G,
) -> Option<Did>
    requires { AreListed registered.old.0 lists.now }
    ensures registry { registered.new.0 ≡ registered.old.0 }
    ensures may_run { (i : ℕ) → In i registered.new.1 → In i registered.old.1 }
    ensures steps { StepsAt B.filter id result me.old me.new }
{
    match home(registered.registry(), lists, id) {
        Some(list) => step_there(rt, history, registered, list, me, id, gate),
        None => {
            registered.look(history, me);
            None
        }
    }
}

// The list of the sandbox that has the cell with this id.
fn home<'l, B: Node>(
    registry: &Registry,
    lists: &'l CellLists<B>,
    id: u64,
) -> Option<&'l Arc<SandboxCells<B>, Global>>
    requires { AreListed registry.now lists.now }
    ensures some { IfSome result (λ list. home_in registry.now.homes id ≡ Some (arc_value list.now).uid) }
    ensures none { IfNone result ((uid : List ℕ) → IsHome registry.now id uid → ⊥) }
{
    let uid = registry.home(id)?;
    lists.get(uid)
}

fn step_there<B: Node, R: Wait, G: StepGate>(
    rt: &R,
    history: &History<B>,
    registered: &mut Registered<B>,
    list: &Arc<SandboxCells<B>, Global>,
    me: &mut Client<B>,
    id: u64,
    gate: &G,
) -> Option<Did>
    requires { home_in registered.old.0.homes id ≡ Some (arc_value list.now).uid }
    ensures registry { registered.new.0 ≡ registered.old.0 }
    ensures may_run { (i : ℕ) → In i registered.new.1 → In i registered.old.1 }
    ensures steps { StepsAt B.filter id result me.old me.new }
{
    let (mut listed, loan) = list.lock.take(rt);
    let uid = list.uid.as_str();
    let did = step_known(history, registered, me, &mut listed, id, uid, gate);
    list.lock.put_back(listed, loan);
    did
}

// The step of a cell that can only be in this list.
fn step_known<B: Node, G: StepGate>(
    history: &History<B>,
    registered: &mut Registered<B>,
    me: &mut Client<B>,
    listed: &mut Listed<B>,
    id: u64,
    uid: &str,
    gate: &G,
) -> Option<Did>
    requires { home_in registered.old.0.homes id ≡ Some listed.old.0 }
    ensures uid { listed.new.0 ≡ listed.old.0 }
    ensures registry { registered.new.0 ≡ registered.old.0 }
    ensures may_run { (i : ℕ) → In i registered.new.1 → In i registered.old.1 }
    ensures steps { StepsAt B.filter id result me.old me.new }
{
    match step_in(history, me, listed, id, uid, gate) {
        Some(did) => Some(did),
        None => {
            registered.lose(history, listed, id);
            registered.look(history, me);
            None
        }
    }
}

// The critical section of a step.
fn step_in<B: Node, G: StepGate>(
    history: &History<B>,
    me: &mut Client<B>,
    listed: &mut Listed<B>,
    id: u64,
    uid: &str,
    gate: &G,
) -> Option<Did>
    ensures uid { listed.new.0 ≡ listed.old.0 }
    ensures some { IfSome result (λ did. Grows B.filter me.old (Stepped id did) me.new) }
    ensures none { IfNone result (me.new ≡ me.old) }
    ensures moves { MayStepIn listed.old.1 id result listed.new.1 }
{
    gate.before(id);
    let did = listed.step(history, me, id);
    gate.after(id);
    if let Some(Did::Ended(_)) = did {
        show_end(listed, id, uid, gate);
    }
    did
}

// Passes the cell that a step ended to the gate.
fn show_end<B: Node, G: StepGate>(listed: &Listed<B>, id: u64, uid: &str, gate: &G) {
    if let Some(cell) = listed.cells().get(id) {
        gate.ended(uid, cell);
    }
}

// Whether a cell that was started has ended, or is gone.
fn is_over(did: Option<Did>) -> bool {
    match did {
        None | Some(Did::Idle | Did::Ended(_)) => true,
        Some(Did::Performed | Did::Denied(_)) => false,
    }
}

// Whether a step did something.
fn goes_on(did: Option<Did>) -> bool
    ensures { result ≡ moves_on did }
{
    match did {
        None | Some(Did::Idle) => false,
        Some(Did::Performed | Did::Denied(_) | Did::Ended(_)) => true,
    }
}

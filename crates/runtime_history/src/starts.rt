//! Which cells may run: those that were started, except for some that were found ended or gone.
ghost use Rattle.std.specs.Prelude.{◌≡◌, ℕ, IsTrue, List, Some, find, if◌then◌else◌, option_map};
ghost use Rattle.runtime_cell.specs.declared.cell.State.TheVariants.{Running};
ghost use Rattle.registry.specs.Kept.{HasNoneIn, home_in};
ghost use Rattle.registry.specs.Runtime.{id_of, is_of};
ghost use Rattle.runtime_history.specs.History.{Looks};
ghost use Rattle.runtime_history.specs.Sandboxes.{if_done, to_start};
ghost use Rattle.runtime_history.specs.Agreed.{IsOver, MayRun, without};

use crate::parts::{Client, History, Listed, Registered};
use crate::room::Node;
use crate::tokens::{cells_part, forget, lend_cells, lend_registry, registry_part, see};
use cri_msgs::{Answer, Call, ContainerMetadata};
use registry::{Cells, Registry};
use runtime_cell::{Cell, State};
use std::marker::Brand;

impl<B: Node> Registered<B> {
    /// Sees all of the history, and adds nothing to it. Each cell that runs then is there, and among those
    /// that may run.
    pub fn look(&mut self, history: &History<B>, me: &mut Client<B>)
        ensures same { self.new ≡ self.old }
        ensures looks { Looks B.filter me.old (MayRun self.old.0 self.old.1) me.new }
    {
        let notes = history.notes();
        lend_registry(notes, &mut me.token, &mut self.token);
        see::<B>(notes, &mut me.token);
        self.token = registry_part(notes, &mut me.token);
    }

    /// Takes the cell with this id out of those that may run, if it has ended or is gone, and returns whether
    /// it has. A cell of another sandbox stays.
    pub fn forget(&mut self, history: &History<B>, listed: &mut Listed<B>, id: u64) -> bool
        ensures listed { listed.new ≡ listed.old }
        ensures registry { self.new.0 ≡ self.old.0 }
        ensures may_run { self.new.1 ≡ (if result then without id self.old.1 else self.old.1) }
    {
        if !is_over(&self.registry, &listed.cells, id) {
            return false;
        }
        let notes = history.notes();
        lend_cells(notes, &mut self.token, &mut listed.token);
        forget::<Brand>(notes, &mut self.token, &self.registry, &listed.cells, id);
        listed.token = cells_part(notes, &mut self.token);
        true
    }

    /// Takes the cell with this id out of those that may run: these are the cells of its sandbox, and it is
    /// not among them.
    pub fn lose(&mut self, history: &History<B>, listed: &mut Listed<B>, id: u64)
        requires home { home_in self.old.0.homes id ≡ Some listed.old.0 }
        requires none { HasNoneIn listed.old.1 id }
        ensures listed { listed.new ≡ listed.old }
        ensures registry { self.new.0 ≡ self.old.0 }
        ensures may_run { self.new.1 ≡ without id self.old.1 }
    {
        let notes = history.notes();
        lend_cells(notes, &mut self.token, &mut listed.token);
        forget::<Brand>(notes, &mut self.token, &self.registry, &listed.cells, id);
        listed.token = cells_part(notes, &mut self.token);
    }
}

// Whether no cell with this id runs, as far as the cells of one sandbox show.
fn is_over(registry: &Registry, cells: &Cells, id: u64) -> bool
    ensures { (uid : List ℕ) → IsTrue result → IsOver registry.now uid cells.now id }
{
    match cells.get(id) {
        Some(cell) => !runs(cell),
        None => registry.home(id).is_none(),
    }
}

fn runs(cell: &Cell) -> bool
    ensures { cell.now.state ≡ Running → IsTrue result }
{
    match cell.state() {
        State::Running => true,
        State::Created | State::Exited { .. } => false,
    }
}

// The id of the cell that a call would start, if it is there.
pub(crate) fn to_start(call: &Call, cells: &Cells) -> Option<u64>
    ensures { result ≡ to_start call.now cells.now }
{
    match call {
        Call::StartContainer { key } => id_of(cells.as_slice(), &key.container),
        _ => None,
    }
}

fn id_of(cells: &[Cell], container: &ContainerMetadata) -> Option<u64>
    ensures { result ≡ option_map id_of (find (is_of container.now) cells.now) }
{
    let cell = cells.iter().find(|cell| is_of(container, cell))?;
    Some(cell.label().id)
}

fn is_of(container: &ContainerMetadata, cell: &Cell) -> bool
    ensures { result ≡ is_of container.now cell.now }
{
    let label = cell.label();
    container.name.as_str() == label.name.as_str() && container.attempt == label.attempt
}

pub(crate) fn if_done(answer: &Answer, id: Option<u64>) -> Option<u64>
    ensures { result ≡ if_done answer.now id }
{
    match answer {
        Answer::Done => id,
        _ => None,
    }
}

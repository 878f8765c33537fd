//! The cells of a sandbox.
ghost use Rattle.std.specs.Prelude.{◌≡◌, ◌⊎◌, ◌-◌, ◌==◌, ◌<◌, ◌++◌, ◌∷◌, ◌≤◌, [], List, IfNone, IfSome};
ghost use Rattle.std.specs.Prelude.{IsTrue, OnOk, OnErr, length, map, take, find, option_copied, option_map};
ghost use Rattle.std.specs.Prelude.{position};
ghost use Rattle.manifest.specs.Texts.{is_label};
ghost use Rattle.runtime_cell.specs.Cell.{Cell, killed, started};
ghost use Rattle.registry.specs.declared.limits.TheConstants.{MAX_CELLS};
ghost use Rattle.registry.specs.Runtime.{change_first, drop_first, id_of, is_of};
ghost use Rattle.registry.specs.Kept.{AreNamed, HasNoneIn, IsAtPlace, MayKillIn, MayStepIn, ReadsIn};

use crate::limits::MAX_CELLS;
use cri_msgs::ContainerMetadata;
use runtime_cell::{Cell, Did, State};
use std::alloc::{AllocError, Global};
use std::marker::Model;

/// The cells of a sandbox, at most [`MAX_CELLS`], in the order in which they were made. Contracts see the
/// list.
#[derive(Drop)]
pub struct Cells {
    cells: Vec<Cell>,
}

impl Model for Cells {
    ghost use Rattle.std.specs.Prelude.{◌≤◌, List, length};
    ghost use Rattle.runtime_cell.specs.Cell.{Cell};
    ghost use Rattle.registry.specs.declared.limits.TheConstants.{MAX_CELLS};
    ghost use Rattle.registry.specs.Kept.{AreNamed};

    ghost Value = { List Cell };

    ghost view = { λ c. c.cells.items };

    ghost invariant = { λ c. (length c.cells.items ≤ MAX_CELLS) × AreNamed c.cells.items };
}

impl Cells {
    /// No cells.
    pub fn new(alloc: Global) -> Cells
        ensures { result ≡ [] }
    {
        Cells {
            cells: Vec::new(alloc),
        }
    }

    /// The cells.
    pub fn as_slice(&self) -> &[Cell]
        ensures value { result.now ≡ self.now }
        ensures few { length self.now ≤ MAX_CELLS }
        ensures named { AreNamed self.now }
    {
        self.cells.as_slice()
    }

    /// The cell of a container, if it exists.
    pub(crate) fn of(&self, container: &ContainerMetadata) -> Option<&Cell>
        ensures { option_copied result ≡ find (is_of container.now) self.now }
    {
        self.cells.iter().find(|cell| is_of(container, cell))
    }

    /// The state of a container's cell, if it exists.
    pub(crate) fn state_of(&self, container: &ContainerMetadata) -> Option<State>
        ensures { result ≡ option_map (λ cell. cell.state) (find (is_of container.now) self.now) }
    {
        match self.of(container) {
            Some(cell) => Some(cell.state()),
            None => None,
        }
    }

    /// Starts the cell of a container, if it exists.
    #[tactic(auto, using(crate::proofs::Firsts::length_changed, crate::proofs::Named::named_started))]
    pub(crate) fn start(&mut self, container: &ContainerMetadata)
        ensures { self.new ≡ change_first (is_of container.now) started self.old }
    {
        start_in(&mut self.cells, container);
    }

    /// Ends the cell of a container with the code, if it exists.
    #[tactic(auto, using(crate::proofs::Firsts::length_changed, crate::proofs::Named::named_killed))]
    pub(crate) fn kill(&mut self, container: &ContainerMetadata, code: u8)
        ensures { self.new ≡ change_first (is_of container.now) (killed code) self.old }
    {
        kill_in(&mut self.cells, container, code);
    }

    /// Ends all cells with the code.
    #[tactic(auto, using(crate::proofs::Named::named_ended))]
    pub(crate) fn kill_all(&mut self, code: u8)
        ensures { self.new ≡ map (killed code) self.old }
    {
        kill_each(&mut self.cells, code);
    }

    /// Removes and returns the cell of a container.
    #[tactic(auto, using(crate::proofs::Firsts::length_dropped, crate::proofs::Named::named_dropped))]
    pub(crate) fn remove(&mut self, container: &ContainerMetadata) -> Option<Cell>
        ensures cells { self.new ≡ drop_first (is_of container.now) self.old }
        ensures cell { result ≡ find (is_of container.now) self.old }
        ensures none { IfNone result (self.new ≡ self.old) }
    {
        remove_in(&mut self.cells, container)
    }

    /// Appends a cell. If an allocation fails, the cell is returned.
    #[tactic(auto, using(crate::proofs::Named::named_more))]
    pub(crate) fn push(&mut self, cell: Cell) -> Result<(), AllocError>
        requires few { length self.old < MAX_CELLS }
        requires named { IsTrue (is_label cell.making.label.name) }
        ensures ok { OnOk result (self.new ≡ self.old ++ cell ∷ []) }
        ensures err { OnErr result (self.new ≡ self.old) }
    {
        push_in(&mut self.cells, cell)
    }

    /// Removes the last cell.
    #[tactic(auto, using(crate::proofs::Named::named_fewer))]
    pub(crate) fn pop(&mut self)
        ensures { (cells : List Cell) (cell : Cell) → self.old ≡ cells ++ cell ∷ [] → self.new ≡ cells }
    {
        pop_in(&mut self.cells);
    }

    /// Steps the cell with this id, and returns the result.
    pub fn step(&mut self, id: u64) -> Option<Did>
        ensures moves { MayStepIn self.old id result self.new }
        ensures ids { map id_of self.new ≡ map id_of self.old }
    {
        step_in(&mut self.cells, id)
    }

    /// Ends the cell with this id with the code.
    pub fn kill_id(&mut self, id: u64, code: u8) -> Option<()>
        ensures moves { MayKillIn self.old id code result self.new }
        ensures ids { map id_of self.new ≡ map id_of self.old }
    {
        kill_id_in(&mut self.cells, id, code)
    }

    /// The cell with this id.
    pub fn get(&self, id: u64) -> Option<&Cell>
        ensures { ReadsIn self.now id (option_copied result) }
    {
        get_in(self.cells.as_slice(), id)
    }

    /// Removes all cells.
    pub(crate) fn clear(&mut self)
        ensures { self.new ≡ [] }
    {
        self.cells.clear();
    }
}

/// Whether a cell is that of the container.
fn is_of(container: &ContainerMetadata, cell: &Cell) -> bool
    ensures { result ≡ is_of container.now cell.now }
{
    let label = cell.label();
    container.name.as_str() == label.name.as_str() && container.attempt == label.attempt
}

/// The first place of a container's cell.
fn place_of(cells: &[Cell], container: &ContainerMetadata) -> Option<usize>
    ensures { result ≡ position (is_of container.now) cells.now }
{
    cells.iter().position(|cell| is_of(container, cell))
}

fn kill_each(cells: &mut Vec<Cell>, code: u8)
    ensures { cells.new.items ≡ map (killed code) cells.old.items }
{
    for cell in cells.iter_mut() {
        cell.kill(code);
    }
}

fn start_in(cells: &mut Vec<Cell>, container: &ContainerMetadata)
    ensures { cells.new.items ≡ change_first (is_of container.now) started cells.old.items }
{
    match place_of(cells.as_slice(), container) {
        None => {}
        Some(at) => cells[at].start(),
    }
}

fn kill_in(cells: &mut Vec<Cell>, container: &ContainerMetadata, code: u8)
    ensures { cells.new.items ≡ change_first (is_of container.now) (killed code) cells.old.items }
{
    match place_of(cells.as_slice(), container) {
        None => {}
        Some(at) => cells[at].kill(code),
    }
}

fn remove_in(cells: &mut Vec<Cell>, container: &ContainerMetadata) -> Option<Cell>
    ensures cells { cells.new.items ≡ drop_first (is_of container.now) cells.old.items }
    ensures cell { result ≡ find (is_of container.now) cells.old.items }
    ensures none { IfNone result (cells.new.items ≡ cells.old.items) }
{
    match place_of(cells.as_slice(), container) {
        None => None,
        Some(at) => Some(cells.remove(at)),
    }
}

fn push_in(cells: &mut Vec<Cell>, cell: Cell) -> Result<(), AllocError>
    ensures ok { OnOk result (cells.new.items ≡ cells.old.items ++ cell ∷ []) }
    ensures err { OnErr result (cells.new.items ≡ cells.old.items) }
    ensures grows { (cells.new.items ≡ cells.old.items ++ cell ∷ []) ⊎ (cells.new.items ≡ cells.old.items) }
{
    match cells.push(cell) {
        Ok(()) => Ok(()),
        Err(refused) => {
            drop(refused);
            Err(AllocError)
        }
    }
}

fn pop_in(cells: &mut Vec<Cell>)
    ensures { cells.new.items ≡ take (length cells.old.items - 1) cells.old.items }
{
    drop(cells.pop());
}

/// The place of a cell with this id. Ids rise in the list of a sandbox, so a binary search finds it. If the
/// search does not, a linear one makes sure that it is not there.
fn place_of_id(cells: &[Cell], id: u64) -> Option<usize>
    ensures inside { IfSome result (λ at. at < length cells.now) }
    ensures found { IfSome result (λ at. IsAtPlace cells.now at id) }
    ensures none { IfNone result (HasNoneIn cells.now id) }
{
    match place_by_order(cells, id) {
        Some(at) => Some(at),
        None => place_by_walk(cells, id),
    }
}

fn place_by_order(cells: &[Cell], id: u64) -> Option<usize>
    ensures inside { IfSome result (λ at. at < length cells.now) }
    ensures found { IfSome result (λ at. IsAtPlace cells.now at id) }
{
    let at = cells.partition_point(|cell| cell.label().id < id);
    if at < cells.len() && cells[at].label().id == id {
        Some(at)
    } else {
        None
    }
}

fn place_by_walk(cells: &[Cell], id: u64) -> Option<usize>
    ensures inside { IfSome result (λ at. at < length cells.now) }
    ensures found { IfSome result (λ at. IsAtPlace cells.now at id) }
    ensures none { IfNone result (HasNoneIn cells.now id) }
{
    match first_of_id(cells, id) {
        Some(at) => Some(at),
        None => None,
    }
}

fn first_of_id(cells: &[Cell], id: u64) -> Option<usize>
    ensures { result ≡ position (λ cell. id_of cell == id) cells.now }
{
    cells.iter().position(|cell| cell.label().id == id)
}

fn step_in(cells: &mut Vec<Cell>, id: u64) -> Option<Did>
    ensures moves { MayStepIn cells.old.items id result cells.new.items }
    ensures len { length cells.new.items ≡ length cells.old.items }
    ensures ids { map id_of cells.new.items ≡ map id_of cells.old.items }
    ensures named { AreNamed cells.old.items → AreNamed cells.new.items }
{
    match place_of_id(cells.as_slice(), id) {
        None => None,
        Some(at) => Some(cells[at].step()),
    }
}

fn kill_id_in(cells: &mut Vec<Cell>, id: u64, code: u8) -> Option<()>
    ensures moves { MayKillIn cells.old.items id code result cells.new.items }
    ensures len { length cells.new.items ≡ length cells.old.items }
    ensures ids { map id_of cells.new.items ≡ map id_of cells.old.items }
    ensures named { AreNamed cells.old.items → AreNamed cells.new.items }
{
    match place_of_id(cells.as_slice(), id) {
        None => None,
        Some(at) => {
            cells[at].kill(code);
            Some(())
        }
    }
}

fn get_in(cells: &[Cell], id: u64) -> Option<&Cell>
    ensures { ReadsIn cells.now id (option_copied result) }
{
    match place_of_id(cells, id) {
        None => None,
        Some(at) => Some(&cells[at]),
    }
}

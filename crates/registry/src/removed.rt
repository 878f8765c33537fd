//! What a request removed.
ghost use Rattle.std.specs.Prelude.{◌≡◌, ◌++◌, ◌∷◌, [], option_copied, option_to_list};

use crate::cells::Cells;
use runtime_cell::Cell;
use std::alloc::Global;
use std::marker::Model;
use std::mem;

/// The cells that a request removed: those of a sandbox, or one. A caller that holds locks drops them later.
/// Contracts see the list.
#[derive(Drop)]
pub struct RemovedCells {
    one: Option<Cell>,
    cells: Cells,
}

impl Model for RemovedCells {
    ghost use Rattle.std.specs.Prelude.{◌++◌, List, option_to_list};
    ghost use Rattle.runtime_cell.specs.Cell.{Cell};

    ghost Value = { List Cell };

    ghost view = { λ g. option_to_list g.one ++ g.cells };
}

impl RemovedCells {
    /// No cells.
    pub fn new(alloc: Global) -> RemovedCells
        ensures { result ≡ [] }
    {
        RemovedCells {
            one: None,
            cells: Cells::new(alloc),
        }
    }

    /// The one cell that was removed by itself, if any was, and the cells that went with their sandbox.
    pub fn parts(&self) -> (Option<&Cell>, &[Cell])
        ensures { self.now ≡ option_to_list (option_copied result.0) ++ result.1.now }
    {
        (self.one.as_ref(), self.cells.as_slice())
    }

    /// Takes this cell, in place of those that it had.
    pub(crate) fn put(&mut self, cell: Cell)
        ensures { self.new ≡ cell ∷ [] }
    {
        self.cells.clear();
        self.one = Some(cell);
    }

    /// Takes all of these cells, in place of those that it had.
    pub(crate) fn put_all(&mut self, cells: &mut Cells)
        ensures here { self.new ≡ cells.old }
        ensures left { cells.new ≡ [] }
    {
        self.one = None;
        self.cells.clear();
        mem::swap(cells, &mut self.cells);
    }
}

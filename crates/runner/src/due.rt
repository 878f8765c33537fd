//! The cells that rounds visit.
ghost use Rattle.std.specs.Prelude.{◌≡◌, ◌==◌, ℕ, [], false, if◌then◌else◌, None, OnOk, Some};
ghost use Rattle.std.specs.Arc.{arc_value};
ghost use Rattle.std.specs.BTreeMap.{get};
ghost use Rattle.std.specs.Ordering.{nat_cmp};
ghost use Rattle.registry.specs.Kept.{IsNextIn, home_in};
ghost use Rattle.runner.specs.declared.sandbox.SandboxCells.{SandboxCells};
ghost use Rattle.runner.specs.Labelled.{homes_of};

use crate::sandbox::SandboxCells;
use runtime_history::Node;
use std::alloc::{AllocError, Global};
use std::collections::BTreeMap;
use std::marker::Model;
use std::ops::Bound;
use std::sync::Arc;

/// The started cells that no visit has found ended, by their ids, each with its sandbox's list. Contracts see
/// the ids with the uids, and whether a cell is not kept.
#[derive(Drop)]
pub(crate) struct Due<B: Node> {
    cells: BTreeMap<u64, Arc<SandboxCells<B>, Global>>,
    // Whether memory to keep a cell here ran out: then all existing cells have to be visited.
    lacks: bool,
}

impl<B: Node> Model for Due<B> {
    ghost use Rattle.std.specs.Arc.{arc_value};
    ghost use Rattle.runner.specs.declared.sandbox.SandboxCells.{SandboxCells};
    ghost use Rattle.runner.specs.Labelled.{Visited, homes_of};

    ghost Value = { Visited };

    ghost view = { λ d. record {
      homes = homes_of (λ list.
          (arc_value {X = SandboxCells _} list).uid) d.cells.entries;
      lacks = d.lacks;
    } };
}

impl<B: Node> Due<B> {
    pub(crate) fn new(alloc: Global) -> Due<B>
        ensures { result.homes ≡ [] }
    {
        Due {
            cells: BTreeMap::new(alloc),
            lacks: false,
        }
    }

    /// Adds a cell that was started.
    pub(crate) fn put(&mut self, id: u64, list: &Arc<SandboxCells<B>, Global>)
        ensures kept { self.new.lacks ≡ false → (i : ℕ) → home_in self.new.homes i
            ≡ (if id == i then Some (arc_value {X = SandboxCells _} list.now).uid
            else home_in self.old.homes i) }
        ensures lacks { self.new.lacks ≡ false → self.old.lacks ≡ false }
    {
        if put_in(&mut self.cells, id, list).is_err() {
            self.lacks = true;
        }
    }

    /// Removes a cell that has ended.
    pub(crate) fn remove(&mut self, id: u64)
        ensures kept { (i : ℕ) → home_in self.new.homes i
            ≡ (if id == i then None else home_in self.old.homes i) }
        ensures lacks { self.new.lacks ≡ self.old.lacks }
    {
        drop(self.cells.remove(&id));
    }

    /// Whether some cell is not kept.
    pub(crate) fn lacks(&self) -> bool
        ensures { result ≡ self.now.lacks }
    {
        self.lacks
    }

    /// The list that has the cell with this id.
    pub(crate) fn get(&self, id: u64) -> Option<&Arc<SandboxCells<B>, Global>> {
        self.cells.get(&id)
    }

    /// The least id above this one.
    pub(crate) fn next(&self, above: u64) -> Option<u64>
        ensures { IsNextIn (home_in self.now.homes) above result }
    {
        next_key(&self.cells, above)
    }
}

fn put_in<B: Node>(
    cells: &mut BTreeMap<u64, Arc<SandboxCells<B>, Global>>,
    id: u64,
    list: &Arc<SandboxCells<B>, Global>,
) -> Result<(), AllocError>
    ensures { OnOk result ((i : ℕ) → home_in (homes_of (λ kept. (arc_value {X = SandboxCells _} kept).uid)
        cells.new.entries) i ≡ (if id == i then Some (arc_value {X = SandboxCells _} list.now).uid
        else home_in (homes_of (λ kept. (arc_value {X = SandboxCells _} kept).uid) cells.old.entries) i)) }
{
    let kept = Arc::try_clone(list)?;
    cells.insert(id, kept)?;
    Ok(())
}

fn next_key<B: Node>(cells: &BTreeMap<u64, Arc<SandboxCells<B>, Global>>, above: u64) -> Option<u64>
    ensures { IsNextIn (get nat_cmp cells.now) above result }
{
    let mut later = cells.range((Bound::Excluded(above), Bound::Unbounded));
    match later.next() {
        Some((id, _)) => Some(*id),
        None => None,
    }
}

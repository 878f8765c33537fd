//! The sandbox of the cell with an id.
ghost use Rattle.std.specs.Prelude.{◌≡◌, ◌==◌, ℕ, if◌then◌else◌, [], Some, None, OnOk, OnErr, option_copied};
ghost use Rattle.std.specs.List.{list_any};
ghost use Rattle.std.specs.BTreeMap.{get};
ghost use Rattle.std.specs.Ordering.{nat_cmp};
ghost use Rattle.registry.specs.Kept.{IsNextIn, home_in};
ghost use Rattle.registry.specs.Runtime.{id_of};

use runtime_cell::Cell;
use std::alloc::{AllocError, Global};
use std::collections::BTreeMap;
use std::marker::Model;
use std::ops::Bound;

/// The ids of the existing cells, with the uids of their sandboxes. Contracts see the list.
#[derive(Drop)]
pub(crate) struct Homes {
    map: BTreeMap<u64, String>,
}

impl Model for Homes {
    ghost use Rattle.std.specs.Prelude.{ℕ, List};
    ghost use Rattle.registry.specs.Kept.{as_bytes};

    ghost Value = { List (ℕ × List ℕ) };

    ghost view = { λ h. as_bytes h.map.entries };
}

impl Homes {
    pub(crate) fn new(alloc: Global) -> Homes
        ensures { result ≡ [] }
    {
        Homes {
            map: BTreeMap::new(alloc),
        }
    }

    pub(crate) fn get(&self, id: u64) -> Option<&str>
        ensures { option_copied result ≡ home_in self.now id }
    {
        match self.map.get(&id) {
            Some(uid) => Some(uid.as_str()),
            None => None,
        }
    }

    pub(crate) fn put(&mut self, alloc: Global, id: u64, uid: &str) -> Result<(), AllocError>
        ensures ok { OnOk result ((i : ℕ) → home_in self.new i
            ≡ (if id == i then Some uid.now else home_in self.old i)) }
        ensures err { OnErr result ((i : ℕ) → home_in self.new i ≡ home_in self.old i) }
    {
        let copy = String::from_str(alloc, uid)?;
        self.map.insert(id, copy)?;
        Ok(())
    }

    pub(crate) fn remove(&mut self, id: u64)
        ensures { (i : ℕ) → home_in self.new i ≡ (if id == i then None else home_in self.old i) }
    {
        self.map.remove(&id);
    }

    /// Removes the ids of these cells.
    pub(crate) fn forget(&mut self, cells: &[Cell])
        ensures { (i : ℕ) → home_in self.new i ≡ (if list_any (λ cell. id_of cell == i) cells.now then None
            else home_in self.old i) }
    {
        for cell in cells {
            self.remove(cell.label().id);
        }
    }

    /// The least id above this one.
    pub(crate) fn next(&self, above: u64) -> Option<u64>
        ensures { IsNextIn (home_in self.now) above result }
    {
        next_key(&self.map, above)
    }
}

fn next_key(map: &BTreeMap<u64, String>, above: u64) -> Option<u64>
    ensures { IsNextIn (get nat_cmp map.now) above result }
{
    let mut later = map.range((Bound::Excluded(above), Bound::Unbounded));
    match later.next() {
        Some((id, _)) => Some(*id),
        None => None,
    }
}

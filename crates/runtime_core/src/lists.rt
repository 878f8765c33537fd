//! The lists of cells of all existing sandboxes.
ghost use Rattle.std.specs.Prelude.{◌≡◌, ◌≢◌, ℕ, List, [], Some, None, OnOk, OnErr, option_copied, is_some};
ghost use Rattle.registry.specs.Kept.{by_bytes, MayKillIn, MayStepIn, ReadsIn};
ghost use Rattle.cri_msgs.specs.Calls.{uid_of};
ghost use Rattle.runtime_core.specs.Stands.{cells_in, ids_in, list_in, Lends};

use crate::calls::uid_of;
use creation::FileAnswers;
use cri_msgs::{Reply, Request};
use registry::{Cells, Registry, RemovedCells};
use runtime_cell::{Cell, Did};
use std::alloc::{AllocError, Global};
use std::collections::BTreeMap;
use std::marker::Model;

/// The lists of cells, by the uids of their sandboxes. Contracts see a list of both.
#[derive(Drop)]
pub(crate) struct Lists {
    pub(crate) alloc: Global,
    map: BTreeMap<String, Cells>,
}

impl Model for Lists {
    ghost use Rattle.std.specs.Prelude.{ℕ, List};
    ghost use Rattle.runtime_cell.specs.Cell.{Cell};
    ghost use Rattle.registry.specs.Kept.{by_bytes};

    ghost Value = { List (List ℕ × List Cell) };

    ghost view = { λ l. by_bytes l.map.entries };
}

impl Lists {
    pub(crate) fn new(alloc: Global) -> Lists
        ensures { result ≡ [] }
    {
        Lists {
            alloc,
            map: BTreeMap::new(alloc),
        }
    }

    /// Adds an empty list.
    pub(crate) fn put(&mut self, uid: &str) -> Result<(), AllocError>
        ensures here { OnOk result (list_in self.new uid.now ≡ Some []) }
        ensures others { (u : List ℕ) → u ≢ uid.now → list_in self.new u ≡ list_in self.old u }
        ensures err { OnErr result (self.new ≡ self.old) }
    {
        let key = String::from_str(self.alloc, uid)?;
        self.map.insert(key, Cells::new(self.alloc))?;
        Ok(())
    }

    /// Removes and returns the list of a uid.
    pub(crate) fn take(&mut self, uid: &str) -> Cells
        ensures cells { result ≡ cells_in self.old uid.now }
        ensures here { list_in self.new uid.now ≡ None }
        ensures others { (u : List ℕ) → u ≢ uid.now → list_in self.new u ≡ list_in self.old u }
    {
        take_in(self.alloc, &mut self.map, uid)
    }

    /// Serves a request with the list of its uid.
    pub(crate) fn lend(
        &mut self,
        registry: &mut Registry,
        request: Request,
        files: FileAnswers,
    ) -> Reply
        ensures number { result.id ≡ request.id }
        ensures lent { Lends registry.old registry.new request.call files result.answer
            (list_in self.old (uid_of request.call)) (list_in self.new (uid_of request.call)) }
        ensures others { (u : List ℕ) → u ≢ uid_of request.call → list_in self.new u ≡ list_in self.old u }
    {
        let mut gone = RemovedCells::new(self.alloc);
        lend_in(
            self.alloc,
            &mut self.map,
            &mut gone,
            registry,
            request,
            files,
        )
    }

    pub(crate) fn step(&mut self, uid: &str, id: u64) -> Option<Did>
        ensures moves { MayStepIn (cells_in self.old uid.now) id result (cells_in self.new uid.now) }
        ensures ids { ids_in self.new uid.now ≡ ids_in self.old uid.now }
        ensures listed { is_some (list_in self.new uid.now) ≡ is_some (list_in self.old uid.now) }
        ensures others { (u : List ℕ) → u ≢ uid.now → list_in self.new u ≡ list_in self.old u }
    {
        step_in(&mut self.map, uid, id)
    }

    pub(crate) fn kill(&mut self, uid: &str, id: u64, code: u8) -> Option<()>
        ensures moves { MayKillIn (cells_in self.old uid.now) id code result (cells_in self.new uid.now) }
        ensures ids { ids_in self.new uid.now ≡ ids_in self.old uid.now }
        ensures listed { is_some (list_in self.new uid.now) ≡ is_some (list_in self.old uid.now) }
        ensures others { (u : List ℕ) → u ≢ uid.now → list_in self.new u ≡ list_in self.old u }
    {
        kill_in(&mut self.map, uid, id, code)
    }

    pub(crate) fn cell(&self, uid: &str, id: u64) -> Option<&Cell>
        ensures { ReadsIn (cells_in self.now uid.now) id (option_copied result) }
    {
        cell_in(&self.map, uid, id)
    }
}

fn cell_in<'m>(map: &'m BTreeMap<String, Cells>, uid: &str, id: u64) -> Option<&'m Cell>
    ensures { ReadsIn (cells_in (by_bytes map.now.entries) uid.now) id (option_copied result) }
{
    match map.get(uid) {
        Some(cells) => cells.get(id),
        None => None,
    }
}

fn take_in(alloc: Global, map: &mut BTreeMap<String, Cells>, uid: &str) -> Cells
    ensures cells { result ≡ cells_in (by_bytes map.old.entries) uid.now }
    ensures here { list_in (by_bytes map.new.entries) uid.now ≡ None }
    ensures others { (u : List ℕ) → u ≢ uid.now
        → list_in (by_bytes map.new.entries) u ≡ list_in (by_bytes map.old.entries) u }
{
    match map.remove(uid) {
        Some(cells) => cells,
        None => Cells::new(alloc),
    }
}

fn lend_in(
    alloc: Global,
    map: &mut BTreeMap<String, Cells>,
    gone: &mut RemovedCells,
    registry: &mut Registry,
    request: Request,
    files: FileAnswers,
) -> Reply
    ensures number { result.id ≡ request.id }
    ensures lent { Lends registry.old registry.new request.call files result.answer
        (list_in (by_bytes map.old.entries) (uid_of request.call))
        (list_in (by_bytes map.new.entries) (uid_of request.call)) }
    ensures others { (u : List ℕ) → u ≢ uid_of request.call
        → list_in (by_bytes map.new.entries) u ≡ list_in (by_bytes map.old.entries) u }
{
    match map.get_mut(uid_of(&request.call).as_str()) {
        Some(cells) => registry.serve_lent(cells, gone, request, files),
        None => {
            let mut none = Cells::new(alloc);
            registry.serve_lent(&mut none, gone, request, files)
        }
    }
}

fn step_in(map: &mut BTreeMap<String, Cells>, uid: &str, id: u64) -> Option<Did>
    ensures moves { MayStepIn (cells_in (by_bytes map.old.entries) uid.now) id result
        (cells_in (by_bytes map.new.entries) uid.now) }
    ensures ids { ids_in (by_bytes map.new.entries) uid.now ≡ ids_in (by_bytes map.old.entries) uid.now }
    ensures listed { is_some (list_in (by_bytes map.new.entries) uid.now)
        ≡ is_some (list_in (by_bytes map.old.entries) uid.now) }
    ensures others { (u : List ℕ) → u ≢ uid.now
        → list_in (by_bytes map.new.entries) u ≡ list_in (by_bytes map.old.entries) u }
{
    match map.get_mut(uid) {
        Some(cells) => cells.step(id),
        None => None,
    }
}

fn kill_in(map: &mut BTreeMap<String, Cells>, uid: &str, id: u64, code: u8) -> Option<()>
    ensures moves { MayKillIn (cells_in (by_bytes map.old.entries) uid.now) id code result
        (cells_in (by_bytes map.new.entries) uid.now) }
    ensures ids { ids_in (by_bytes map.new.entries) uid.now ≡ ids_in (by_bytes map.old.entries) uid.now }
    ensures listed { is_some (list_in (by_bytes map.new.entries) uid.now)
        ≡ is_some (list_in (by_bytes map.old.entries) uid.now) }
    ensures others { (u : List ℕ) → u ≢ uid.now
        → list_in (by_bytes map.new.entries) u ≡ list_in (by_bytes map.old.entries) u }
{
    match map.get_mut(uid) {
        Some(cells) => cells.kill_id(id, code),
        None => None,
    }
}

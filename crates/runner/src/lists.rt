//! The cells of each sandbox, under a lock of the sandbox's own.
ghost use Rattle.std.specs.Prelude.{◌≡◌, ◌≢◌, ℕ, IfOk, IfSome, List, OnErr, [], false, is_some, true};
ghost use Rattle.std.specs.Arc.{arc_value};
ghost use Rattle.registry.specs.Kept.{by_bytes};
ghost use Rattle.runner.specs.declared.sandbox.SandboxCells.{SandboxCells};
ghost use Rattle.runner.specs.Labelled.{AreLabelled, uids_in};
ghost use Rattle.runner.specs.Shared.{has};

use crate::sandbox::SandboxCells;
use manifest::Uid;
use runtime_history::{Blank, KeyedLock, Listed, Node};
use std::alloc::{AllocError, Global};
use std::collections::BTreeMap;
use std::marker::Model;
use std::sync::Arc;

/// The cells of the existing sandboxes, each under its uid. Contracts see which uids there are.
#[derive(Drop)]
pub(crate) struct CellLists<B: Node> {
    alloc: Global,
    map: BTreeMap<String, Arc<SandboxCells<B>, Global>>,
}

impl<B: Node> Model for CellLists<B> {
    ghost use Rattle.std.specs.Prelude.{ℕ, List};
    ghost use Rattle.std.specs.Arc.{arc_value};
    ghost use Rattle.registry.specs.Kept.{by_bytes};
    ghost use Rattle.runner.specs.declared.sandbox.SandboxCells.{SandboxCells};
    ghost use Rattle.runner.specs.Labelled.{AreLabelled, uids_in};

    ghost Value = { List (List ℕ) };

    ghost view = { λ l. uids_in l.map.entries };

    ghost invariant = { λ l. AreLabelled (λ list. (arc_value {X = SandboxCells _} list).uid)
        (by_bytes l.map.entries) };
}

impl<B: Node> CellLists<B> {
    /// No sandboxes.
    pub(crate) fn new(alloc: Global) -> CellLists<B>
        ensures { result ≡ [] }
    {
        CellLists {
            alloc,
            map: BTreeMap::new(alloc),
        }
    }

    /// The cells of a uid's sandbox.
    pub(crate) fn get(&self, uid: &str) -> Option<&Arc<SandboxCells<B>, Global>>
        ensures own { IfSome result (λ list. (arc_value {X = SandboxCells _} list.now).uid ≡ uid.now) }
        ensures found { is_some result ≡ has self.now uid.now }
    {
        get_in(&self.map, uid)
    }

    /// Adds a list for a uid, still without its cells, and returns it.
    pub(crate) fn put(&mut self, uid: &Uid) -> Result<NewList<B>, AllocError>
        ensures own { IfOk result (λ new. (arc_value {X = SandboxCells _} new.0).uid ≡ uid.now) }
        ensures blank { IfOk result (λ new. new.1 ≡ (arc_value {X = SandboxCells _} new.0).lock.1) }
        ensures here { IfOk result (λ _. has self.new uid.now ≡ true) }
        ensures others { (u : List ℕ) → u ≢ uid.now → has self.new u ≡ has self.old u }
        ensures err { (u : List ℕ) → OnErr result (has self.new u ≡ has self.old u) }
    {
        put_in(self.alloc, &mut self.map, uid)
    }

    /// Removes and returns the cells of a uid's sandbox.
    pub(crate) fn take(&mut self, uid: &str) -> Option<Arc<SandboxCells<B>, Global>>
        ensures own { IfSome result (λ list. (arc_value {X = SandboxCells _} list).uid ≡ uid.now) }
        ensures found { is_some result ≡ has self.old uid.now }
        ensures here { has self.new uid.now ≡ false }
        ensures others { (u : List ℕ) → u ≢ uid.now → has self.new u ≡ has self.old u }
    {
        take_in(&mut self.map, uid)
    }
}

// A list still without its cells, and the right to fill it with them.
type NewList<B> = (Arc<SandboxCells<B>, Global>, Blank<Listed<B>>);

fn get_in<'m, B: Node>(
    map: &'m BTreeMap<String, Arc<SandboxCells<B>, Global>>,
    uid: &str,
) -> Option<&'m Arc<SandboxCells<B>, Global>>
    requires { AreLabelled (λ list. (arc_value {X = SandboxCells _} list).uid) (by_bytes map.now.entries) }
    ensures own { IfSome result (λ list. (arc_value {X = SandboxCells _} list.now).uid ≡ uid.now) }
    ensures found { is_some result ≡ has (uids_in map.now.entries) uid.now }
{
    map.get(uid)
}

fn put_in<B: Node>(
    alloc: Global,
    map: &mut BTreeMap<String, Arc<SandboxCells<B>, Global>>,
    uid: &Uid,
) -> Result<NewList<B>, AllocError>
    requires { AreLabelled (λ list. (arc_value {X = SandboxCells _} list).uid) (by_bytes map.old.entries) }
    ensures own { IfOk result (λ new. (arc_value {X = SandboxCells _} new.0).uid ≡ uid.now) }
    ensures blank { IfOk result (λ new. new.1 ≡ (arc_value {X = SandboxCells _} new.0).lock.1) }
    ensures labelled { AreLabelled (λ list. (arc_value {X = SandboxCells _} list).uid)
        (by_bytes map.new.entries) }
    ensures here { IfOk result (λ _. has (uids_in map.new.entries) uid.now ≡ true) }
    ensures others { (u : List ℕ) → u ≢ uid.now → has (uids_in map.new.entries) u
        ≡ has (uids_in map.old.entries) u }
    ensures err { (u : List ℕ) → OnErr result (has (uids_in map.new.entries) u
        ≡ has (uids_in map.old.entries) u) }
{
    let (list, blank) = new_list(alloc, uid)?;
    let kept = Arc::try_clone(&list)?;
    let key = String::from_str(alloc, uid.as_str())?;
    map.insert(key, kept)?;
    Ok((list, blank))
}

fn new_list<B: Node>(alloc: Global, uid: &Uid) -> Result<NewList<B>, AllocError>
    ensures own { IfOk result (λ new. (arc_value {X = SandboxCells _} new.0).uid ≡ uid.now) }
    ensures blank { IfOk result (λ new. new.1 ≡ (arc_value {X = SandboxCells _} new.0).lock.1) }
{
    let Some((lock, blank)) = KeyedLock::taken(alloc, uid) else {
        return Err(AllocError);
    };
    let uid = uid.try_clone(alloc)?;
    let list = Arc::new(alloc, SandboxCells { uid, lock })?;
    Ok((list, blank))
}

fn take_in<B: Node>(
    map: &mut BTreeMap<String, Arc<SandboxCells<B>, Global>>,
    uid: &str,
) -> Option<Arc<SandboxCells<B>, Global>>
    requires { AreLabelled (λ list. (arc_value {X = SandboxCells _} list).uid) (by_bytes map.old.entries) }
    ensures own { IfSome result (λ list. (arc_value {X = SandboxCells _} list).uid ≡ uid.now) }
    ensures labelled { AreLabelled (λ list. (arc_value {X = SandboxCells _} list).uid)
        (by_bytes map.new.entries) }
    ensures found { is_some result ≡ has (uids_in map.old.entries) uid.now }
    ensures here { has (uids_in map.new.entries) uid.now ≡ false }
    ensures others { (u : List ℕ) → u ≢ uid.now → has (uids_in map.new.entries) u
        ≡ has (uids_in map.old.entries) u }
{
    map.remove(uid)
}

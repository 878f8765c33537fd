//! Which uids a runtime knows.
ghost use Rattle.std.specs.Prelude.{◌≡◌, ◌≢◌, ◌↔◌, ℕ, List, [], Some, OnOk, OnErr, IsTrue, option_copied};
ghost use Rattle.registry.specs.Kept.{Changes, by_bytes, dead, known_in, stage_of, stopped, with_used};
ghost use Rattle.registry.specs.Serves.{IsFull};

use crate::known::Known;
use crate::limits::MAX_UIDS;
use cri_msgs::ContainerMetadata;
use std::alloc::{AllocError, Global};
use std::collections::BTreeMap;
use std::marker::Model;

/// The uids that were named, removed ones too. Contracts see a list of them with what is known of each.
#[derive(Drop)]
pub(crate) struct Uids {
    map: BTreeMap<String, Known>,
}

impl Model for Uids {
    ghost use Rattle.std.specs.Prelude.{ℕ, List};
    ghost use Rattle.registry.specs.Kept.{by_bytes};
    ghost use Rattle.registry.specs.declared.known.Known.{Known};

    ghost Value = { List (List ℕ × Known) };

    ghost view = { λ u. by_bytes u.map.entries };
}

impl Uids {
    pub(crate) fn new(alloc: Global) -> Uids
        ensures { result ≡ [] }
    {
        Uids {
            map: BTreeMap::new(alloc),
        }
    }

    pub(crate) fn get(&self, uid: &str) -> Option<&Known>
        ensures { option_copied result ≡ known_in self.now uid.now }
    {
        self.map.get(uid)
    }

    /// Names a uid, or changes what is known of it.
    pub(crate) fn put(&mut self, alloc: Global, uid: &str, known: Known) -> Result<(), AllocError>
        ensures here { OnOk result (known_in self.new uid.now ≡ Some known) }
        ensures others { (u : List ℕ) → u ≢ uid.now → known_in self.new u ≡ known_in self.old u }
        ensures err { (u : List ℕ) → OnErr result (known_in self.new u ≡ known_in self.old u) }
    {
        let key = String::from_str(alloc, uid)?;
        self.map.insert(key, known)?;
        Ok(())
    }

    /// Stops the sandbox of a uid: it takes no further containers.
    pub(crate) fn stop(&mut self, uid: &str)
        ensures { Changes self.old self.new uid.now stopped }
    {
        stop_in(&mut self.map, uid);
    }

    /// Ends the sandbox of a uid.
    pub(crate) fn end(&mut self, uid: &str)
        ensures { Changes self.old self.new uid.now dead }
    {
        end_in(&mut self.map, uid);
    }

    /// Records an attempt that is made in the sandbox of a uid.
    pub(crate) fn add(&mut self, uid: &str, container: ContainerMetadata) -> Result<(), AllocError>
        ensures ok { OnOk result (Changes self.old self.new uid.now (with_used container)) }
        ensures err { OnErr result (Changes self.old self.new uid.now (λ k. k)) }
    {
        add_in(&mut self.map, uid, container)
    }

    /// Whether there is no room for a further uid.
    pub(crate) fn is_full(&self) -> bool
        ensures { IsTrue result ↔ IsFull (λ uid. stage_of (known_in self.now uid)) }
    {
        self.map.len() >= MAX_UIDS
    }
}

fn stop_in(map: &mut BTreeMap<String, Known>, uid: &str)
    ensures { Changes (by_bytes map.old.entries) (by_bytes map.new.entries) uid.now stopped }
{
    match map.get_mut(uid) {
        None => {}
        Some(known) => known.stop(),
    }
}

fn end_in(map: &mut BTreeMap<String, Known>, uid: &str)
    ensures { Changes (by_bytes map.old.entries) (by_bytes map.new.entries) uid.now dead }
{
    match map.get_mut(uid) {
        None => {}
        Some(known) => known.end(),
    }
}

fn add_in(
    map: &mut BTreeMap<String, Known>,
    uid: &str,
    container: ContainerMetadata,
) -> Result<(), AllocError>
    ensures ok { OnOk result (Changes (by_bytes map.old.entries) (by_bytes map.new.entries) uid.now
        (with_used container)) }
    ensures err { OnErr result (Changes (by_bytes map.old.entries) (by_bytes map.new.entries) uid.now
        (λ k. k)) }
{
    match map.get_mut(uid) {
        None => Ok(()),
        Some(known) => match known.add(container) {
            Ok(()) => Ok(()),
            Err(AllocError) => Err(AllocError),
        },
    }
}

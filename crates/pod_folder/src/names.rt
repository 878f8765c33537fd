//! The names of a folder's manifests. A fault of an entry is a fault of the whole listing, and never its end.
ghost use Rattle.std.specs.Prelude.{◌≡◌, IfOk, OnErr, OnOk, Option, None, List, Bool, map, true, ◌++◌, []};
ghost use Rattle.std.specs.String.{string_bytes};
ghost use Rattle.pod_folder.specs.Names.{AreNamesOf, Listed, ReturnsNext, is_manifest, listed, with_name};

use node_io::{Cause, CausedFault};
use std::alloc::{AllocError, Global};

/// An entry of a folder.
#[derive(Debug, Drop)]
pub enum Entry {
    /// It has this name.
    Named(String),
    /// Its name is not UTF-8, so it is not a manifest's.
    NotText,
}

/// The entries of a folder, in any order.
pub trait Entries {
    // What is left to be listed, if that is known.
    ghost rest: { Self → Option (List Listed) } = { λ _. None };

    // Whether the listing has ended.
    ghost ended: { Self → Bool };

    // Whether a part of it could not be read.
    ghost failed: { Self → Bool };

    /// The next entry. `None` is the end of the listing; an entry that can't be read is an error.
    fn next(&mut self) -> Result<Option<Entry>, CausedFault>
        ensures rest { ReturnsNext (rest self.old) result (rest self.new) }
        ensures ended { IfOk result (λ entry. entry ≡ None → ended self.new ≡ true) }
        ensures kept { OnOk result (failed self.new ≡ failed self.old) }
        ensures failed { OnErr result (failed self.new ≡ true) };
}

// Whether a file of this name is a manifest.
fn is_manifest(name: &str) -> bool
    ensures { result ≡ is_manifest name.now }
{
    let name = name.as_bytes();
    name.len() > 5 && name.ends_with(b".json") && name[0] != b'.'
}

// Adds the name of an entry if it is a manifest's.
fn add_name(names: &mut Vec<String>, entry: Entry) -> Result<(), AllocError>
    ensures ok { OnOk result (map string_bytes names.new.items
        ≡ map string_bytes names.old.items ++ with_name (listed entry) []) }
    ensures err { OnErr result (names.new.items ≡ names.old.items) }
{
    if let Entry::Named(name) = entry {
        if is_manifest(name.as_str()) {
            return Ok(names.push(name)?);
        }
    }
    Ok(())
}

/// The names of all manifests of a folder, in the order of the listing. They are returned only if the listing
/// ended, and no entry of it failed.
#[tactic(auto, using(crate::proofs::Listed::names_step))]
pub fn names_in<E: Entries>(alloc: Global, entries: &mut E) -> Result<Vec<String>, CausedFault>
    ensures ended { OnOk result (E.ended entries.new ≡ true) }
    ensures unfailed { OnOk result (E.failed entries.new ≡ E.failed entries.old) }
    ensures names { IfOk result (λ names. AreNamesOf (E.rest entries.old) (map string_bytes names.items)) }
{
    let mut names = Vec::new(alloc);
    for _ in 0..u64::MAX {
        match entries.next()? {
            None => return Ok(names),
            Some(entry) => add_name(&mut names, entry)?,
        }
    }
    Err(CausedFault::failed(Cause::Other))
}

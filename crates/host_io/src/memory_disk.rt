ghost use Rattle.std.specs.Prelude.{◌≡◌, ◌≢◌, ℕ, List, Option, None, Some, OnOk, OnErr, if◌then◌else◌};
ghost use Rattle.std.specs.Prelude.{option_map, option_copied, is_some, bytes_eq, IfOk, IfErr};
ghost use Rattle.host_io.specs.Shelf.{held_on};

use crate::disk::{Disk, NewFault};
use node_io::{Cause, CausedFault, FileFault};
use std::alloc::{AllocError, Global};
use std::collections::BTreeMap;

/// Files in memory, which can be made to fail.
#[derive(Drop)]
pub struct MemoryDisk {
    files: BTreeMap<String, Vec<u8>>,
    alloc: Global,
    calls: u64,
    failing: u64,
}

impl MemoryDisk {
    /// A disk without files, on which no call fails.
    pub fn new(alloc: Global) -> MemoryDisk {
        MemoryDisk {
            files: BTreeMap::new(alloc),
            alloc,
            calls: 0,
            failing: 0,
        }
    }

    /// Makes the call with this number fail, counted from 1 for the next one. All other calls work.
    pub fn fail_call(&mut self, number: u64)
        ensures { self.new.files ≡ self.old.files }
    {
        self.calls = 0;
        self.failing = number;
    }

    /// How many files there are.
    pub fn count(&self) -> usize {
        self.files.len()
    }

    /// The bytes of the file at this path, if there is one.
    pub fn read(&self, path: &str) -> Option<&[u8]>
        ensures { option_copied result ≡ held_on self.now.files path.now }
    {
        match self.files.get(path) {
            Some(bytes) => Some(bytes.as_slice()),
            None => None,
        }
    }

    // Counts a call, and returns whether it must fail.
    fn fails(&mut self) -> bool
        ensures { self.new.files ≡ self.old.files }
    {
        self.calls = self.calls.saturating_add(1);
        self.calls == self.failing
    }

    /// Puts a file with these bytes at a path, replacing what is there.
    #[tactic(auto, using(std::proofs::lemmas::Map::Text::text_keys))]
    pub fn put(&mut self, path: &str, bytes: &[u8]) -> Result<(), AllocError>
        ensures kept { OnErr result ((q : List ℕ) → held_on self.new.files q ≡ held_on self.old.files q) }
        ensures put { OnOk result (held_on self.new.files path.now ≡ Some bytes.now) }
        ensures others { (q : List ℕ) → (q ≡ path.now → ⊥) → held_on self.new.files q
            ≡ held_on self.old.files q }
    {
        let name = String::from_str(self.alloc, path)?;
        let copy = Vec::from_slice(self.alloc, bytes)?;
        self.files.insert(name, copy)?;
        Ok(())
    }

    #[tactic(auto, using(std::proofs::lemmas::Map::Text::text_keys))]
    fn take(&mut self, path: &str) -> Option<Vec<u8>>
        ensures took { option_map (λ bytes. bytes.items) result ≡ held_on self.old.files path.now }
        ensures gone { held_on self.new.files path.now ≡ None }
        ensures others { (q : List ℕ) → (q ≡ path.now → ⊥) → held_on self.new.files q
            ≡ held_on self.old.files q }
    {
        self.files.remove(path)
    }
}

// The fault of a call that was made to fail.
fn failure() -> CausedFault {
    CausedFault::failed(Cause::Device)
}

impl Disk for MemoryDisk {
    ghost use Rattle.std.specs.Prelude.{◌≡◌, ◌≢◌, ◌↔◌, None, Some, Err, IfErr, OnOk, OnErr};
    ghost use Rattle.host_io.specs.Places.{IsAt, KeepsAll, KeepsAt, KeepsOthers, Moves};
    ghost use Rattle.host_io.specs.Shelf.{held_on};

    ghost held = { λ m. Some (held_on m.files) };

    // A call that fails leaves half of the bytes.
    fn write_new(&mut self, path: &str, bytes: &[u8]) -> Result<(), NewFault> {
        if self.files.contains_key(path) {
            return Err(NewFault::Taken);
        }
        let fails = self.fails();
        let written = if fails {
            &bytes[..bytes.len() / 2]
        } else {
            bytes
        };
        match self.put(path, written) {
            Err(AllocError) => Err(NewFault::Unmade(CausedFault::from(FileFault::Memory))),
            Ok(()) if fails => Err(NewFault::Unfinished(failure())),
            Ok(()) => Ok(()),
        }
    }

    fn rename(&mut self, from: &str, to: &str) -> Result<(), CausedFault> {
        if self.fails() {
            return Err(failure());
        }
        let Some(bytes) = self.read(from) else {
            return Err(CausedFault::from(FileFault::NotFound));
        };
        if from == to {
            return Ok(());
        }
        let copy = Vec::from_slice(self.alloc, bytes)?;
        self.put(to, copy.as_slice())?;
        let _ = self.take(from);
        Ok(())
    }

    fn remove(&mut self, path: &str) -> Result<(), CausedFault> {
        if self.fails() {
            return Err(failure());
        }
        match self.take(path) {
            Some(_) => Ok(()),
            None => Err(CausedFault::from(FileFault::NotFound)),
        }
    }
}

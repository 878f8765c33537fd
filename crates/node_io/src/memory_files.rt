ghost use Rattle.std.specs.Prelude.{◌≡◌, ◌<◌, ◌≤◌, find, string_bytes, None, Some, Err, IfOk, IfErr, IfSome};
ghost use Rattle.std.specs.Prelude.{IsSomeAnd, length};
ghost use Rattle.std.specs.Str.{bytes_eq};
ghost use Rattle.std.specs.Option.{option_copied, option_map};
ghost use Rattle.node_io.specs.Counts.{HasRisen};
ghost use Rattle.node_io.specs.Disk.{Disk, Stored, after_read, fault_of, held_in};
ghost use Rattle.node_io.specs.Held.{Tells};

use crate::faults::FileFault;
use crate::files::Files;
use std::alloc::AllocError;
use std::marker::Model;

/// A file in memory.
#[derive(Drop)]
pub struct StoredFile {
    path: String,
    bytes: Vec<u8>,
}

impl Model for StoredFile {
    ghost use Rattle.std.specs.Prelude.{string_bytes};
    ghost use Rattle.node_io.specs.Disk.{Stored};

    ghost Value = { Stored };

    ghost view = { λ f. record { path = string_bytes f.path; bytes = f.bytes.items } };
}

impl StoredFile {
    /// The file with this path and these bytes.
    pub fn new(path: String, bytes: Vec<u8>) -> StoredFile
        ensures { result ≡ record { path = string_bytes path; bytes = bytes.items } }
    {
        StoredFile { path, bytes }
    }

    fn has_path(&self, path: &str) -> bool
        ensures { result ≡ bytes_eq self.now.path path.now }
    {
        self.path.as_str() == path
    }

    fn bytes(&self) -> &[u8]
        ensures { result.now ≡ self.now.bytes }
    {
        self.bytes.as_slice()
    }

    fn copy(&self) -> Result<Vec<u8>, AllocError>
        ensures { IfOk result (λ copy. copy.items ≡ self.now.bytes) }
    {
        self.bytes.clone()
    }
}

/// Files in memory, which can be made to fail. Of several with the same path the first counts.
#[derive(Drop)]
pub struct MemoryFiles {
    files: Vec<StoredFile>,
    reads: u64,
    failing: u64,
    failures: u64,
}

impl Model for MemoryFiles {
    ghost use Rattle.node_io.specs.Disk.{Disk};

    ghost Value = { Disk };

    ghost view = { λ m. record {
      files = m.files.items;
      reads = m.reads;
      failing = m.failing;
      failures =
          m.failures;
    } };
}

fn found<'a>(files: &'a [StoredFile], path: &str) -> Option<&'a StoredFile>
    ensures { option_copied result ≡ find (λ file. bytes_eq file.path path.now) files.now }
{
    files.iter().find(|file| file.has_path(path))
}

impl MemoryFiles {
    /// These files, none of whose reads fails.
    pub fn new(files: Vec<StoredFile>) -> MemoryFiles
        ensures { result ≡ record { files = files.items; reads = 0; failing = 0; failures = 0 } }
    {
        MemoryFiles {
            files,
            reads: 0,
            failing: 0,
            failures: 0,
        }
    }

    /// Makes the read with this number fail, counted from 1 for the first. All other reads work.
    pub fn fail_call(&mut self, number: u64)
        ensures { self.new ≡ record {
          files = self.old.files;
          reads = self.old.reads;
          failing = number;
          failures = self.old.failures;
        } }
    {
        self.failing = number;
    }
}

impl Files for MemoryFiles {
    ghost use Rattle.std.specs.Prelude.{◌≡◌, ◌≢◌, ◌<◌, ◌≤◌, None, Some, Err, IfOk, IfErr, IfSome, IsSomeAnd};
    ghost use Rattle.std.specs.Prelude.{length};
    ghost use Rattle.node_io.specs.Counts.{HasRisen};
    ghost use Rattle.node_io.specs.Disk.{after_read, fault_of, held_in};

    ghost held = { λ m. Some (held_in m.files) };

    ghost failed = { λ m. m.failures };

    fn read(&mut self, path: &str, limit: u64) -> Result<Vec<u8>, FileFault>
        // Which fault it is, and that any other is Memory.
        ensures fault { IfSome (fault_of self.old path.now limit) (λ fault. result ≡ Err fault) }
        ensures memory { IfErr result (λ fault. fault ≢ FileFault.Memory
            → fault_of self.old path.now limit ≡ Some fault) }
        ensures after { self.new ≡ after_read self.old }

        // The promises of each device.
        ensures bytes { IfOk result (λ bytes. held_in self.old.files path.now ≡ Some bytes.items) }
        ensures within { IfOk result (λ bytes. length bytes.items ≤ limit) }
        ensures not_found { IfErr result (λ fault. fault ≡ FileFault.NotFound
            → held_in self.old.files path.now ≡ None) }
        ensures too_large { IfErr result (λ fault. fault ≡ FileFault.TooLarge
            → IsSomeAnd (held_in self.old.files path.now) (λ bytes. limit < length bytes)) }
        ensures failed { IfErr result (λ fault. fault ≡ FileFault.Failed
            → HasRisen self.old.failures self.new.failures) }
        ensures counted { self.old.failures ≤ self.new.failures }
        ensures kept { self.new.files ≡ self.old.files }
    {
        self.reads = self.reads.saturating_add(1);
        if self.reads == self.failing {
            self.failing = 0;
            self.failures = self.failures.saturating_add(1);
            return Err(FileFault::Failed);
        }
        let Some(file) = found(&self.files, path) else {
            return Err(FileFault::NotFound);
        };
        if file.bytes().len() as u64 > limit {
            return Err(FileFault::TooLarge);
        }
        Ok(file.copy()?)
    }

    fn failures(&self) -> u64
        ensures { result ≡ self.now.failures }
    {
        self.failures
    }
}

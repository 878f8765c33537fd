ghost use Rattle.std.specs.Prelude.{◌≡◌, ◌==◌, ◌≤◌, Some, None, Err, IfOk, OnErr, is_some, true, length};
ghost use Rattle.std.specs.Prelude.{slice_index};
ghost use Rattle.std.specs.Option.{option_map};
ghost use Rattle.std.specs.String.{string_bytes};
ghost use Rattle.node_io.specs.System.{climbs, descends, opened_in};

use crate::causes::Cause;
use crate::faults::{CausedFault, FileFault};
use crate::files::Files;
use crate::reading::read_all;
use std::alloc::AllocError;
use std::fs::{Metadata, OpenFile};
use std::marker::Model;
use std::{fs, rt};

/// The regular files of the system, by paths from a folder. A folder, a device or a pipe is not read: it
/// counts as a failure, and so does a read that is interrupted.
#[derive(Drop)]
pub struct SystemFiles<'a, R> {
    rt: &'a R,
    folder: Option<&'a str>,
    failures: u64,
}

impl<'a, R> Model for SystemFiles<'a, R> {
    ghost use Rattle.std.specs.Prelude.{option_copied};
    ghost use Rattle.node_io.specs.System.{System};

    ghost Value = { System };

    ghost view = { λ s. record { folder = option_copied s.folder; failures = s.failures } };
}

impl<'a, R: rt::Files + AllocGlobal> SystemFiles<'a, R> {
    /// The files below a folder. A path that is empty, absolute or has a part `..` leads to none; if the
    /// folder's path is empty, no path does.
    pub fn within(rt: &'a R, folder: &'a str) -> SystemFiles<'a, R>
        ensures { result ≡ record { folder = Some folder.now; failures = 0 } }
    {
        SystemFiles {
            rt,
            folder: Some(folder),
            failures: 0,
        }
    }

    /// All files, by any path, relative to the working directory.
    pub fn anywhere(rt: &'a R) -> SystemFiles<'a, R>
        ensures { result ≡ record { folder = None; failures = 0 } }
    {
        SystemFiles {
            rt,
            folder: None,
            failures: 0,
        }
    }

    /// Why a read of this path fails now, if the system reports a cause.
    pub fn cause(&self, path: &str, limit: u64) -> Option<Cause> {
        let opened = self.opened(path).ok()??;
        read_file(self.rt, opened.as_str(), limit).err()?.cause
    }

    // The path that is opened.
    fn opened(&self, path: &str) -> Result<Option<String>, AllocError>
        ensures value { IfOk result (λ opened.
            option_map string_bytes opened ≡ opened_in self.now.folder path.now) }
        ensures only { OnErr result (is_some (opened_in self.now.folder path.now) ≡ true) }
    {
        let alloc = self.rt.alloc();
        match self.folder {
            None => Ok(Some(String::from_str(alloc, path)?)),
            Some(folder) if !folder.is_empty() && descends(path) => {
                Ok(Some(format!(in alloc; "{folder}/{path}")?))
            }
            Some(_) => Ok(None),
        }
    }

    fn look_up(&self, path: &str, limit: u64) -> Result<Vec<u8>, FileFault>
        ensures within { IfOk result (λ bytes. length bytes.items ≤ limit) }
        ensures outside { opened_in self.now.folder path.now ≡ None → result ≡ Err FileFault.NotFound }
    {
        match self.opened(path)? {
            Some(opened) => match read_file(self.rt, opened.as_str(), limit) {
                Ok(bytes) => Ok(bytes),
                Err(caused) => Err(caused.fault),
            },
            None => Err(FileFault::NotFound),
        }
    }
}

// Whether a path stays below the folder where it starts.
fn descends(path: &str) -> bool
    ensures { result ≡ descends path.now }
{
    !path.is_empty() && !is_rooted(path.as_bytes()) && !climbs(path)
}

fn is_rooted(path: &[u8]) -> bool
    ensures { result ≡ (slice_index path.now 0 == 47) }
{
    match path {
        [first, ..] => *first == b'/',
        [] => false,
    }
}

#[tactic(auto, unfolding(crate::specs::System::climbs))]
fn climbs(path: &str) -> bool
    ensures { result ≡ climbs path.now }
{
    path.split('/').any(|part| part == "..")
}

/// The bytes of a regular file of the system, by any path, if they are no more than the limit. Anything else
/// at the path is not opened and counts as a failure, and so does a read that is interrupted.
pub fn read_file<R: rt::Files + AllocGlobal>(
    rt: &R,
    path: &str,
    limit: u64,
) -> Result<Vec<u8>, CausedFault>
    ensures within { IfOk result (λ bytes. length bytes.items ≤ limit) }
{
    // A pipe is not opened: that would wait for its writer.
    judge(&fs::metadata(rt, path)?, limit)?;
    let mut file = fs::open(rt, path)?;
    // Another file may be at the path by now.
    judge(&file.metadata()?, limit)?;
    read_all(rt.alloc(), &mut file, limit)
}

/// The bytes of a file of the system, by any path, if they are no more than the limit. A pipe or a device is
/// read to its end, for which it waits. A folder counts as a failure, and so does a read that is interrupted.
pub fn read_stream<R: rt::Files + AllocGlobal>(
    rt: &R,
    path: &str,
    limit: u64,
) -> Result<Vec<u8>, CausedFault>
    ensures within { IfOk result (λ bytes. length bytes.items ≤ limit) }
{
    let mut file = fs::open(rt, path)?;
    let about = file.metadata()?;
    if about.is_dir() {
        return Err(CausedFault::failed(Cause::IsFolder));
    }
    if about.len() > limit {
        return Err(CausedFault::from(FileFault::TooLarge));
    }
    read_all(rt.alloc(), &mut file, limit)
}

// Checks that a file may be read: a regular file within the limit.
fn judge(about: &Metadata, limit: u64) -> Result<(), CausedFault> {
    if about.is_dir() {
        Err(CausedFault::failed(Cause::IsFolder))
    } else if !about.is_file() {
        Err(CausedFault::failed(Cause::NotRegular))
    } else if about.len() > limit {
        Err(CausedFault::from(FileFault::TooLarge))
    } else {
        Ok(())
    }
}

/// Checks that there is a folder at a path.
pub fn look_at_folder<R: rt::Files>(rt: &R, path: &str) -> Result<(), CausedFault> {
    if fs::metadata(rt, path)?.is_dir() {
        Ok(())
    } else {
        Err(CausedFault::failed(Cause::NotFolder))
    }
}

impl<'a, R: rt::Files + AllocGlobal> Files for SystemFiles<'a, R> {
    ghost use Rattle.std.specs.Prelude.{◌≡◌, ◌<◌, ◌≤◌, None, Some, Err, IfOk, IfErr, IsSomeAnd, length};
    ghost use Rattle.node_io.specs.Counts.{HasRisen};
    ghost use Rattle.node_io.specs.Held.{Tells};
    ghost use Rattle.node_io.specs.System.{opened_in};

    ghost failed = { λ s. s.failures };

    fn read(&mut self, path: &str, limit: u64) -> Result<Vec<u8>, FileFault>
        // No path leads out of the folder.
        ensures outside { opened_in self.old.folder path.now ≡ None → result ≡ Err FileFault.NotFound }
        ensures folder { self.new.folder ≡ self.old.folder }

        // The promises of each device. The system's contents are not known, so the first three claim nothing.
        ensures bytes { IfOk result (λ bytes. Tells None path.now (λ found. found ≡ Some bytes.items)) }
        ensures not_found { IfErr result (λ fault. fault ≡ FileFault.NotFound
            → Tells None path.now (λ found. found ≡ None)) }
        ensures too_large { IfErr result (λ fault. fault ≡ FileFault.TooLarge
            → Tells None path.now (λ found. IsSomeAnd found (λ bytes. limit < length bytes))) }
        ensures within { IfOk result (λ bytes. length bytes.items ≤ limit) }
        ensures failed { IfErr result (λ fault. fault ≡ FileFault.Failed
            → HasRisen self.old.failures self.new.failures) }
        ensures counted { self.old.failures ≤ self.new.failures }
    {
        let read = self.look_up(path, limit);
        if let Err(FileFault::Failed) = read {
            self.failures = self.failures.saturating_add(1);
        }
        read
    }

    fn failures(&self) -> u64
        ensures { result ≡ self.now.failures }
    {
        self.failures
    }
}

//! A folder of the system.
ghost use Rattle.std.specs.Prelude.{◌≡◌, IfOk, None, OnErr, OnOk, Some, option_copied, true};
ghost use Rattle.node_io.specs.Held.{Tells};
ghost use Rattle.pod_folder.specs.Inside.{inside, is_below, is_slash};

use crate::looks::Stamp;
use crate::names::{Entries, Entry};
use crate::reading::FolderFiles;
use node_io::{Cause, CausedFault, FileFault, MAX_FILE_BYTES, read_file};
use std::alloc::{AllocError, Global};
use std::fs::{self, Metadata, ReadDir};
use std::io::{self, ErrorKind};
use std::os::unix::fs::MetadataExt;
use std::rt;

/// A folder of the system, by its path. A link in it is followed as long as it stays in the folder.
#[derive(Drop)]
pub struct SystemFolder<'a, R> {
    rt: &'a R,
    path: &'a str,
    // The path without links.
    root: String,
}

/// The listing of a folder of the system.
#[derive(Drop)]
pub struct SystemEntries<R: rt::Files + AllocGlobal> {
    alloc: Global,
    entries: ReadDir<R>,
    ended: bool,
    failed: bool,
}

// Whether this path without links leads into the folder with this path without links.
fn is_inside(root: &str, path: &str) -> bool
    ensures { result ≡ inside root.now path.now }
{
    root == "/" || is_below(root.as_bytes(), path.as_bytes())
}

// Whether a path begins with the folder's, and goes on with a slash.
fn is_below(root: &[u8], path: &[u8]) -> bool
    ensures { result ≡ is_below root.now path.now }
{
    path.starts_with(root) && is_slash(path.get(root.len()))
}

fn is_slash(byte: Option<&u8>) -> bool
    ensures { result ≡ is_slash (option_copied byte.entry) }
{
    match byte {
        Some(byte) => *byte == b'/',
        None => false,
    }
}

fn stamp_of(about: &Metadata) -> Result<Stamp, CausedFault> {
    if about.is_dir() {
        Err(CausedFault::failed(Cause::IsFolder))
    } else if !about.is_file() {
        Err(CausedFault::failed(Cause::NotRegular))
    } else if about.len() > MAX_FILE_BYTES {
        Err(CausedFault::from(FileFault::TooLarge))
    } else {
        Ok(Stamp {
            device: about.dev(),
            inode: about.ino(),
            size: about.len(),
            modified: (about.mtime(), about.mtime_nsec()),
            changed: (about.ctime(), about.ctime_nsec()),
        })
    }
}

impl<'a, R: rt::Files + AllocGlobal + Clone + Drop> SystemFolder<'a, R> {
    /// The folder at this path, which is looked up anew for each look.
    pub fn open(rt: &'a R, path: &'a str) -> Result<SystemFolder<'a, R>, CausedFault> {
        let root = fs::canonicalize(rt, path)?;
        let root = String::from_str(rt.alloc(), root.as_str())?;
        Ok(SystemFolder { rt, path, root })
    }

    /// Its entries.
    pub fn entries(&self) -> Result<SystemEntries<R>, CausedFault> {
        Ok(SystemEntries {
            alloc: self.rt.alloc(),
            entries: fs::read_dir(self.rt, self.path)?,
            ended: false,
            failed: false,
        })
    }

    fn path_of(&self, name: &str) -> Result<String, AllocError> {
        format!(in self.rt.alloc(); "{}/{name}", self.path)
    }

    // The path of a file, without links if it is one.
    fn real(&self, name: &str) -> Result<(String, Metadata), CausedFault> {
        let path = self.path_of(name)?;
        let about = fs::symlink_metadata(self.rt, path.as_str())?;
        if !about.is_symlink() {
            return Ok((path, about));
        }
        let real = fs::canonicalize(self.rt, path.as_str())?;
        if !is_inside(self.root.as_str(), real.as_str()) {
            return Err(CausedFault::failed(Cause::Outside));
        }
        let about = fs::metadata(self.rt, real.as_str())?;
        Ok((String::from_str(self.rt.alloc(), real.as_str())?, about))
    }
}

impl<'a, R: rt::Files + AllocGlobal + Clone + Drop> FolderFiles for SystemFolder<'a, R> {
    fn stamp(&mut self, name: &str) -> Result<Stamp, CausedFault> {
        let (_, about) = self.real(name)?;
        stamp_of(&about)
    }

    fn read(&mut self, name: &str) -> Result<Vec<u8>, CausedFault> {
        let (path, _) = self.real(name)?;
        read_file(self.rt, path.as_str(), MAX_FILE_BYTES)
    }
}

// Whether a name is not UTF-8, which std reports by its own kind, without a system error number.
fn is_not_text(error: &io::Error) -> bool {
    error.kind() == ErrorKind::InvalidFilename && error.raw_os_error().is_none()
}

impl<R: rt::Files + AllocGlobal + Clone + Drop> Entries for SystemEntries<R> {
    ghost ended = { λ e. e.ended };

    ghost failed = { λ e. e.failed };

    fn next(&mut self) -> Result<Option<Entry>, CausedFault> {
        match self.entries.next() {
            None => {
                self.ended = true;
                Ok(None)
            }
            Some(Ok(entry)) => match String::from_str(self.alloc, entry.file_name()) {
                Ok(name) => Ok(Some(Entry::Named(name))),
                Err(error) => {
                    self.failed = true;
                    Err(CausedFault::from(error))
                }
            },
            Some(Err(error)) if is_not_text(&error) => Ok(Some(Entry::NotText)),
            Some(Err(error)) => {
                self.failed = true;
                Err(CausedFault::from(error))
            }
        }
    }
}

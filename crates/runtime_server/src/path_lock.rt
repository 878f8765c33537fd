//! The lock beside a socket's path: the file PATH.lock, which the path's owner keeps locked.
//!
//! Anyone with write access to the folder may have put something else there. So the file is created only if
//! the name is free, and an existing file is opened only if it is a regular one: no link is followed, and
//! opening never waits for a pipe.
ghost use Rattle.std.specs.Prelude.{◌≡◌, ◌↔◌, Err, IsErr, IsOk};
ghost use Rattle.std.specs.Fs.{IsFile, IsSymlink, file_type};

use runtime_stops::SocketFault;
use std::fs::{File, Metadata, OpenOptions, TryLockError};
use std::io::{self, ErrorKind};
use std::os::unix::fs::{MetadataExt, OpenOptionsExt};
use std::{fs, rt};

// How often a lock is tried if its file is removed meanwhile.
pub(crate) const LOCKS: u32 = 100;

/// A lock that keeps other programs from the path. The system releases it when the process ends, for whatever
/// reason.
#[derive(Drop)]
pub(crate) struct PathLock {
    _file: File,
    name: String,
}

impl PathLock {
    /// Takes the lock beside this path. Never waits if another program has it.
    pub(crate) fn of(rt: &HostRuntime, path: &str) -> Result<PathLock, SocketFault> {
        let name = format!(in rt.alloc(); "{path}.lock")?;
        for _ in 0..LOCKS {
            let Some(file) = lock_file(rt, name.as_str())? else {
                continue;
            };
            match file.try_lock() {
                Ok(()) => {}
                Err(TryLockError::WouldBlock) => return Err(SocketFault::Listens),
                Err(TryLockError::Error(error)) => return Err(error.into()),
            }
            // A file that was removed before it was locked locks nobody out.
            if is_named(rt, &file, name.as_str())? {
                return Ok(PathLock { _file: file, name });
            }
        }
        Err(SocketFault::Listens)
    }

    /// Removes its file. Only the holder of the lock may do that.
    pub(crate) fn remove<R: rt::Files>(&self, rt: &R) {
        let _ = fs::remove_file(rt, self.name.as_str());
    }
}

// Creates or opens the file of a lock; `None` if the file there changed meanwhile.
fn lock_file(rt: &HostRuntime, name: &str) -> Result<Option<File>, SocketFault> {
    let made = OpenOptions::new()
        .write(true)
        .create_new(true)
        .mode(0o600)
        .open(rt, name);
    match made {
        Ok(file) => Ok(Some(file)),
        Err(error) if error.kind() == ErrorKind::AlreadyExists => lock_file_there(rt, name),
        Err(error) => Err(error.into()),
    }
}

// Opens a lock's existing file: for reading and writing, since that never waits.
fn lock_file_there(rt: &HostRuntime, name: &str) -> Result<Option<File>, SocketFault> {
    let Some(about) = about(rt, name)? else {
        return Ok(None);
    };
    look_at_lock(&about)?;
    let file = match OpenOptions::new().read(true).write(true).open(rt, name) {
        Ok(file) => file,
        Err(error) if error.kind() == ErrorKind::NotFound => return Ok(None),
        Err(error) => return Err(error.into()),
    };
    if is_of(&file, &about)? {
        Ok(Some(file))
    } else {
        Ok(None)
    }
}

// Checks that the file at a lock's name may be opened.
fn look_at_lock(about: &Metadata) -> Result<(), SocketFault>
    ensures fine { IsOk result ↔ IsFile (file_type about.now) }
    ensures link { IsSymlink (file_type about.now) → result ≡ Err SocketFault.LockLink }
    ensures other { IsErr result → (IsSymlink (file_type about.now) → ⊥) → result
        ≡ Err SocketFault.LockTaken }
{
    if about.is_file() {
        Ok(())
    } else if about.is_symlink() {
        Err(SocketFault::LockLink)
    } else {
        Err(SocketFault::LockTaken)
    }
}

// The metadata of the name itself, if anything is there.
fn about(rt: &HostRuntime, name: &str) -> io::Result<Option<Metadata>> {
    match fs::symlink_metadata(rt, name) {
        Ok(about) => Ok(Some(about)),
        Err(error) if error.kind() == ErrorKind::NotFound => Ok(None),
        Err(error) => Err(error),
    }
}

// Whether an open file is the one with this metadata.
fn is_of(file: &File, about: &Metadata) -> io::Result<bool> {
    let own = file.metadata()?;
    Ok(about.dev() == own.dev() && about.ino() == own.ino())
}

// Whether the name still refers to this file.
fn is_named(rt: &HostRuntime, file: &File, name: &str) -> io::Result<bool> {
    match about(rt, name)? {
        Some(about) => is_of(file, &about),
        None => Ok(false),
    }
}

//! The socket at a path.
//!
//! The socket is created in a private folder, gets its mode there, and only then gets its name: so another
//! user can never connect. The path's owner holds a lock beside it, from before it checks the path until
//! after it has removed its own socket: so no program mistakes another's socket for a left-over one.
ghost use Rattle.std.specs.Prelude.{◌≡◌, ◌<◌, ◌≤◌, Err, IsOk, length};

use crate::path_lock::PathLock;
use runtime_stops::{MAX_NAME, SocketFault};
use std::fs::{DirBuilder, File, Metadata, Permissions};
use std::io::{self, ErrorKind};
use std::net::{Net, Shutdown};
use std::os::fd::{AsRawFd, OwnedFd};
use std::os::unix::fs::{DirBuilderExt, FileTypeExt, MetadataExt, PermissionsExt};
use std::os::unix::net::{UnixListener, UnixStream};
use std::{fs, rt};

// How many folder names are tried: other runs may have left some of the folders.
pub(crate) const FOLDERS: u32 = 100;

/// Checks that a path can be a socket's: not empty, and not longer than a socket's name may be.
pub fn look_at_path(path: &str) -> Result<(), SocketFault>
    ensures empty { length path.now ≡ 0 → result ≡ Err SocketFault.Empty }
    ensures long { MAX_NAME < length path.now → result ≡ Err SocketFault.TooLong }
    ensures fine { 0 < length path.now → length path.now ≤ MAX_NAME → IsOk result }
{
    if path.is_empty() {
        Err(SocketFault::Empty)
    } else if path.len() > MAX_NAME {
        Err(SocketFault::TooLong)
    } else {
        Ok(())
    }
}

/// A listening socket, and the identity of its file.
#[derive(Drop)]
pub(crate) struct Socket {
    pub(crate) listener: UnixListener,
    waker: UnixStream,
    device: u64,
    inode: u64,
    lock: PathLock,
}

impl Socket {
    /// Listens at this path. Replaces a left-over socket that nobody listens to; refuses a live socket, and
    /// anything else, and leaves it alone.
    pub(crate) fn at(rt: &HostRuntime, path: &str) -> Result<Socket, SocketFault> {
        look_at_path(path)?;
        let lock = PathLock::of(rt, path)?;
        match listener_at(rt, path) {
            Ok((made, about)) => Ok(Socket {
                listener: made.listener,
                waker: made.waker,
                device: about.dev(),
                inode: about.ino(),
                lock,
            }),
            Err(error) => {
                lock.remove(rt);
                Err(error)
            }
        }
    }

    /// Makes waiting for a connection fail, from now on.
    pub(crate) fn wake(&self) {
        let _ = self.waker.shutdown(Shutdown::Both);
    }

    /// Removes the file, if it is still this socket's, and releases the path.
    pub(crate) fn remove<R: rt::Files>(&self, rt: &R, path: &str) {
        if let Ok(about) = fs::symlink_metadata(rt, path) {
            if about.dev() == self.device && about.ino() == self.inode {
                let _ = fs::remove_file(rt, path);
            }
        }
        self.lock.remove(rt);
    }
}

/// A listener and a copy of it. Shutting the copy down like a stream ends waiting for connections. The copy
/// is made with the listener, since at the end there may be no free descriptor for it.
#[derive(Drop)]
struct Made {
    listener: UnixListener,
    waker: UnixStream,
}

// A new socket that listens at this path, and its file's metadata.
fn listener_at(rt: &HostRuntime, path: &str) -> Result<(Made, Metadata), SocketFault> {
    make_way(rt, path)?;
    let folder = own_folder(rt, path)?;
    let made = made_in(rt, folder.as_str(), path);
    let removed = fs::remove_dir(rt, folder.as_str());
    let made = made?;
    removed?;
    Ok((made, fs::symlink_metadata(rt, path)?))
}

// Frees the path: removes a left-over socket, and fails if anything else is there.
fn make_way<R: rt::Files + Net>(rt: &R, path: &str) -> Result<(), SocketFault> {
    let about = match fs::symlink_metadata(rt, path) {
        Ok(about) => about,
        Err(error) if error.kind() == ErrorKind::NotFound => return Ok(()),
        Err(error) => return Err(error.into()),
    };
    if !about.file_type().is_socket() {
        return Err(SocketFault::Taken);
    }
    // A socket with a full queue is live, so connecting to it does not wait.
    match mio::net::UnixStream::connect(rt, path) {
        Ok(_) => Err(SocketFault::Listens),
        Err(error) => match error.kind() {
            ErrorKind::ConnectionRefused => Ok(fs::remove_file(rt, path)?),
            ErrorKind::WouldBlock => Err(SocketFault::Listens),
            _ => Err(SocketFault::Taken),
        },
    }
}

// Creates a folder beside the path, for this user alone.
fn own_folder<R: rt::Files + AllocGlobal>(rt: &R, path: &str) -> Result<String, SocketFault> {
    for number in 0..FOLDERS {
        let folder = format!(in rt.alloc(); "{path}.new{number}")?;
        match DirBuilder::new().mode(0o700).create(rt, folder.as_str()) {
            Ok(()) => return Ok(folder),
            Err(error) if error.kind() == ErrorKind::AlreadyExists => {}
            Err(error) => return Err(error.into()),
        }
    }
    Err(SocketFault::Folders)
}

// Creates a socket in this folder, and links it at the path unless something has appeared there meanwhile.
fn made_in(rt: &HostRuntime, folder: &str, path: &str) -> Result<Made, SocketFault> {
    let own = format!(in rt.alloc(); "{folder}/s")?;
    let listener = listener_in(rt, folder, own.as_str())?;
    let named = named_by(rt, listener, own.as_str(), path);
    let removed = fs::remove_file(rt, own.as_str());
    let made = named?;
    removed?;
    Ok(made)
}

// A name that is too long for a socket is reached through the folder's file descriptor.
fn listener_in(rt: &HostRuntime, folder: &str, own: &str) -> io::Result<UnixListener> {
    if own.len() <= MAX_NAME {
        return UnixListener::bind(rt, own);
    }
    let open = File::open(rt, folder)?;
    let short = format!(in rt.alloc(); "/proc/self/fd/{}/s", open.as_raw_fd())?;
    UnixListener::bind(rt, short.as_str())
}

// Sets the mode and the name of a listener's socket, and returns the listener with its copy.
fn named_by<R: rt::Files>(
    rt: &R,
    listener: UnixListener,
    own: &str,
    path: &str,
) -> Result<Made, SocketFault> {
    let waker = UnixStream::from(OwnedFd::from(listener.try_clone()?));
    fs::set_permissions(rt, own, Permissions::from_mode(0o600))?;
    match fs::hard_link(rt, own, path) {
        Ok(()) => Ok(Made { listener, waker }),
        Err(error) if error.kind() == ErrorKind::AlreadyExists => Err(SocketFault::Taken),
        Err(error) => Err(error.into()),
    }
}

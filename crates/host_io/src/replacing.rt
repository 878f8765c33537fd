//! Writing the system's files.

use crate::system_disk::SystemDisk;
use crate::whole_file::put_whole;
use node_io::{Cause, CausedFault};
use std::fs::{Metadata, OpenOptions};
use std::io::{self, ErrorKind, Write};
use std::{fs, rt};

/// How many symbolic links are followed, one after the other: path_resolution(7).
pub(crate) const LINKS: u32 = 40;

/// Writes a file of the system completely, or leaves it as it was. If the path is a symbolic link, that is
/// the file to which it leads. A replaced file keeps its permissions. A new file gets those that the
/// umask of the process allows. A device or a pipe is written directly, since it has no contents to lose.
pub fn replace<R: rt::Files + AllocGlobal>(
    rt: &R,
    path: &str,
    bytes: &[u8],
) -> Result<(), CausedFault> {
    match about(rt, path)? {
        Some(about) if about.is_dir() => Err(CausedFault::failed(Cause::IsFolder)),
        Some(about) if !about.is_file() => write_at(rt, path, bytes),
        like => {
            let end = end_of(rt, path)?;
            put_whole(
                rt.alloc(),
                &mut SystemDisk::new(rt, like),
                end.as_str(),
                bytes,
            )
        }
    }
}

// The metadata of the file to which the path leads, if there is one.
fn about<R: rt::Files>(rt: &R, path: &str) -> Result<Option<Metadata>, CausedFault> {
    match fs::metadata(rt, path) {
        Ok(about) => Ok(Some(about)),
        Err(error) if error.kind() == ErrorKind::NotFound => Ok(None),
        Err(error) => Err(error.into()),
    }
}

fn write_at<R: rt::Files>(rt: &R, path: &str, bytes: &[u8]) -> Result<(), CausedFault> {
    let mut file = OpenOptions::new().write(true).open(rt, path)?;
    Ok(file.write_all(bytes)?)
}

// The path at the end of the symbolic links. The last link may lead to nothing.
fn end_of<R: rt::Files + AllocGlobal>(rt: &R, path: &str) -> Result<String, CausedFault> {
    let mut end = String::from_str(rt.alloc(), path)?;
    for _ in 0..LINKS {
        if !is_link(rt, end.as_str())? {
            return Ok(end);
        }
        end = next_of(rt, end.as_str())?;
    }
    Err(CausedFault::failed(Cause::TooManyLinks))
}

fn is_link<R: rt::Files>(rt: &R, path: &str) -> io::Result<bool> {
    match fs::symlink_metadata(rt, path) {
        Ok(about) => Ok(about.is_symlink()),
        Err(error) if error.kind() == ErrorKind::NotFound => Ok(false),
        Err(error) => Err(error),
    }
}

// The path to which a link leads: its text, relative to the link's own folder unless it begins at the root.
fn next_of<R: rt::Files + AllocGlobal>(rt: &R, link: &str) -> Result<String, CausedFault> {
    let to = fs::read_link(rt, link)?.into_string();
    match link.rsplit_once('/') {
        Some((folder, _)) if !to.as_str().starts_with('/') => {
            Ok(format!(in rt.alloc(); "{folder}/{}", to.as_str())?)
        }
        _ => Ok(to),
    }
}

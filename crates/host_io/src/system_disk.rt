use crate::disk::{Disk, NewFault};
use node_io::{Cause, CausedFault};
use std::fs::{Metadata, OpenFile, OpenOptions};
use std::io::{self, ErrorKind, Write};
use std::os::unix::fs::{MetadataExt, OpenOptionsExt, lchown};
use std::{fs, rt};

/// The system's files. A new one gets the permissions of the file that it is like, if there is one, and its
/// owner, if the user may set it.
#[derive(Drop)]
pub(crate) struct SystemDisk<'a, R> {
    rt: &'a R,
    like: Option<Metadata>,
}

impl<'a, R: rt::Files> SystemDisk<'a, R> {
    pub(crate) fn new(rt: &'a R, like: Option<Metadata>) -> SystemDisk<'a, R> {
        SystemDisk { rt, like }
    }

    // How a new file is opened. Nobody else can open one that is like another before it has its permissions.
    fn how(&self) -> OpenOptions {
        let mut how = OpenOptions::new();
        how.write(true).create_new(true);
        if self.like.is_some() {
            how.mode(0o600);
        }
        how
    }

    // Writes a new file, open at this path, down to the device.
    fn fill(&self, file: &mut R::File, path: &str, bytes: &[u8]) -> io::Result<()> {
        if let Some(like) = &self.like {
            let own = file.metadata()?;
            if own.uid() != like.uid() || own.gid() != like.gid() {
                // Only root may change a file's owner. A link put there meanwhile is not followed.
                let _ = lchown(self.rt, path, Some(like.uid()), Some(like.gid()));
            }
            file.set_permissions(like.permissions())?;
        }
        file.write_all(bytes)?;
        file.sync_all()
    }
}

// The fault of a call that makes, moves or removes a file: what it does not find is the folder.
fn fault_of(error: io::Error) -> CausedFault {
    match error.kind() {
        ErrorKind::NotFound => CausedFault::failed(Cause::NoFolder),
        _ => error.into(),
    }
}

impl<'a, R: rt::Files> Disk for SystemDisk<'a, R> {
    fn write_new(&mut self, path: &str, bytes: &[u8]) -> Result<(), NewFault> {
        let mut file = match self.how().open(self.rt, path) {
            Ok(file) => file,
            Err(error) => {
                return Err(match error.kind() {
                    ErrorKind::AlreadyExists => NewFault::Taken,
                    _ => NewFault::Unmade(fault_of(error)),
                });
            }
        };
        match self.fill(&mut file, path, bytes) {
            Ok(()) => Ok(()),
            Err(error) => Err(NewFault::Unfinished(error.into())),
        }
    }

    fn rename(&mut self, from: &str, to: &str) -> Result<(), CausedFault> {
        match fs::rename(self.rt, from, to) {
            Ok(()) => Ok(()),
            Err(error) => Err(fault_of(error)),
        }
    }

    fn remove(&mut self, path: &str) -> Result<(), CausedFault> {
        match fs::remove_file(self.rt, path) {
            Ok(()) => Ok(()),
            Err(error) => Err(fault_of(error)),
        }
    }
}

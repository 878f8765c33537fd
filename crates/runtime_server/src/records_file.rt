//! The file to which records are appended.

use crate::line_writer::Outlet;
use crate::recording::RecordsFault;
use fault_notes::ShownPath;
use node_io::{Cause, CausedFault};
use std::alloc::AllocError;
use std::fs::{self, File, OpenOptions};
use std::io::{self, ErrorKind, Write};
use std::os::unix::fs::MetadataExt;

/// A file to which whole lines are appended. If its path now names another file, as after log rotation, the
/// next line goes there; if the path names none, a new file is created.
#[derive(Drop)]
pub(crate) struct RecordsFile {
    // The name of the program that reports faults of the file.
    program: &'static str,
    path: String,
    open: Option<OpenFile>,
    // Whether the last line could not be written.
    is_failing: bool,
    // How many records were lost since the last report.
    lost: u64,
}

#[derive(Drop)]
struct OpenFile {
    file: File,
    // Whether it ends in the middle of a line, whose rest could not be written.
    is_torn: bool,
}

impl RecordsFile {
    /// Opens the file at this path, and creates it if missing. A pipe is opened only with the first line:
    /// opening it would wait for its reader.
    pub(crate) fn at(
        system: &HostRuntime,
        program: &'static str,
        path: &str,
    ) -> Result<RecordsFile, RecordsFault> {
        let open = match open_regular(system, path) {
            Ok(open) => open,
            Err(error) => {
                let cause = Cause::of(&error);
                return Err(RecordsFault::File(CausedFault::failed(cause)));
            }
        };
        Ok(RecordsFile {
            program,
            path: String::from_str(system.alloc(), path)?,
            open,
            is_failing: false,
            lost: 0,
        })
    }

    fn append(&mut self, system: &HostRuntime, line: &str) -> io::Result<()> {
        let mut open = match self.open.take() {
            Some(open) if is_at(system, &open.file, self.path.as_str()) => open,
            _ => open_at(system, self.path.as_str())?,
        };
        let wrote = open.append(system, line);
        self.open = Some(open);
        wrote
    }

    fn lose(&mut self, system: &HostRuntime, error: &io::Error) {
        self.lost = self.lost.saturating_add(1);
        if !self.is_failing {
            let (program, path) = (self.program, ShownPath(self.path.as_str()));
            let cause = Cause::of(error);
            let _ = eprintln!(system; "{program}: {path}: Failed ({cause}), records are lost");
        }
        self.is_failing = true;
    }
}

impl Outlet for RecordsFile {
    fn write_line(&mut self, system: &HostRuntime, line: &str) -> io::Result<()> {
        match self.append(system, line) {
            Ok(()) => {
                self.is_failing = false;
                Ok(())
            }
            Err(error) => {
                self.lose(system, &error);
                Err(error)
            }
        }
    }

    /// Reports how many records were lost, once they are written again.
    fn rest(&mut self, system: &HostRuntime, left_out: u64) {
        self.lost = self.lost.saturating_add(left_out);
        if self.is_failing || self.lost == 0 {
            return;
        }
        let (program, path) = (self.program, ShownPath(self.path.as_str()));
        let _ = eprintln!(system; "{program}: {path}: {} records were lost", self.lost);
        self.lost = 0;
    }
}

impl OpenFile {
    // Appends a line as a whole. If only part of it can be written, removes that part again; if the file
    // can't be cut, the next record begins on a new line.
    fn append(&mut self, system: &HostRuntime, line: &str) -> io::Result<()> {
        let start = if self.is_torn { "\n" } else { "" };
        let text = format!(in system.alloc(); "{start}{line}\n")?;
        let (written, wrote) = write_all_of(&mut self.file, text.as_bytes());
        match wrote {
            Ok(()) => self.is_torn = false,
            Err(_) => self.is_torn = self.is_torn || (written > 0 && !cut(&self.file, written)),
        }
        wrote
    }
}

// Writes the bytes, and returns how many were written.
fn write_all_of(file: &mut File, bytes: &[u8]) -> (usize, io::Result<()>) {
    let mut written = 0;
    for _ in 0..u64::MAX {
        if written >= bytes.len() {
            break;
        }
        match file.write(&bytes[written..]) {
            Ok(0) => return (written, Err(io::Error::from(ErrorKind::WriteZero))),
            Ok(more) => written = written.saturating_add(more),
            Err(error) if error.kind() == ErrorKind::Interrupted => {}
            Err(error) => return (written, Err(error)),
        }
    }
    (written, Ok(()))
}

// Cuts this many bytes off the end of a file, and returns whether that succeeded.
fn cut(file: &File, bytes: usize) -> bool {
    let Ok(about) = file.metadata() else {
        return false;
    };
    match about.len().checked_sub(bytes as u64) {
        Some(len) => about.is_file() && file.set_len(len).is_ok(),
        None => false,
    }
}

// Whether this file is the one at the path.
fn is_at(system: &HostRuntime, file: &File, path: &str) -> bool {
    match (file.metadata(), fs::metadata(system, path)) {
        (Ok(open), Ok(found)) => open.dev() == found.dev() && open.ino() == found.ino(),
        _ => false,
    }
}

// Opens the file at the path for appending. `None` for a pipe or a device.
fn open_regular(system: &HostRuntime, path: &str) -> io::Result<Option<OpenFile>> {
    match fs::metadata(system, path) {
        Ok(about) if !about.is_file() && !about.is_dir() => Ok(None),
        _ => Ok(Some(open_at(system, path)?)),
    }
}

fn open_at(system: &HostRuntime, path: &str) -> io::Result<OpenFile> {
    let file = OpenOptions::new()
        .append(true)
        .create(true)
        .open(system, path)?;
    Ok(OpenFile {
        file,
        is_torn: false,
    })
}

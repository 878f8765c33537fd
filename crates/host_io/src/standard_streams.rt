//! The standard streams that a program was started without.

use std::fs::{File, OpenOptions};
use std::os::fd::{AsRawFd, IntoRawFd};
use std::{io, rt};

// The number of standard error, the last of the standard streams: stdin(3).
const LAST_STREAM: i32 = 2;

// How many standard streams there are.
const STREAMS: u32 = 3;

/// Opens each closed standard stream on the null device, so that no file that is opened later gets its
/// number. It is opened for reading: a read of standard input ends at once, and a write to standard output or
/// error still fails, as if it were closed. Call this before any other file is opened.
pub fn open_closed<R: rt::Files<File = File>>(rt: &R) -> io::Result<()> {
    // The system returns the lowest free number.
    for _ in 0..=STREAMS {
        let file = OpenOptions::new().read(true).open(rt, "/dev/null")?;
        if file.as_raw_fd() > LAST_STREAM {
            return Ok(());
        }
        // It stays open until the process ends.
        let _ = file.into_raw_fd();
    }
    Ok(())
}

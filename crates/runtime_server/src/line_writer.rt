//! A queue of lines from any thread, and the one thread that writes them to standard output, to standard
//! error or to a file: adding a line never waits for the reader.

use crate::line_queue::LineQueue;
use node_io::Cause;
use std::alloc::{AllocError, Global};
use std::io;
use std::sync::{Arc, Condvar, CondvarTimeouts, Mutex, Wait};
use std::thread::{Threads, spawn};
use std::time::{Clock, Duration};

/// How many seconds a program waits, at its end, for a reader that reads nothing.
pub const READER_PATIENCE: u64 = 10;

/// Where lines are written.
pub trait Outlet {
    /// Writes a line, and its end.
    fn write_line(&mut self, system: &HostRuntime, line: &str) -> io::Result<()>;

    /// Called when no lines wait. `left_out` lines were left out after the last one.
    fn rest(&mut self, system: &HostRuntime, left_out: u64);
}

/// A stream of the process.
#[derive(Clone, Copy, Debug, PartialEq, Eq)]
pub enum Stream {
    Output,
    Error,
}

impl Outlet for Stream {
    fn write_line(&mut self, system: &HostRuntime, line: &str) -> io::Result<()> {
        match self {
            Stream::Output => println!(system; "{line}"),
            Stream::Error => eprintln!(system; "{line}"),
        }
    }

    /// Nobody added this line, so it goes to standard error in any case.
    fn rest(&mut self, system: &HostRuntime, left_out: u64) {
        if left_out > 0 {
            let _ = eprintln!(system; "{left_out} lines left out");
        }
    }
}

/// Takes lines from any thread, and has them written whole and in order of arrival.
#[derive(Drop)]
pub struct LineWriter {
    alloc: Global,
    waiting: Mutex<LineQueue>,
    changed: Condvar,
}

impl LineWriter {
    /// Starts the writer, in a thread that ends with the program.
    pub fn start<R: Threads + Wait + Copy + Send + 'static, O: Outlet + Drop + Send + 'static>(
        rt: R,
        system: HostRuntime,
        outlet: O,
    ) -> Result<Arc<LineWriter, Global>, AllocError> {
        let alloc = system.alloc();
        let writer = Arc::new(
            alloc,
            LineWriter {
                alloc,
                waiting: Mutex::new(LineQueue::new(alloc)),
                changed: Condvar::new(),
            },
        )?;
        let its = Arc::try_clone(&writer)?;
        let thread = spawn(&rt, move || its.write_lines(&rt, &system, outlet))?;
        drop(thread);
        Ok(writer)
    }

    /// Records that this many lines are missing here.
    pub fn miss<R: Wait>(&self, rt: &R, lines: u64) {
        self.waiting.lock(rt).miss(lines);
        self.changed.notify_all();
    }

    /// Adds a line. If there is no memory for it, or no room in the queue, it is left out and counted.
    pub fn tell<R: Wait>(&self, rt: &R, line: Result<String, AllocError>) {
        self.waiting.lock(rt).add(line);
        self.changed.notify_all();
    }

    // Waits for lines, and takes them with the number of lines left out after them.
    fn take<R: Wait>(&self, rt: &R) -> (Vec<String>, u64) {
        let mut waiting = self.waiting.lock(rt);
        waiting.rest();
        self.changed.notify_all();
        let mut waiting = self
            .changed
            .wait_while(rt, waiting, |waiting| waiting.is_empty());
        waiting.take(self.alloc)
    }

    fn count_written<R: Wait>(&self, rt: &R, wrote: io::Result<()>) {
        let cause = match wrote {
            Ok(()) => None,
            Err(error) => Some(Cause::of(&error)),
        };
        self.waiting.lock(rt).count_written(cause);
    }

    /// Why lines can't be written, if one could not.
    pub fn failure<R: Wait>(&self, rt: &R) -> Option<Cause> {
        self.waiting.lock(rt).failure()
    }

    // The body of the writer's thread. A line that can't be written is lost.
    fn write_lines<R: Wait, O: Outlet + Drop>(&self, rt: &R, system: &HostRuntime, outlet: O) {
        let mut outlet = outlet;
        for _ in rt.forever() {
            let (lines, left_out) = self.take(rt);
            for line in lines.as_slice() {
                self.count_written(rt, outlet.write_line(system, line.as_str()));
            }
            outlet.rest(system, left_out);
        }
    }

    /// Waits until all added lines are written, or until none has been for ten seconds.
    pub fn finish<R: Wait + Clock>(&self, rt: &R) {
        let mut waiting = self.waiting.lock(rt);
        for _ in rt.forever() {
            let written = waiting.written();
            let patience = Duration::from_secs(READER_PATIENCE);
            let (later, outcome) = self
                .changed
                .wait_timeout_while(rt, waiting, patience, |waiting| !waiting.is_done());
            if !outcome.timed_out() || later.written() == written {
                break;
            }
            waiting = later;
        }
    }
}

//! The lines that wait for the thread that writes them.
ghost use Rattle.std.specs.Prelude.{◌≡◌, ◌<◌, ◌+◌, [], IsTrue, None, false, length, true};
ghost use Rattle.std.specs.Prelude.{vec_capacity, vec_len};
ghost use Rattle.runtime_server.specs.Queue.{Adds, IsQueued, capped, first_cause, is_none};

use node_io::Cause;
use std::alloc::{AllocError, Global};
use std::mem;

/// The most lines that may wait for their reader. Further lines are left out, and counted.
pub const MAX_WAITING: usize = 16_384;

/// Lines that wait for their writer.
#[derive(Drop)]
pub(crate) struct LineQueue {
    lines: Vec<String>,
    // How many were left out after these.
    left_out: u64,
    // How many were written so far.
    written: u64,
    // Whether the writer has written all that it took.
    is_idle: bool,
    // Why a line could not be written: the first such cause that is known.
    failed: Option<Cause>,
}

impl LineQueue {
    /// No lines.
    pub(crate) fn new(alloc: Global) -> LineQueue
        ensures lines { result.lines.items ≡ [] }
        ensures left_out { result.left_out ≡ 0 }
        ensures failed { result.failed ≡ None }
    {
        LineQueue {
            lines: Vec::new(alloc),
            left_out: 0,
            written: 0,
            is_idle: false,
            failed: None,
        }
    }

    /// Whether no line waits, and none was left out.
    pub(crate) fn is_empty(&self) -> bool
        ensures { result ≡ is_none self.now.lines.items self.now.left_out }
    {
        self.lines.is_empty() && self.left_out == 0
    }

    /// Whether the writer has written all lines.
    pub(crate) fn is_done(&self) -> bool
        ensures idle { IsTrue result → self.now.is_idle ≡ true }
        ensures none { IsTrue result → is_none self.now.lines.items self.now.left_out ≡ true }
    {
        self.is_idle && self.is_empty()
    }

    /// Adds a line. If there is no memory for it, or no place in the queue, it is left out and counted.
    pub(crate) fn add(&mut self, line: Result<String, AllocError>)
        ensures adds { Adds line self.old.lines.items self.old.left_out
            self.new.lines.items self.new.left_out }
        // A line for which there is a place is not left out.
        ensures place { length self.old.lines.items < 16384 → vec_len self.old.lines < vec_capacity self.old.lines
            → IsQueued line self.old.lines.items self.old.left_out self.new.lines.items self.new.left_out }
        ensures failed { self.new.failed ≡ self.old.failed }
    {
        let has_place = self.lines.len() < MAX_WAITING;
        let is_added = match line {
            Ok(line) => has_place && self.lines.push(line).is_ok(),
            Err(_) => false,
        };
        if !is_added {
            self.miss(1);
        }
    }

    /// Records that this many lines are missing here.
    pub(crate) fn miss(&mut self, lines: u64)
        ensures lines { self.new.lines ≡ self.old.lines }
        ensures left_out { self.new.left_out ≡ capped (self.old.left_out + lines) }
        ensures failed { self.new.failed ≡ self.old.failed }
    {
        self.left_out = self.left_out.saturating_add(lines);
    }

    /// The writer has written all that it took.
    pub(crate) fn rest(&mut self)
        ensures idle { self.new.is_idle ≡ true }
        ensures lines { self.new.lines ≡ self.old.lines }
        ensures left_out { self.new.left_out ≡ self.old.left_out }
    {
        self.is_idle = true;
    }

    /// Takes all lines, and the number of lines left out after them.
    pub(crate) fn take(&mut self, alloc: Global) -> (Vec<String>, u64)
        ensures lines { result.0 ≡ self.old.lines }
        ensures left_out { result.1 ≡ self.old.left_out }
        ensures none { is_none self.new.lines.items self.new.left_out ≡ true }
        ensures idle { self.new.is_idle ≡ false }
        ensures failed { self.new.failed ≡ self.old.failed }
    {
        self.is_idle = false;
        let lines = mem::replace(&mut self.lines, Vec::new(alloc));
        let left_out = mem::replace(&mut self.left_out, 0);
        (lines, left_out)
    }

    /// Counts a line that was written, or could not be for this cause.
    pub(crate) fn count_written(&mut self, cause: Option<Cause>)
        ensures failed { self.new.failed ≡ first_cause self.old.failed cause }
        ensures lines { self.new.lines ≡ self.old.lines }
        ensures left_out { self.new.left_out ≡ self.old.left_out }
    {
        self.written = self.written.wrapping_add(1);
        self.failed = self.failed.or(cause);
    }

    /// How many lines were written so far, modulo 2^64.
    pub(crate) fn written(&self) -> u64
        ensures { result ≡ self.now.written }
    {
        self.written
    }

    /// Why lines can't be written, if one could not.
    pub(crate) fn failure(&self) -> Option<Cause>
        ensures { result ≡ self.now.failed }
    {
        self.failed
    }
}

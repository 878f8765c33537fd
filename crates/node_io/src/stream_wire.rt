ghost use Rattle.std.specs.Prelude.{◌≡◌, ◌≤◌, Some};
ghost use Rattle.std.specs.IoError.{error_kind, raw_os_error};
ghost use Rattle.node_io.specs.Causes.{cause_of, waited};
ghost use Rattle.node_io.specs.Counts.{HasRisen};

use crate::causes::Cause;
use crate::wire::{Wire, WireFault};
use std::io::{self, Read, Write};
use std::marker::Model;

/// A wire over a stream of the system, such as a connected `UnixStream`. A call that is interrupted
/// counts as a failure, and so does a write that moves nothing.
#[derive(Drop)]
pub struct StreamWire<S> {
    stream: S,
    failures: u64,
    // The cause of the last failed call, if the system reported one.
    cause: Option<Cause>,
}

// Its model is the count of its failures.
impl<S> Model for StreamWire<S> {
    ghost use Rattle.std.specs.Prelude.{ℕ};

    ghost Value = { ℕ };

    ghost view = { λ w. w.failures };
}

impl<S: Read + Write> StreamWire<S> {
    /// The wire over this stream.
    pub fn new(stream: S) -> StreamWire<S>
        ensures { result ≡ 0 }
    {
        StreamWire {
            stream,
            failures: 0,
            cause: None,
        }
    }

    /// The cause of the last failed call, if the system reported one.
    pub fn cause(&self) -> Option<Cause> {
        self.cause
    }

    // Counts a failure, and returns the fault.
    fn fault(&mut self, cause: Option<Cause>) -> WireFault
        ensures risen { HasRisen self.old self.new }
        ensures counted { self.old ≤ self.new }
    {
        self.failures = self.failures.saturating_add(1);
        self.cause = cause;
        WireFault
    }
}

// WouldBlock is TimedOut here: a call on a stream with a time limit fails with it if it would have to wait
// longer.
fn cause_of(error: &io::Error) -> Option<Cause>
    ensures { result ≡ Some (waited (cause_of (error_kind error.now) (raw_os_error error.now))) }
{
    match Cause::of(error) {
        Cause::WouldBlock => Some(Cause::TimedOut),
        cause => Some(cause),
    }
}

impl<S: Read + Write> Wire for StreamWire<S> {
    ghost failed = { λ w. w };

    fn read(&mut self, buf: &mut [u8]) -> Result<usize, WireFault> {
        match self.stream.read(buf) {
            Ok(count) => Ok(count),
            Err(error) => Err(self.fault(cause_of(&error))),
        }
    }

    fn write(&mut self, bytes: &[u8]) -> Result<usize, WireFault> {
        if bytes.is_empty() {
            return Ok(0);
        }
        match self.stream.write(bytes) {
            Ok(count) if count > 0 => Ok(count),
            Ok(_) => Err(self.fault(None)),
            Err(error) => Err(self.fault(cause_of(&error))),
        }
    }

    fn failures(&self) -> u64 {
        self.failures
    }
}

//! The connection of one call: connecting, writing and reading share one deadline, however slow the peer is.

use runtime_server::Connections;
use std::io::{self, ErrorKind, Read, Write};
use std::os::unix::net::UnixStream;
use std::sync::Wait;
use std::thread;
use std::time::{Clock, Duration, Instant};

// How many milliseconds to wait before connecting again, if the listener's queue is full.
pub(crate) const QUEUE_REST: u64 = 10;

/// The deadline of a call.
#[derive(Clone, Copy)]
pub(crate) struct Deadline {
    start: Option<Instant>,
    span: Duration,
}

impl Deadline {
    /// This many seconds from now.
    pub(crate) fn in_seconds<R: Clock>(rt: &R, seconds: u64) -> Deadline {
        Deadline {
            start: Instant::now(rt).ok(),
            span: Duration::from_secs(seconds),
        }
    }

    // The time left, if there is any. A clock that can't be read does not advance.
    fn left<R: Clock>(&self, rt: &R) -> Option<Duration> {
        let passed = match self.start.map(|start| start.elapsed(rt)) {
            Some(Ok(passed)) => passed,
            Some(Err(_)) | None => Duration::ZERO,
        };
        let left = self.span.saturating_sub(passed);
        if left.is_zero() { None } else { Some(left) }
    }
}

/// Connects to the socket at this path. If the listener's queue is full, waits for a place in it until the
/// deadline, or until calls are ended.
pub(crate) fn connect<R: Wait + Clock>(
    rt: &R,
    system: &HostRuntime,
    open: &Connections,
    path: &str,
    deadline: Deadline,
) -> io::Result<UnixStream> {
    for _ in rt.forever() {
        match mio::net::UnixStream::connect(system, path) {
            Ok(stream) => {
                let stream = UnixStream::from(stream);
                stream.set_nonblocking(false)?;
                return Ok(stream);
            }
            Err(error) => {
                let is_full = matches!(
                    error.kind(),
                    ErrorKind::WouldBlock | ErrorKind::Interrupted
                );
                if !is_full || deadline.left(rt).is_none() || open.is_closed(rt) {
                    return Err(error);
                }
            }
        }
        thread::sleep(rt, Duration::from_millis(QUEUE_REST));
    }
    unreachable!()
}

/// A connection whose reads and writes fail after the deadline.
#[derive(Drop)]
pub(crate) struct TimedStream<'a, R: Clock> {
    pub(crate) rt: &'a R,
    pub(crate) stream: UnixStream,
    pub(crate) deadline: Deadline,
}

impl<R: Clock> TimedStream<'_, R> {
    fn left(&self) -> io::Result<Duration> {
        match self.deadline.left(self.rt) {
            Some(left) => Ok(left),
            None => Err(io::Error::from(ErrorKind::TimedOut)),
        }
    }
}

impl<R: Clock> Read for TimedStream<'_, R> {
    // Repeats a read that a signal interrupts, as when the process was stopped and continued.
    fn read(&mut self, buf: &mut [u8]) -> io::Result<usize> {
        for _ in 0..u64::MAX {
            self.stream.set_read_timeout(Some(self.left()?))?;
            match self.stream.read(buf) {
                Err(error) if error.kind() == ErrorKind::Interrupted => {}
                read => return read,
            }
        }
        Err(io::Error::from(ErrorKind::Interrupted))
    }
}

impl<R: Clock> Write for TimedStream<'_, R> {
    fn write(&mut self, buf: &[u8]) -> io::Result<usize> {
        for _ in 0..u64::MAX {
            self.stream.set_write_timeout(Some(self.left()?))?;
            match self.stream.write(buf) {
                Err(error) if error.kind() == ErrorKind::Interrupted => {}
                written => return written,
            }
        }
        Err(io::Error::from(ErrorKind::Interrupted))
    }

    fn flush(&mut self) -> io::Result<()> {
        Ok(())
    }
}

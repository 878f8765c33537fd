//! Whether somebody still reads standard output.

use mio::unix::SourceFd;
use mio::{Events, Interest, Poll, Token};
use std::io;
use std::os::fd::RawFd;
use std::time::Duration;

// The descriptor of standard output.
const OUTPUT: RawFd = 1;

// Asks the system whether the reader of this descriptor has closed it.
fn is_closed(system: &HostRuntime, fd: RawFd) -> io::Result<bool> {
    let mut poll = Poll::new(system)?;
    let mut events = Events::with_capacity(system.alloc(), 1)?;
    poll.registry()
        .register(&mut SourceFd(&fd), Token(0), Interest::WRITABLE)?;
    poll.poll(&mut events, Some(Duration::ZERO))?;
    Ok(
        events
            .iter()
            .any(|event| event.is_error() || event.is_write_closed()),
    )
}

/// Whether the reader of standard output is gone. A file has no reader.
pub(crate) fn is_gone(system: &HostRuntime) -> bool {
    is_closed(system, OUTPUT).unwrap_or(false)
}

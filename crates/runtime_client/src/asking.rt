//! A call over a connection of its own.
ghost use Rattle.std.specs.Prelude.{◌≡◌, IfOk};

use cri_frames::{Lost, call_over};
use cri_msgs::{Reply, Request, Version};
use node_io::{Cause, StreamWire};
use std::io;
use std::os::unix::net::UnixStream;
use std::time::Duration;

// How many seconds a read or a write waits for the runtime.
const PATIENCE: u64 = 10;

/// Why a call failed.
#[derive(Clone, Copy, Debug)]
pub(crate) enum AskFault {
    /// No connection could be made.
    NotConnected(Cause),
    /// The call was lost after its connection, with the system's cause, if it has one.
    Lost(Lost, Option<Cause>),
}

/// Sends a request to the runtime that listens at this path, and returns the reply.
pub(crate) fn ask(system: &HostRuntime, path: &str, request: &Request) -> Result<Reply, AskFault>
    ensures { IfOk result (λ reply. reply.id ≡ request.now.id) }
{
    let stream = match connect(system, path) {
        Ok(stream) => stream,
        Err(error) => return Err(AskFault::NotConnected(Cause::of(&error))),
    };
    let mut wire = StreamWire::new(stream);
    match call_over(system.alloc(), &mut wire, request, Version::V2) {
        Ok(reply) => Ok(reply),
        Err(lost) => Err(AskFault::Lost(lost, wire.cause())),
    }
}

fn connect(system: &HostRuntime, path: &str) -> io::Result<UnixStream> {
    let stream = UnixStream::connect(system, path)?;
    stream.set_read_timeout(Some(Duration::from_secs(PATIENCE)))?;
    stream.set_write_timeout(Some(Duration::from_secs(PATIENCE)))?;
    Ok(stream)
}

//! Why `scriptctl` ends before its work is done.
ghost use Rattle.std.specs.Prelude.{◌≡◌};

use crate::asking::AskFault;
use command_line::LineFault;
use cri_frames::Lost;
use fault_notes::ShownPath;
use node_io::Cause;
use runtime_stops::{ServerStop, SocketFault, StopLine, socket_stop};
use std::alloc::AllocError;
use std::fmt;

/// Why the program ends before its work is done.
#[derive(Debug, Drop)]
pub(crate) enum ClientStop<'a> {
    /// What may also stop a program that serves a runtime.
    Server(ServerStop<'a>),
    /// A word is not a uid.
    BadUid(&'a str),
    /// The call over the socket at this path was lost.
    Lost(&'a str, Lost, Option<Cause>),
}

impl ClientStop<'_> {
    /// The program's exit status.
    pub(crate) fn status(&self) -> u8 {
        match self {
            ClientStop::Server(stop) => stop.status(),
            ClientStop::BadUid(_) => 2,
            ClientStop::Lost(_, _, _) => 3,
        }
    }
}

/// The line on standard error, with its end.
impl fmt::Display for ClientStop<'_> {
    fn fmt<W: fmt::Write>(&self, f: &mut fmt::Formatter<W>) -> fmt::Result {
        match self {
            ClientStop::Server(stop) => {
                let told = StopLine {
                    program: "scriptctl",
                    stop,
                };
                write!(f, "{told}")
            }
            ClientStop::BadUid(word) => writeln!(f, "scriptctl: {}: BadUid", ShownPath(word)),
            ClientStop::Lost(path, lost, None) => {
                writeln!(f, "scriptctl: {}: {lost}", ShownPath(path))
            }
            ClientStop::Lost(path, lost, Some(cause)) => {
                writeln!(f, "scriptctl: {}: {lost} ({cause})", ShownPath(path))
            }
        }
    }
}

impl<'a> From<AllocError> for ClientStop<'a> {
    fn from(_: AllocError) -> ClientStop<'a> {
        ClientStop::Server(ServerStop::Memory)
    }
}

impl<'a> From<LineFault<'a>> for ClientStop<'a> {
    fn from(fault: LineFault<'a>) -> ClientStop<'a> {
        ClientStop::Server(ServerStop::from(fault))
    }
}

/// The stop for a failed call.
pub(crate) fn ask_stop(path: &str, fault: AskFault) -> ClientStop<'_> {
    match fault {
        AskFault::NotConnected(cause) => {
            ClientStop::Server(socket_stop(path, SocketFault::System(cause)))
        }
        AskFault::Lost(Lost::Memory, _) => ClientStop::Server(ServerStop::Memory),
        AskFault::Lost(lost, cause) => ClientStop::Lost(path, lost, cause),
    }
}

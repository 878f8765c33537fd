use node_io::Cause;
use std::alloc::AllocError;
use std::fmt;
use std::io::{self, ErrorKind};

/// The most bytes of a socket's name: unix(7) has room for 108, including the final 0.
pub const MAX_NAME: usize = 107;

/// Why no socket can be made at a path.
#[derive(Clone, Copy, Debug, PartialEq, Eq)]
pub enum SocketFault {
    /// A runtime listens there, or is about to.
    Listens,
    /// The file there is not a runtime's socket.
    Taken,
    /// The path's folder does not exist.
    NoFolder,
    /// The path is empty.
    Empty,
    /// The path is too long for a socket's name.
    TooLong,
    /// The file of the path's lock is a symbolic link.
    LockLink,
    /// The file of the path's lock is not a regular file.
    LockTaken,
    /// The folders in which the socket could be made are all taken.
    Folders,
    /// The system refused a call.
    System(Cause),
    /// An allocation failed, or a thread could not be started.
    Memory,
}

impl From<AllocError> for SocketFault {
    ghost use Rattle.std.specs.Prelude.{◌≡◌};
    ghost use Rattle.runtime_stops.specs.declared.socket_fault.SocketFault.TheVariants.{Memory};

    ghost from_gives = { λ _ fault. fault ≡ Memory };

    fn from(_: AllocError) -> SocketFault {
        SocketFault::Memory
    }
}

impl From<io::Error> for SocketFault {
    ghost use Rattle.std.specs.Prelude.{◌≡◌};
    ghost use Rattle.std.specs.IoError.{error_kind, raw_os_error};
    ghost use Rattle.runtime_stops.specs.Stops.{of_error};

    ghost from_gives = { λ error fault. fault ≡ of_error (error_kind error) (raw_os_error error) };

    fn from(error: io::Error) -> SocketFault {
        match error.kind() {
            ErrorKind::NotFound => SocketFault::NoFolder,
            ErrorKind::OutOfMemory => SocketFault::Memory,
            _ => SocketFault::System(Cause::of(&error)),
        }
    }
}

/// A few words of plain English.
impl fmt::Display for SocketFault {
    ghost use Rattle.std.specs.Prelude.{Some};
    ghost use Rattle.runtime_stops.specs.StopText.{socket_text};

    ghost output = { λ fault. Some (socket_text fault) };

    fn fmt<W: fmt::Write>(&self, f: &mut fmt::Formatter<W>) -> fmt::Result {
        match self {
            SocketFault::Listens => f.write_str("a runtime listens there"),
            SocketFault::Taken => f.write_str("something else stands there"),
            SocketFault::NoFolder => f.write_str("no such folder"),
            SocketFault::Empty => f.write_str("empty path"),
            SocketFault::TooLong => write!(f, "path too long, at most {MAX_NAME} bytes"),
            SocketFault::LockLink => f.write_str("its lock file is a symbolic link"),
            SocketFault::LockTaken => f.write_str("its lock file is not a regular file"),
            SocketFault::Folders => f.write_str("its folders .new0 to .new99 are taken"),
            SocketFault::System(cause) => write!(f, "{cause}"),
            SocketFault::Memory => f.write_str("Memory"),
        }
    }
}

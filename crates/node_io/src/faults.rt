ghost use Rattle.std.specs.Prelude.{◌≡◌};
ghost use Rattle.node_io.specs.Causes.{failed_by};

use crate::causes::Cause;
use std::alloc::AllocError;
use std::fmt;
use std::io::{self, ErrorKind};
use thiserror::Error;

/// Why a file was not read.
#[derive(Clone, Copy, Debug, PartialEq, Eq, Error)]
pub enum FileFault {
    /// There is no such file.
    NotFound,
    /// It has more bytes than were allowed.
    TooLarge,
    /// The device failed, or the path does not lead to a regular file.
    Failed,
    /// An allocation failed, or the system had no memory to open the file.
    Memory,
}

impl From<AllocError> for FileFault {
    ghost use Rattle.std.specs.Prelude.{◌≡◌};
    ghost use Rattle.node_io.specs.declared.faults.FileFault.TheVariants.{Memory};

    ghost from_gives = { λ _ fault. fault ≡ Memory };

    fn from(_: AllocError) -> FileFault {
        FileFault::Memory
    }
}

/// The fault's name.
impl fmt::Display for FileFault {
    ghost use Rattle.std.specs.Prelude.{Some};
    ghost use Rattle.node_io.specs.FaultText.{fault_text};

    ghost output = { λ fault. Some (fault_text fault) };

    fn fmt<W: fmt::Write>(&self, f: &mut fmt::Formatter<W>) -> fmt::Result {
        f.write_str(match self {
            FileFault::NotFound => "NotFound",
            FileFault::TooLarge => "TooLarge",
            FileFault::Failed => "Failed",
            FileFault::Memory => "Memory",
        })
    }
}

/// A fault, and its cause if the system reports one.
#[derive(Clone, Copy, Debug, PartialEq, Eq)]
pub struct CausedFault {
    pub fault: FileFault,
    /// Only `Failed` has one: the other faults are causes themselves.
    pub cause: Option<Cause>,
}

impl CausedFault {
    /// A failure with this cause.
    pub fn failed(cause: Cause) -> CausedFault
        ensures { result ≡ failed_by cause }
    {
        CausedFault {
            fault: FileFault::Failed,
            cause: Some(cause),
        }
    }
}

impl From<FileFault> for CausedFault {
    ghost use Rattle.std.specs.Prelude.{◌≡◌};
    ghost use Rattle.node_io.specs.Causes.{by_itself};

    ghost from_gives = { λ fault caused. caused ≡ by_itself fault };

    fn from(fault: FileFault) -> CausedFault {
        CausedFault { fault, cause: None }
    }
}

impl From<AllocError> for CausedFault {
    ghost use Rattle.std.specs.Prelude.{◌≡◌};
    ghost use Rattle.node_io.specs.Causes.{by_itself};
    ghost use Rattle.node_io.specs.declared.faults.FileFault.TheVariants.{Memory};

    ghost from_gives = { λ _ caused. caused ≡ by_itself Memory };

    fn from(_: AllocError) -> CausedFault {
        CausedFault::from(FileFault::Memory)
    }
}

impl From<io::Error> for CausedFault {
    ghost use Rattle.std.specs.Prelude.{◌≡◌};
    ghost use Rattle.std.specs.IoError.{error_kind, raw_os_error};
    ghost use Rattle.node_io.specs.Causes.{caused_by};

    ghost from_gives = { λ error caused. caused ≡ caused_by (error_kind error) (raw_os_error error) };

    fn from(error: io::Error) -> CausedFault {
        match error.kind() {
            ErrorKind::NotFound => CausedFault::from(FileFault::NotFound),
            ErrorKind::OutOfMemory => CausedFault::from(FileFault::Memory),
            _ => CausedFault::failed(Cause::of(&error)),
        }
    }
}

/// The fault's name, and the cause in brackets: `Failed (permission denied)`.
impl fmt::Display for CausedFault {
    ghost use Rattle.std.specs.Prelude.{Some};
    ghost use Rattle.node_io.specs.FaultText.{caused_text};

    ghost output = { λ caused. Some (caused_text caused) };

    fn fmt<W: fmt::Write>(&self, f: &mut fmt::Formatter<W>) -> fmt::Result {
        let fault = self.fault;
        match self.cause {
            Some(cause) => write!(f, "{fault} ({cause})"),
            None => write!(f, "{fault}"),
        }
    }
}

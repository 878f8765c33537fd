ghost use Rattle.std.specs.Prelude.{◌≡◌};
ghost use Rattle.std.specs.IoError.{error_kind, raw_os_error};
ghost use Rattle.node_io.specs.Causes.{by_number, cause_numbered, cause_of};

use std::fmt;
use std::io::{self, ErrorKind};

/// Why the system refused a call on a file, a folder or a socket, by errno(3).
#[derive(Clone, Copy, Debug, PartialEq, Eq)]
pub enum Cause {
    /// Nothing is at the path.
    NotFound,
    /// The path's folder does not exist.
    NoFolder,
    /// The user may not do that.
    PermissionDenied,
    /// A folder was found instead of a file.
    IsFolder,
    /// A part of the path, or what should be a folder, is not a folder.
    NotFolder,
    /// The path leads to neither a regular file nor a folder.
    NotRegular,
    /// A link leads out of the folder.
    Outside,
    /// A part of the path is too long.
    NameTooLong,
    /// Symbolic links form a loop, or too long a chain.
    TooManyLinks,
    /// The process, or the system, has reached its limit of open files.
    TooManyFiles,
    /// The device is full.
    NoSpace,
    /// The user's quota on the device is used up.
    Quota,
    /// The device can't be written.
    ReadOnly,
    /// The file is a program that is running.
    Busy,
    /// The device itself failed.
    Device,
    /// The stream is closed, or not open for this operation.
    NotOpen,
    /// A signal interrupted the call.
    Interrupted,
    /// The call would have to wait, for example for a place in a full queue.
    WouldBlock,
    /// Nobody listens.
    Refused,
    /// The other side is gone.
    Gone,
    /// It took too long.
    TimedOut,
    /// Another cause, with its errno.
    Number(u32),
    /// Another cause, without an errno.
    Other,
}

impl Cause {
    /// The cause of an error.
    pub fn of(error: &io::Error) -> Cause
        ensures { result ≡ cause_of (error_kind error.now) (raw_os_error error.now) }
    {
        match error.kind() {
            ErrorKind::NotFound => Cause::NotFound,
            ErrorKind::PermissionDenied => Cause::PermissionDenied,
            ErrorKind::IsADirectory => Cause::IsFolder,
            ErrorKind::NotADirectory => Cause::NotFolder,
            ErrorKind::InvalidFilename => Cause::NameTooLong,
            ErrorKind::FilesystemLoop => Cause::TooManyLinks,
            ErrorKind::StorageFull => Cause::NoSpace,
            ErrorKind::QuotaExceeded => Cause::Quota,
            ErrorKind::ReadOnlyFilesystem => Cause::ReadOnly,
            ErrorKind::ExecutableFileBusy => Cause::Busy,
            ErrorKind::Interrupted => Cause::Interrupted,
            ErrorKind::WouldBlock => Cause::WouldBlock,
            ErrorKind::ConnectionRefused => Cause::Refused,
            ErrorKind::BrokenPipe | ErrorKind::ConnectionReset => Cause::Gone,
            ErrorKind::TimedOut => Cause::TimedOut,
            _ => by_number(error.raw_os_error()),
        }
    }
}

// The cause by its number, errno(3).
fn by_number(number: Option<i32>) -> Cause
    ensures { result ≡ by_number number }
{
    match number {
        Some(number) => numbered(number.unsigned_abs()),
        None => Cause::Other,
    }
}

fn numbered(number: u32) -> Cause
    ensures { result ≡ cause_numbered number }
{
    match number {
        5 => Cause::Device,
        9 => Cause::NotOpen,
        23 | 24 => Cause::TooManyFiles,
        _ => Cause::Number(number),
    }
}

/// A few words of plain English.
impl fmt::Display for Cause {
    ghost use Rattle.std.specs.Prelude.{Some};
    ghost use Rattle.node_io.specs.Causes.{cause_text};

    ghost output = { λ cause. Some (cause_text cause) };

    fn fmt<W: fmt::Write>(&self, f: &mut fmt::Formatter<W>) -> fmt::Result {
        match self {
            Cause::NotFound => f.write_str("no such file"),
            Cause::NoFolder => f.write_str("no such folder"),
            Cause::PermissionDenied => f.write_str("permission denied"),
            Cause::IsFolder => f.write_str("is a directory"),
            Cause::NotFolder => f.write_str("not a directory"),
            Cause::NotRegular => f.write_str("not a regular file"),
            Cause::Outside => f.write_str("a link out of the folder"),
            Cause::NameTooLong => f.write_str("name too long"),
            Cause::TooManyLinks => f.write_str("too many symbolic links"),
            Cause::TooManyFiles => f.write_str("too many open files"),
            Cause::NoSpace => f.write_str("no space left on device"),
            Cause::Quota => f.write_str("disk quota exceeded"),
            Cause::ReadOnly => f.write_str("read-only file system"),
            Cause::Busy => f.write_str("text file busy"),
            Cause::Device => f.write_str("input/output error"),
            Cause::NotOpen => f.write_str("not open for that"),
            Cause::Interrupted => f.write_str("interrupted"),
            Cause::WouldBlock => f.write_str("resource temporarily unavailable"),
            Cause::Refused => f.write_str("connection refused"),
            Cause::Gone => f.write_str("connection closed by the other side"),
            Cause::TimedOut => f.write_str("timed out"),
            Cause::Number(number) => write!(f, "error {number}"),
            Cause::Other => f.write_str("unknown error"),
        }
    }
}

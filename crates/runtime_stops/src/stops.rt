ghost use Rattle.std.specs.Prelude.{◌≡◌};
ghost use Rattle.runtime_stops.specs.StopText.{is_gone, refusal_name};
ghost use Rattle.runtime_stops.specs.Stops.{IsOfFile, IsOfSocket};

use crate::socket_fault::SocketFault;
use bpf_code::CodeFault;
use bpf_verify::{Fault, Refusal};
use command_line::{LineFault, Misfit};
use fault_notes::ShownPath;
use node_io::{Cause, CausedFault, FileFault};
use std::alloc::{AllocError, AllocFailed};
use std::fmt;
use wrong_files::{Hint, HintAfter};

/// Why a program that serves a runtime ends before its work is done.
#[derive(Debug, Drop)]
pub enum ServerStop<'a> {
    /// The command line is refused, or help was asked for.
    CommandLine(clap::Error),
    /// A word of the command line is not a number in its range.
    BadNumber(&'a str),
    /// The first word of the command line is not a command.
    UnknownCommand(&'a str),
    /// This option of the command line does not go with the others, or is required and missing.
    Misfit(&'static str, Misfit),
    /// The node's own filter is refused; the hint states what its file seems to be.
    Baseline(&'a str, Refusal, Option<Hint>),
    /// A file can't be read, or there is no such folder.
    File(&'a str, CausedFault),
    /// No socket can be made at this path.
    Socket(&'a str, SocketFault),
    /// The output can't be written.
    Unwritten(Cause),
    /// An allocation failed, or a thread could not be started.
    Memory,
}

impl ServerStop<'_> {
    ghost use Rattle.std.specs.Prelude.{◌≡◌};
    ghost use Rattle.runtime_stops.specs.Stops.{status_of};

    /// The program's exit status.
    pub fn status(&self) -> u8
        ensures { result ≡ status_of self.now }
    {
        match self {
            ServerStop::Baseline(_, _, _) => 1,
            ServerStop::CommandLine(_)
            | ServerStop::BadNumber(_)
            | ServerStop::UnknownCommand(_)
            | ServerStop::Misfit(_, _) => 2,
            ServerStop::File(_, _) | ServerStop::Socket(_, _) | ServerStop::Unwritten(_) => 3,
            ServerStop::Memory => 4,
        }
    }
}

/// The name of a filter's fault, without its place.
fn name_of(refusal: Refusal) -> &'static str
    ensures { result.now ≡ refusal_name refusal }
{
    match refusal {
        Refusal::Code(fault) => match fault {
            CodeFault::Length => "Length",
            CodeFault::TooLong => "TooLong",
            CodeFault::BadCode(_) => "BadCode",
            CodeFault::Memory => "Memory",
        },
        Refusal::Filter(fault) => match fault {
            Fault::Empty => "Empty",
            Fault::TooLong => "TooLong",
            Fault::BadOffset(_) => "BadOffset",
            Fault::BadJump(_) => "BadJump",
            Fault::BadWord(_) => "BadWord",
            Fault::BadShift(_) => "BadShift",
            Fault::ZeroDivisor(_) => "ZeroDivisor",
            Fault::NoFinalReturn => "NoFinalReturn",
            Fault::Unstored(_) => "Unstored",
        },
    }
}

/// Whether only the reader is gone.
fn is_gone(cause: Cause) -> bool
    ensures { result ≡ is_gone cause }
{
    matches!(cause, Cause::Gone)
}

/// A stop as the program of this name prints it, with the line end.
#[derive(Clone, Copy)]
pub struct StopLine<'t, 'a> {
    /// The program's name.
    pub program: &'static str,
    /// Why it ends.
    pub stop: &'t ServerStop<'a>,
}

/// A refused command line is reported with clap's own message.
impl fmt::Display for StopLine<'_, '_> {
    ghost use Rattle.runtime_stops.specs.StopText.{stop_text};

    ghost output = { λ told. stop_text told.program.now told.stop.now };

    fn fmt<W: fmt::Write>(&self, f: &mut fmt::Formatter<W>) -> fmt::Result {
        let program = self.program;
        match self.stop {
            ServerStop::CommandLine(error) => write!(f, "{error}"),
            ServerStop::BadNumber(word) => writeln!(f, "{program}: {}: BadNumber", ShownPath(word)),
            ServerStop::UnknownCommand(word) => {
                writeln!(f, "{program}: {}: UnknownCommand", ShownPath(word))
            }
            ServerStop::Misfit(word, why) => writeln!(f, "{program}: {word}: {why}"),
            ServerStop::Baseline(path, refusal, hint) => writeln!(
                f,
                "{program}: {}: {}{}",
                ShownPath(path),
                name_of(*refusal),
                HintAfter(*hint)
            ),
            ServerStop::File(path, fault) => writeln!(f, "{program}: {}: {fault}", ShownPath(path)),
            ServerStop::Socket(path, fault) => writeln!(
                f,
                "{program}: {}: Failed ({fault})",
                ShownPath(path)
            ),
            // Nobody reads standard output any more, as after `| head`.
            ServerStop::Unwritten(cause) if is_gone(*cause) => Ok(()),
            ServerStop::Unwritten(cause) => writeln!(
                f,
                "{program}: standard output: Failed ({cause})"
            ),
            ServerStop::Memory => writeln!(f, "{program}: Memory"),
        }
    }
}

impl<'a> From<AllocError> for ServerStop<'a> {
    ghost use Rattle.std.specs.Prelude.{◌≡◌};
    ghost use Rattle.runtime_stops.specs.declared.stops.ServerStop.TheVariants.{Memory};

    ghost from_gives = { λ _ stop. stop ≡ Memory };

    fn from(_: AllocError) -> ServerStop<'a> {
        ServerStop::Memory
    }
}

impl<'a, T: Drop> From<AllocFailed<T>> for ServerStop<'a> {
    ghost use Rattle.std.specs.Prelude.{◌≡◌};
    ghost use Rattle.runtime_stops.specs.declared.stops.ServerStop.TheVariants.{Memory};

    ghost from_gives = { λ _ stop. stop ≡ Memory };

    fn from(_: AllocFailed<T>) -> ServerStop<'a> {
        ServerStop::Memory
    }
}

impl<'a> From<LineFault<'a>> for ServerStop<'a> {
    ghost use Rattle.std.specs.Prelude.{◌≡◌};
    ghost use Rattle.runtime_stops.specs.Stops.{of_line_fault};

    ghost from_gives = { λ fault stop. stop ≡ of_line_fault fault };

    fn from(fault: LineFault<'a>) -> ServerStop<'a> {
        match fault {
            LineFault::Refused(error) => ServerStop::CommandLine(error),
            LineFault::BadNumber(word) => ServerStop::BadNumber(word),
            LineFault::UnknownCommand(word) => ServerStop::UnknownCommand(word),
            LineFault::Misfit(word, why) => ServerStop::Misfit(word, why),
            LineFault::Memory => ServerStop::Memory,
        }
    }
}

/// The stop for a file's fault.
pub fn file_stop(path: &str, caused: CausedFault) -> ServerStop<'_>
    ensures { IsOfFile path.now caused result }
{
    match caused.fault {
        FileFault::Memory => ServerStop::Memory,
        _ => ServerStop::File(path, caused),
    }
}

/// The stop for a socket's fault.
pub fn socket_stop(path: &str, fault: SocketFault) -> ServerStop<'_>
    ensures { IsOfSocket path.now fault result }
{
    match fault {
        SocketFault::Memory => ServerStop::Memory,
        _ => ServerStop::Socket(path, fault),
    }
}

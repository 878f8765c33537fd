ghost use Rattle.seccheck_stops.specs.Stops.{IsOfFile};

use crate::bad_words::WordFault;
use crate::call_fault::CallFault;
use crate::refused::RefusedFile;
use bpf_compare::Doubt;
use fault_notes::ShownPath;
use node_io::{Cause, CausedFault, FileFault};
use seccheck_output::{Difference, reason};
use std::alloc::{AllocError, AllocFailed};
use std::fmt;
use sys_table::CallTable;

/// Why a program ends before its work is done.
#[derive(Debug, Drop)]
pub enum Stop<'a> {
    /// A file is refused.
    Refused(RefusedFile<'a>),
    /// The two filters differ.
    Differ(Difference),
    /// Whether the two filters differ was not found out.
    Undecided(Doubt),
    /// The command line is refused, or help was asked for.
    CommandLine(clap::Error),
    /// A word of the command line is no number of its range.
    BadNumber(&'a str),
    /// A word of the command line is none of these calls: neither a number nor a name.
    BadCall(CallTable, &'a str),
    /// A word of the command line is none of those allowed at its place.
    BadWord(&'a str, WordFault),
    /// A file can't be read or written.
    File(&'a str, CausedFault),
    /// The output file is the file that was read.
    SameFile(&'a str),
    /// Standard output can't be written.
    Unwritten(Cause),
    /// A growth was refused.
    Memory,
}

impl Stop<'_> {
    ghost use Rattle.std.specs.Prelude.{◌≡◌};
    ghost use Rattle.seccheck_stops.specs.Stops.{is_refusal, status_of};

    /// The status with which the program ends.
    pub fn status(&self) -> u8
        ensures { result ≡ status_of self.now }
    {
        match self {
            Stop::Refused(_) | Stop::Differ(_) | Stop::Undecided(_) => 1,
            Stop::CommandLine(_) | Stop::BadNumber(_) | Stop::BadCall(_, _) | Stop::BadWord(_, _) =>
                2,
            Stop::File(_, _) | Stop::SameFile(_) | Stop::Unwritten(_) => 3,
            Stop::Memory => 4,
        }
    }

    /// Whether it is the program's answer, on standard output: an input is refused, or two filters differ. All
    /// others go to standard error.
    pub fn is_answer(&self) -> bool
        ensures { result ≡ is_refusal self.now }
    {
        matches!(
            self,
            Stop::Refused(_) | Stop::Differ(_) | Stop::Undecided(_)
        )
    }
}

/// Its line. The text on a refused command line is clap's own.
impl fmt::Display for Stop<'_> {
    ghost use Rattle.seccheck_stops.specs.StopText.{stop_text};

    ghost output = { λ stop. stop_text stop };

    fn fmt<W: fmt::Write>(&self, f: &mut fmt::Formatter<W>) -> fmt::Result {
        match self {
            Stop::Refused(file) => writeln!(f, "refused {}", file.refused),
            Stop::Differ(difference) => writeln!(f, "{difference}"),
            Stop::Undecided(doubt) => writeln!(f, "undecided: {}", reason(*doubt)),
            Stop::CommandLine(error) => write!(f, "{error}"),
            Stop::BadNumber(word) => writeln!(f, "seccheck: {}: BadNumber", ShownPath(word)),
            Stop::BadCall(known, word) => {
                let fault = CallFault(*known, word);
                writeln!(f, "seccheck: {}: {fault}", ShownPath(word))
            }
            Stop::BadWord(word, fault) => writeln!(f, "seccheck: {}: {fault}", ShownPath(word)),
            Stop::File(path, fault) => writeln!(f, "seccheck: {}: {fault}", ShownPath(path)),
            Stop::SameFile(path) => {
                writeln!(
                    f,
                    "seccheck: {}: Failed (the profile itself)",
                    ShownPath(path)
                )
            }
            Stop::Unwritten(cause) => writeln!(f, "seccheck: standard output: Failed ({cause})"),
            Stop::Memory => writeln!(f, "seccheck: Memory"),
        }
    }
}

impl<'a> From<AllocError> for Stop<'a> {
    ghost use Rattle.std.specs.Prelude.{◌≡◌};
    ghost use Rattle.seccheck_stops.specs.declared.stop.Stop.TheVariants.{Memory};

    ghost from_gives = { λ _ stop. stop ≡ Memory };

    fn from(_: AllocError) -> Stop<'a> {
        Stop::Memory
    }
}

impl<'a, T: Drop> From<AllocFailed<T>> for Stop<'a> {
    ghost use Rattle.std.specs.Prelude.{◌≡◌};
    ghost use Rattle.seccheck_stops.specs.declared.stop.Stop.TheVariants.{Memory};

    ghost from_gives = { λ _ stop. stop ≡ Memory };

    fn from(_: AllocFailed<T>) -> Stop<'a> {
        Stop::Memory
    }
}

impl<'a> From<clap::Error> for Stop<'a> {
    ghost use Rattle.seccheck_stops.specs.Stops.{IsOfCommandLine};

    ghost from_gives = { λ error stop. IsOfCommandLine error stop };

    fn from(error: clap::Error) -> Stop<'a> {
        match error.kind() {
            clap::error::ErrorKind::OutOfMemory => Stop::Memory,
            _ => Stop::CommandLine(error),
        }
    }
}

/// Why a file stops the program.
pub fn stop_at(path: &str, caused: CausedFault) -> Stop<'_>
    ensures { IsOfFile path.now caused result }
{
    match caused.fault {
        FileFault::Memory => Stop::Memory,
        _ => Stop::File(path, caused),
    }
}

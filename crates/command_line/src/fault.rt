use std::alloc::AllocError;
use std::fmt;

/// Why an option does not go with the rest of the line.
#[derive(Clone, Copy, Debug, PartialEq, Eq)]
pub enum Misfit {
    /// The option is for a runtime in the same process, which the line does not ask for.
    WithoutRuntime,
    /// The option is for a run that ends once its pods are over, which the line does not ask for.
    WithoutSettle,
    /// The option is for a run that goes on, and the line asks for one that ends once its pods are over.
    WithSettle,
    /// The option is for a folder of pods, which the line does not name.
    WithoutPods,
    /// The option is about the form of what is printed, and nothing is printed.
    NothingToTell,
    /// The option selects what records list, and the line names no file for them.
    WithoutRecords,
    /// The word of the option is no version of Linux whose calls are known.
    BadCalls,
    /// The line requires this word.
    Missing,
}

/// The name of the fault.
impl fmt::Display for Misfit {
    ghost use Rattle.std.specs.Prelude.{Some};
    ghost use Rattle.command_line.specs.Faults.{misfit_text};

    ghost output = { λ misfit. Some (misfit_text misfit) };

    fn fmt<W: fmt::Write>(&self, f: &mut fmt::Formatter<W>) -> fmt::Result {
        match self {
            Misfit::WithoutRuntime => f.write_str("WithoutRuntime"),
            Misfit::WithoutSettle => f.write_str("WithoutSettle"),
            Misfit::WithSettle => f.write_str("WithSettle"),
            Misfit::WithoutPods => f.write_str("WithoutPods"),
            Misfit::NothingToTell => f.write_str("NothingToTell"),
            Misfit::WithoutRecords => f.write_str("WithoutRecords"),
            Misfit::BadCalls => f.write_str("BadCalls"),
            Misfit::Missing => f.write_str("Missing"),
        }
    }
}

/// Why a command line is refused.
#[derive(Debug, Drop)]
pub enum LineFault<'a> {
    /// clap refuses it, with clap's message. A request for help counts as refused.
    Refused(clap::Error),
    /// The first word that is not a number, or is out of its range.
    BadNumber(&'a str),
    /// The first word is not a command.
    UnknownCommand(&'a str),
    /// This option does not go with the others, or is required and missing.
    Misfit(&'static str, Misfit),
    /// An allocation failed.
    Memory,
}

impl<'a> From<AllocError> for LineFault<'a> {
    ghost use Rattle.std.specs.Prelude.{◌≡◌};
    ghost use Rattle.command_line.specs.declared.fault.LineFault.TheVariants.{Memory};

    ghost from_gives = { λ _ fault. fault ≡ Memory };

    fn from(_: AllocError) -> LineFault<'a> {
        LineFault::Memory
    }
}

impl<'a> From<clap::Error> for LineFault<'a> {
    ghost use Rattle.command_line.specs.Faults.{IsOfClap};

    ghost from_gives = { λ error fault. IsOfClap error fault };

    fn from(error: clap::Error) -> LineFault<'a> {
        match error.kind() {
            clap::error::ErrorKind::OutOfMemory => LineFault::Memory,
            _ => LineFault::Refused(error),
        }
    }
}

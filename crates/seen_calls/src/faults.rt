ghost use Rattle.std.specs.Prelude.{◌≡◌};
ghost use Rattle.seen_calls.specs.Faults.{fault_name, of_field, of_text};
ghost use Rattle.seen_calls.specs.declared.faults.LineFault.TheVariants.{Memory};

use json_tree::{FieldFault, TextFault};
use std::alloc::{AllocError, AllocFailed};
use std::fmt;
use sys_table::CallTable;
use thiserror::Error;

/// Why a line is left out.
#[derive(Clone, Copy, Debug, PartialEq, Eq, Error)]
pub enum LineFault {
    /// It has none of the forms, or is cut.
    NotACall,
    /// Its call is of another architecture.
    OtherArchitecture,
    /// It is none of the known calls, which are these.
    UnknownCall(CallTable),
    /// It has more bytes than a line may have.
    TooLong,
    /// It begins as a record does, and is not JSON.
    NotJson,
    /// A member of a record is missing.
    Missing,
    /// A member has another type than in a record.
    WrongType,
    Memory,
}

impl LineFault {
    /// The fault's name.
    pub fn name(self) -> &'static str
        ensures { result.now ≡ fault_name self }
    {
        match self {
            LineFault::NotACall => "NotACall",
            LineFault::OtherArchitecture => "OtherArchitecture",
            LineFault::UnknownCall(_) => "UnknownCall",
            LineFault::TooLong => "TooLong",
            LineFault::NotJson => "NotJson",
            LineFault::Missing => "Missing",
            LineFault::WrongType => "WrongType",
            LineFault::Memory => "Memory",
        }
    }
}

/// The fault's name, and in brackets what would be right.
impl fmt::Display for LineFault {
    ghost use Rattle.std.specs.Prelude.{Some};
    ghost use Rattle.seen_calls.specs.Faults.{fault_text};

    ghost output = { λ fault. Some (fault_text fault) };

    fn fmt<W: fmt::Write>(&self, f: &mut fmt::Formatter<W>) -> fmt::Result {
        f.write_str(self.name())?;
        match self {
            LineFault::NotACall => {
                f.write_str(" (not a whole line of strace, an audit, a record or a name)")
            }
            LineFault::OtherArchitecture => f.write_str(" (only calls of x86-64 are learned)"),
            LineFault::UnknownCall(calls) => {
                let newest = calls.limit().saturating_sub(1);
                write!(f, " (the newest known call is {newest})")
            }
            LineFault::TooLong => f.write_str(" (a line has at most 1,048,576 bytes)"),
            _ => Ok(()),
        }
    }
}

impl From<TextFault> for LineFault {
    ghost from_gives = { λ fault given. given ≡ of_text fault };

    fn from(fault: TextFault) -> LineFault {
        match fault {
            TextFault::NotJson => LineFault::NotJson,
            TextFault::Memory => LineFault::Memory,
        }
    }
}

impl From<FieldFault> for LineFault {
    ghost from_gives = { λ fault given. given ≡ of_field fault };

    fn from(fault: FieldFault) -> LineFault {
        match fault {
            FieldFault::Missing => LineFault::Missing,
            FieldFault::WrongType => LineFault::WrongType,
            FieldFault::Memory => LineFault::Memory,
        }
    }
}

impl From<AllocError> for LineFault {
    ghost from_gives = { λ _ given. given ≡ Memory };

    fn from(_: AllocError) -> LineFault {
        LineFault::Memory
    }
}

impl<T: Drop> From<AllocFailed<T>> for LineFault {
    ghost from_gives = { λ _ given. given ≡ Memory };

    fn from(_: AllocFailed<T>) -> LineFault {
        LineFault::Memory
    }
}

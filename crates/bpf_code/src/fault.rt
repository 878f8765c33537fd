use std::alloc::{AllocError, AllocFailed};
use std::fmt;
use thiserror::Error;

/// Why bytes are not a filter file, in the order of the checks.
#[derive(Clone, Copy, Debug, PartialEq, Eq, Error)]
pub enum CodeFault {
    /// The length is not a multiple of 8.
    Length,
    /// There are more than [`MAX_BYTES`](crate::MAX_BYTES).
    TooLong,
    /// The lowest place, counted in instructions from 0, whose code is not in the table.
    BadCode(usize),
    /// An allocation failed.
    Memory,
}

/// The fault's name, and its place if it has one.
impl fmt::Display for CodeFault {
    ghost use Rattle.std.specs.Prelude.{Some};
    ghost use Rattle.bpf_code.specs.FaultText.{fault_text};

    ghost output = { λ fault. Some (fault_text fault) };

    fn fmt<W: fmt::Write>(&self, f: &mut fmt::Formatter<W>) -> fmt::Result {
        match self {
            CodeFault::Length => f.write_str("Length"),
            CodeFault::TooLong => f.write_str("TooLong"),
            CodeFault::BadCode(at) => write!(f, "BadCode at {at}"),
            CodeFault::Memory => f.write_str("Memory"),
        }
    }
}

impl From<AllocError> for CodeFault {
    ghost use Rattle.bpf_code.specs.declared.fault.CodeFault.TheVariants.{Memory};
    ghost use Rattle.std.specs.Prelude.{◌≡◌};

    ghost from_gives = { λ _ fault. fault ≡ Memory };

    fn from(_: AllocError) -> CodeFault {
        CodeFault::Memory
    }
}

impl<T: Drop> From<AllocFailed<T>> for CodeFault {
    ghost use Rattle.bpf_code.specs.declared.fault.CodeFault.TheVariants.{Memory};
    ghost use Rattle.std.specs.Prelude.{◌≡◌};

    ghost from_gives = { λ _ fault. fault ≡ Memory };

    fn from(_: AllocFailed<T>) -> CodeFault {
        CodeFault::Memory
    }
}

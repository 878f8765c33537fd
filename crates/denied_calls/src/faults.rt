ghost use Rattle.std.specs.Prelude.{◌≡◌};
ghost use Rattle.denied_calls.specs.Faults.{of_field, of_text};
ghost use Rattle.denied_calls.specs.declared.faults.LineFault.TheVariants.{Memory};

use json_tree::{FieldFault, TextFault};
use std::alloc::{AllocError, AllocFailed};
use thiserror::Error;

/// Why a line is no record.
#[derive(Clone, Copy, Debug, PartialEq, Eq, Error)]
pub enum LineFault {
    /// It is not JSON.
    #[error("NotJson")]
    NotJson,
    /// A member of a record is missing.
    #[error("Missing")]
    Missing,
    /// A member has another type than in a record.
    #[error("WrongType")]
    WrongType,
    /// A uid or name has a byte that none has: white space, a control character, or one that is not ASCII.
    #[error("BadName")]
    BadName,
    #[error("Memory")]
    Memory,
}

impl From<TextFault> for LineFault {
    ghost from_gives = { λ fault given. given ≡ of_text fault };

    fn from(fault: TextFault) -> LineFault {
        match fault {
            TextFault::NotJson => LineFault::NotJson,
            TextFault::Memory => LineFault::Memory,
        }
    }
}

impl From<FieldFault> for LineFault {
    ghost from_gives = { λ fault given. given ≡ of_field fault };

    fn from(fault: FieldFault) -> LineFault {
        match fault {
            FieldFault::Missing => LineFault::Missing,
            FieldFault::WrongType => LineFault::WrongType,
            FieldFault::Memory => LineFault::Memory,
        }
    }
}

impl From<AllocError> for LineFault {
    ghost from_gives = { λ _ given. given ≡ Memory };

    fn from(_: AllocError) -> LineFault {
        LineFault::Memory
    }
}

impl<T: Drop> From<AllocFailed<T>> for LineFault {
    ghost from_gives = { λ _ given. given ≡ Memory };

    fn from(_: AllocFailed<T>) -> LineFault {
        LineFault::Memory
    }
}

ghost use Rattle.std.specs.Prelude.{◌≡◌};
ghost use Rattle.json_tree.specs.declared.faults.FieldFault.TheVariants as field;

use std::alloc::{AllocError, AllocFailed};
use thiserror::Error;

/// What is wrong with a field.
#[derive(Clone, Copy, Debug, PartialEq, Eq, Error)]
pub enum FieldFault {
    /// It is required, and missing.
    #[error("Missing")]
    Missing,
    /// It has the wrong type.
    #[error("WrongType")]
    WrongType,
    #[error("Memory")]
    Memory,
}

/// What is wrong with a text.
#[derive(Clone, Copy, Debug, PartialEq, Eq, Error)]
pub enum TextFault {
    /// It is not JSON. Bad UTF-8 counts, and so do arrays and objects nested more than 127 deep.
    #[error("NotJson")]
    NotJson,
    #[error("Memory")]
    Memory,
}

impl From<AllocError> for FieldFault {
    ghost from_gives = { λ _ fault. fault ≡ field.Memory };

    fn from(_: AllocError) -> FieldFault {
        FieldFault::Memory
    }
}

impl<T: Drop> From<AllocFailed<T>> for FieldFault {
    ghost from_gives = { λ _ fault. fault ≡ field.Memory };

    fn from(_: AllocFailed<T>) -> FieldFault {
        FieldFault::Memory
    }
}

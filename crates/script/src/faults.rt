ghost use Rattle.std.specs.Prelude.{◌≡◌};
ghost use Rattle.script.specs.declared.faults.ScriptFault.TheVariants.{Memory};

use json_tree::{FieldFault, TextFault};
use std::alloc::{AllocError, AllocFailed};
use std::fmt;
use thiserror::Error;

/// Why a text is not a script.
#[derive(Clone, Copy, Debug, PartialEq, Eq, Error)]
pub enum ScriptFault {
    /// The text is not JSON.
    NotJson,
    /// A required field is missing, or a list that needs an item is empty.
    Missing,
    /// A field has the wrong type, or a step is of two kinds.
    WrongType,
    /// No call has this name.
    UnknownCall,
    /// There are more than `MAX_STEPS` steps.
    TooMany,
    /// A code is above 255.
    BadCode,
    /// The filter to install is not sound.
    BadFilter,
    /// An allocation failed.
    Memory,
}

/// The fault's name.
impl fmt::Display for ScriptFault {
    ghost use Rattle.std.specs.Prelude.{Some};
    ghost use Rattle.script.specs.FaultText.{fault_text};

    ghost output = { λ fault. Some (fault_text fault) };

    fn fmt<W: fmt::Write>(&self, f: &mut fmt::Formatter<W>) -> fmt::Result {
        f.write_str(match self {
            ScriptFault::NotJson => "NotJson",
            ScriptFault::Missing => "Missing",
            ScriptFault::WrongType => "WrongType",
            ScriptFault::UnknownCall => "UnknownCall",
            ScriptFault::TooMany => "TooMany",
            ScriptFault::BadCode => "BadCode",
            ScriptFault::BadFilter => "BadFilter",
            ScriptFault::Memory => "Memory",
        })
    }
}

impl From<FieldFault> for ScriptFault {
    ghost use Rattle.std.specs.Prelude.{◌≡◌};
    ghost use Rattle.script.specs.Faults.{fault_of_field};

    ghost from_gives = { λ field fault. fault ≡ fault_of_field field };

    fn from(fault: FieldFault) -> ScriptFault {
        match fault {
            FieldFault::Missing => ScriptFault::Missing,
            FieldFault::WrongType => ScriptFault::WrongType,
            FieldFault::Memory => ScriptFault::Memory,
        }
    }
}

impl From<TextFault> for ScriptFault {
    ghost use Rattle.std.specs.Prelude.{◌≡◌};
    ghost use Rattle.script.specs.Faults.{fault_of_text};

    ghost from_gives = { λ text fault. fault ≡ fault_of_text text };

    fn from(fault: TextFault) -> ScriptFault {
        match fault {
            TextFault::NotJson => ScriptFault::NotJson,
            TextFault::Memory => ScriptFault::Memory,
        }
    }
}

impl From<AllocError> for ScriptFault {
    ghost from_gives = { λ _ fault. fault ≡ Memory };

    fn from(_: AllocError) -> ScriptFault {
        ScriptFault::Memory
    }
}

impl<T: Drop> From<AllocFailed<T>> for ScriptFault {
    ghost from_gives = { λ _ fault. fault ≡ Memory };

    fn from(_: AllocFailed<T>) -> ScriptFault {
        ScriptFault::Memory
    }
}

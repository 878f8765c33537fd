ghost use Rattle.std.specs.Prelude.{◌≡◌};
ghost use Rattle.profile_text.specs.declared.faults.WriteFault.TheVariants.{Memory};

use std::alloc::AllocError;
use std::fmt;
use thiserror::Error;

/// Why a profile has no text.
#[derive(Clone, Copy, Debug, PartialEq, Eq, Error)]
pub enum WriteFault {
    /// An entry names a number that no call of the table has, or is stricter than the default and names none.
    NoName,
    /// The text has more than [`MAX_PROFILE_BYTES`](oci_profile::MAX_PROFILE_BYTES) bytes.
    TooLarge,
    /// An allocation failed.
    Memory,
}

/// The fault's name.
impl fmt::Display for WriteFault {
    ghost use Rattle.std.specs.Prelude.{Some};
    ghost use Rattle.profile_text.specs.FaultText.{fault_text};

    ghost output = { λ fault. Some (fault_text fault) };

    fn fmt<W: fmt::Write>(&self, f: &mut fmt::Formatter<W>) -> fmt::Result {
        f.write_str(match self {
            WriteFault::NoName => "NoName",
            WriteFault::TooLarge => "TooLarge",
            WriteFault::Memory => "Memory",
        })
    }
}

impl From<AllocError> for WriteFault {
    ghost from_gives = { λ _ fault. fault ≡ Memory };

    fn from(_: AllocError) -> WriteFault {
        WriteFault::Memory
    }
}

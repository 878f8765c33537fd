use json_tree::{FieldFault, TextFault};
use std::alloc::{AllocError, AllocFailed};
use std::fmt;
use thiserror::Error;

/// Why a text is not a pod manifest.
#[derive(Clone, Copy, Debug, PartialEq, Eq, Error)]
pub enum PodFault {
    /// The text is not JSON.
    NotJson,
    /// A required field is missing, or all containers are init containers.
    Missing,
    /// A field has the wrong type, or is not one of its allowed texts.
    WrongType,
    /// A name, a namespace, a uid or an image is invalid.
    BadName,
    /// Two containers have the same name.
    RepeatedName,
    /// A seccomp profile has an unknown type, has a path that it must not have, lacks a required path, or has
    /// one that leads out of its folder.
    BadProfile,
    /// There are more than [`MAX_CONTAINERS`](crate::MAX_CONTAINERS) containers, init ones included.
    TooMany,
    /// An allocation failed.
    Memory,
}

/// The fault's name.
impl fmt::Display for PodFault {
    ghost use Rattle.std.specs.Prelude.{Some};
    ghost use Rattle.manifest.specs.Faults.{fault_text};

    ghost output = { λ fault. Some (fault_text fault) };

    fn fmt<W: fmt::Write>(&self, f: &mut fmt::Formatter<W>) -> fmt::Result {
        f.write_str(match self {
            PodFault::NotJson => "NotJson",
            PodFault::Missing => "Missing",
            PodFault::WrongType => "WrongType",
            PodFault::BadName => "BadName",
            PodFault::RepeatedName => "RepeatedName",
            PodFault::BadProfile => "BadProfile",
            PodFault::TooMany => "TooMany",
            PodFault::Memory => "Memory",
        })
    }
}

impl From<FieldFault> for PodFault {
    ghost use Rattle.std.specs.Prelude.{◌≡◌};
    ghost use Rattle.manifest.specs.Faults.{fault_of_field};

    ghost from_gives = { λ field fault. fault ≡ fault_of_field field };

    fn from(fault: FieldFault) -> PodFault {
        match fault {
            FieldFault::Missing => PodFault::Missing,
            FieldFault::WrongType => PodFault::WrongType,
            FieldFault::Memory => PodFault::Memory,
        }
    }
}

impl From<TextFault> for PodFault {
    ghost use Rattle.std.specs.Prelude.{◌≡◌};
    ghost use Rattle.manifest.specs.Faults.{fault_of_text};

    ghost from_gives = { λ text fault. fault ≡ fault_of_text text };

    fn from(fault: TextFault) -> PodFault {
        match fault {
            TextFault::NotJson => PodFault::NotJson,
            TextFault::Memory => PodFault::Memory,
        }
    }
}

impl From<AllocError> for PodFault {
    ghost use Rattle.std.specs.Prelude.{◌≡◌};
    ghost use Rattle.manifest.specs.declared.faults.PodFault.TheVariants.{Memory};

    ghost from_gives = { λ _ fault. fault ≡ Memory };

    fn from(_: AllocError) -> PodFault {
        PodFault::Memory
    }
}

impl<T: Drop> From<AllocFailed<T>> for PodFault {
    ghost use Rattle.std.specs.Prelude.{◌≡◌};
    ghost use Rattle.manifest.specs.declared.faults.PodFault.TheVariants.{Memory};

    ghost from_gives = { λ _ fault. fault ≡ Memory };

    fn from(_: AllocFailed<T>) -> PodFault {
        PodFault::Memory
    }
}

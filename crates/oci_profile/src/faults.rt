use json_tree::{FieldFault, TextFault};
use std::alloc::{AllocError, AllocFailed};
use std::fmt;
use thiserror::Error;

/// Why a text is not a profile.
#[derive(Clone, Copy, Debug, PartialEq, Eq, Error)]
pub enum ProfileFault {
    /// The text has more than [`MAX_PROFILE_BYTES`](crate::MAX_PROFILE_BYTES) bytes.
    TooLarge,
    /// The text is not JSON.
    NotJson,
    /// The text is JSON, but not an object.
    NotObject,
    /// A required field is missing.
    Missing,
    /// A field has the wrong type.
    WrongType,
    /// The action is SCMP_ACT_NOTIFY, for which there is no listener.
    Notify,
    /// No action has this name.
    UnknownAction,
    /// An errno is given for an action that takes none.
    ErrnoNotAllowed,
    /// An errno is above its action's limit.
    ErrnoTooLarge,
    /// An entry names no call.
    EmptyNames,
    /// No call has an argument with this index.
    BadIndex,
    /// An entry has two conditions on one argument.
    RepeatedIndex,
    /// No comparison has this name.
    UnknownOp,
    /// An entry that is stricter than the default names a call that is not in the table.
    UnknownCall,
    /// An allocation failed.
    Memory,
}

/// The fault's name.
impl fmt::Display for ProfileFault {
    ghost use Rattle.std.specs.Prelude.{Some};
    ghost use Rattle.oci_profile.specs.Faults.{fault_text};

    ghost output = { λ fault. Some (fault_text fault) };

    fn fmt<W: fmt::Write>(&self, f: &mut fmt::Formatter<W>) -> fmt::Result {
        f.write_str(match self {
            ProfileFault::TooLarge => "TooLarge",
            ProfileFault::NotJson => "NotJson",
            ProfileFault::NotObject => "NotObject",
            ProfileFault::Missing => "Missing",
            ProfileFault::WrongType => "WrongType",
            ProfileFault::Notify => "Notify",
            ProfileFault::UnknownAction => "UnknownAction",
            ProfileFault::ErrnoNotAllowed => "ErrnoNotAllowed",
            ProfileFault::ErrnoTooLarge => "ErrnoTooLarge",
            ProfileFault::EmptyNames => "EmptyNames",
            ProfileFault::BadIndex => "BadIndex",
            ProfileFault::RepeatedIndex => "RepeatedIndex",
            ProfileFault::UnknownOp => "UnknownOp",
            ProfileFault::UnknownCall => "UnknownCall",
            ProfileFault::Memory => "Memory",
        })
    }
}

impl From<FieldFault> for ProfileFault {
    ghost use Rattle.std.specs.Prelude.{◌≡◌};
    ghost use Rattle.oci_profile.specs.Faults.{fault_of_field};

    ghost from_gives = { λ field fault. fault ≡ fault_of_field field };

    fn from(fault: FieldFault) -> ProfileFault {
        match fault {
            FieldFault::Missing => ProfileFault::Missing,
            FieldFault::WrongType => ProfileFault::WrongType,
            FieldFault::Memory => ProfileFault::Memory,
        }
    }
}

impl From<TextFault> for ProfileFault {
    ghost use Rattle.std.specs.Prelude.{◌≡◌};
    ghost use Rattle.oci_profile.specs.Faults.{fault_of_text};

    ghost from_gives = { λ text fault. fault ≡ fault_of_text text };

    fn from(fault: TextFault) -> ProfileFault {
        match fault {
            TextFault::NotJson => ProfileFault::NotJson,
            TextFault::Memory => ProfileFault::Memory,
        }
    }
}

impl From<AllocError> for ProfileFault {
    ghost use Rattle.std.specs.Prelude.{◌≡◌};
    ghost use Rattle.oci_profile.specs.declared.faults.ProfileFault.TheVariants.{Memory};

    ghost from_gives = { λ _ fault. fault ≡ Memory };

    fn from(_: AllocError) -> ProfileFault {
        ProfileFault::Memory
    }
}

impl<T: Drop> From<AllocFailed<T>> for ProfileFault {
    ghost use Rattle.std.specs.Prelude.{◌≡◌};
    ghost use Rattle.oci_profile.specs.declared.faults.ProfileFault.TheVariants.{Memory};

    ghost from_gives = { λ _ fault. fault ≡ Memory };

    fn from(_: AllocFailed<T>) -> ProfileFault {
        ProfileFault::Memory
    }
}

ghost use Rattle.std.specs.Prelude.{◌≡◌};
ghost use Rattle.json_place.specs.Places.{part_of};
ghost use Rattle.oci_profile.specs.Faults.{at, under};

use crate::faults::ProfileFault;
use json_place::{FieldFaultAt, Place, Step};
use json_tree::TextFault;
use std::alloc::{AllocError, AllocFailed};

/// Why a text is not a profile, and where in it.
#[derive(Debug, Drop)]
pub struct ProfileFaultAt {
    pub fault: ProfileFault,
    /// The fault's place: the root if there is no narrower one.
    pub place: Place,
}

impl ProfileFaultAt {
    ghost use Rattle.std.specs.Prelude.{◌≡◌};
    ghost use Rattle.json_place.specs.Places.{part_of};
    ghost use Rattle.oci_profile.specs.Faults.{fault_at, fault_here, fault_within};

    /// A fault at the root of the tree that is read.
    pub(crate) fn here(fault: ProfileFault) -> ProfileFaultAt
        ensures { result ≡ fault_here fault }
    {
        ProfileFaultAt {
            fault,
            place: Place::root(),
        }
    }

    /// A fault of its member with this key.
    pub(crate) fn at(key: &'static str, fault: ProfileFault) -> ProfileFaultAt
        ensures { result ≡ fault_at key.now fault }
    {
        ProfileFaultAt::here(fault).within(Step::Member(key))
    }

    /// The same fault, placed in the outer tree that has this one under the step.
    pub(crate) fn within(self, step: Step) -> ProfileFaultAt
        ensures { result ≡ fault_within (part_of step) self }
    {
        ProfileFaultAt {
            fault: self.fault,
            place: self.place.within(step),
        }
    }
}

/// The result of reading the member with this key, with a fault placed at that member.
pub(crate) fn at<T>(key: &'static str, made: Result<T, ProfileFault>) -> Result<T, ProfileFaultAt>
    ensures { result ≡ at key.now made }
{
    match made {
        Ok(value) => Ok(value),
        Err(fault) => Err(ProfileFaultAt::at(key, fault)),
    }
}

/// The result of reading the value under a step, with a fault placed under that step.
pub(crate) fn under<T>(step: Step, read: Result<T, ProfileFaultAt>) -> Result<T, ProfileFaultAt>
    ensures { result ≡ under (part_of step) read }
{
    match read {
        Ok(value) => Ok(value),
        Err(fault) => Err(fault.within(step)),
    }
}

impl From<FieldFaultAt> for ProfileFaultAt {
    ghost use Rattle.std.specs.Prelude.{◌≡◌};
    ghost use Rattle.oci_profile.specs.Faults.{fault_of_field_at};

    ghost from_gives = { λ field fault. fault ≡ fault_of_field_at field };

    fn from(found: FieldFaultAt) -> ProfileFaultAt {
        ProfileFaultAt {
            fault: ProfileFault::from(found.fault),
            place: found.place,
        }
    }
}

/// The fault without its place.
impl From<ProfileFaultAt> for ProfileFault {
    ghost use Rattle.std.specs.Prelude.{◌≡◌};

    ghost from_gives = { λ found fault. fault ≡ found.fault };

    fn from(found: ProfileFaultAt) -> ProfileFault {
        found.fault
    }
}

impl From<TextFault> for ProfileFaultAt {
    ghost use Rattle.std.specs.Prelude.{◌≡◌};
    ghost use Rattle.oci_profile.specs.Faults.{fault_here, fault_of_text};

    ghost from_gives = { λ text fault. fault ≡ fault_here (fault_of_text text) };

    fn from(fault: TextFault) -> ProfileFaultAt {
        ProfileFaultAt::here(ProfileFault::from(fault))
    }
}

impl From<AllocError> for ProfileFaultAt {
    ghost use Rattle.std.specs.Prelude.{◌≡◌};
    ghost use Rattle.oci_profile.specs.declared.faults.ProfileFault.TheVariants.{Memory};
    ghost use Rattle.oci_profile.specs.Faults.{fault_here};

    ghost from_gives = { λ _ fault. fault ≡ fault_here Memory };

    fn from(_: AllocError) -> ProfileFaultAt {
        ProfileFaultAt::here(ProfileFault::Memory)
    }
}

impl<T: Drop> From<AllocFailed<T>> for ProfileFaultAt {
    ghost use Rattle.std.specs.Prelude.{◌≡◌};
    ghost use Rattle.oci_profile.specs.declared.faults.ProfileFault.TheVariants.{Memory};
    ghost use Rattle.oci_profile.specs.Faults.{fault_here};

    ghost from_gives = { λ _ fault. fault ≡ fault_here Memory };

    fn from(_: AllocFailed<T>) -> ProfileFaultAt {
        ProfileFaultAt::here(ProfileFault::Memory)
    }
}

ghost use Rattle.std.specs.Prelude.{◌≡◌};
ghost use Rattle.json_place.specs.Places.{part_of};
ghost use Rattle.profile_template.specs.Faults.{at, under};

use crate::faults::TemplateFault;
use json_place::{FieldFaultAt, Place, Step};
use json_tree::TextFault;
use oci_profile::{ProfileFault, ProfileFaultAt};
use std::alloc::{AllocError, AllocFailed};

/// Why a text is not a template, and where in it.
#[derive(Debug, Drop)]
pub struct TemplateFaultAt {
    pub fault: TemplateFault,
    /// The fault's place: the root if there is no narrower one.
    pub place: Place,
}

impl TemplateFaultAt {
    ghost use Rattle.std.specs.Prelude.{◌≡◌};
    ghost use Rattle.json_place.specs.Places.{part_of};
    ghost use Rattle.profile_template.specs.Faults.{fault_at, fault_here, fault_within};

    /// A fault at the root of the tree that is read.
    pub(crate) fn here(fault: TemplateFault) -> TemplateFaultAt
        ensures { result ≡ fault_here fault }
    {
        TemplateFaultAt {
            fault,
            place: Place::root(),
        }
    }

    /// A fault of its member with this key.
    pub(crate) fn at(key: &'static str, fault: TemplateFault) -> TemplateFaultAt
        ensures { result ≡ fault_at key.now fault }
    {
        TemplateFaultAt::here(fault).within(Step::Member(key))
    }

    /// The same fault, placed in the outer tree that has this one under the step.
    pub(crate) fn within(self, step: Step) -> TemplateFaultAt
        ensures { result ≡ fault_within (part_of step) self }
    {
        TemplateFaultAt {
            fault: self.fault,
            place: self.place.within(step),
        }
    }
}

/// The result of reading the member with this key, with a profile's fault placed at that member.
pub(crate) fn at<T>(key: &'static str, made: Result<T, ProfileFault>) -> Result<T, TemplateFaultAt>
    ensures { result ≡ at key.now made }
{
    match made {
        Ok(value) => Ok(value),
        Err(fault) => Err(TemplateFaultAt::at(key, TemplateFault::Profile(fault))),
    }
}

/// The result of reading the value under a step, with a fault placed under that step.
pub(crate) fn under<T>(step: Step, read: Result<T, TemplateFaultAt>) -> Result<T, TemplateFaultAt>
    ensures { result ≡ under (part_of step) read }
{
    match read {
        Ok(value) => Ok(value),
        Err(fault) => Err(fault.within(step)),
    }
}

impl From<FieldFaultAt> for TemplateFaultAt {
    ghost use Rattle.std.specs.Prelude.{◌≡◌};
    ghost use Rattle.profile_template.specs.Faults.{fault_of_field};

    ghost from_gives = { λ field fault. fault ≡ fault_of_field field };

    fn from(found: FieldFaultAt) -> TemplateFaultAt {
        TemplateFaultAt {
            fault: TemplateFault::Profile(ProfileFault::from(found.fault)),
            place: found.place,
        }
    }
}

impl From<ProfileFaultAt> for TemplateFaultAt {
    ghost use Rattle.std.specs.Prelude.{◌≡◌};
    ghost use Rattle.profile_template.specs.Faults.{fault_of_profile};

    ghost from_gives = { λ found fault. fault ≡ fault_of_profile found };

    fn from(found: ProfileFaultAt) -> TemplateFaultAt {
        TemplateFaultAt {
            fault: TemplateFault::Profile(found.fault),
            place: found.place,
        }
    }
}

impl From<TextFault> for TemplateFaultAt {
    ghost use Rattle.std.specs.Prelude.{◌≡◌};
    ghost use Rattle.profile_template.specs.Faults.{fault_of_text};

    ghost from_gives = { λ text fault. fault ≡ fault_of_text text };

    fn from(fault: TextFault) -> TemplateFaultAt {
        TemplateFaultAt::here(TemplateFault::Profile(ProfileFault::from(fault)))
    }
}

impl From<AllocError> for TemplateFaultAt {
    ghost use Rattle.std.specs.Prelude.{◌≡◌};
    ghost use Rattle.oci_profile.specs.declared.faults.ProfileFault.TheVariants.{Memory};
    ghost use Rattle.profile_template.specs.declared.faults.TemplateFault.TheVariants.{Profile};
    ghost use Rattle.profile_template.specs.Faults.{fault_here};

    ghost from_gives = { λ _ fault. fault ≡ fault_here (Profile Memory) };

    fn from(_: AllocError) -> TemplateFaultAt {
        TemplateFaultAt::here(TemplateFault::Profile(ProfileFault::Memory))
    }
}

impl<T: Drop> From<AllocFailed<T>> for TemplateFaultAt {
    ghost use Rattle.std.specs.Prelude.{◌≡◌};
    ghost use Rattle.oci_profile.specs.declared.faults.ProfileFault.TheVariants.{Memory};
    ghost use Rattle.profile_template.specs.declared.faults.TemplateFault.TheVariants.{Profile};
    ghost use Rattle.profile_template.specs.Faults.{fault_here};

    ghost from_gives = { λ _ fault. fault ≡ fault_here (Profile Memory) };

    fn from(_: AllocFailed<T>) -> TemplateFaultAt {
        TemplateFaultAt::here(TemplateFault::Profile(ProfileFault::Memory))
    }
}

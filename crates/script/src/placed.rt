ghost use Rattle.std.specs.Prelude.{◌≡◌};
ghost use Rattle.json_place.specs.Places.{part_of};
ghost use Rattle.json_tree.specs.Reading.{as_fault};
ghost use Rattle.script.specs.Faults.{at, fault_of_step, under};

use crate::faults::ScriptFault;
use json_place::{FieldFaultAt, Place, Step};
use json_tree::TextFault;
use std::alloc::{AllocError, AllocFailed};

/// Why a text is not a script, and where in it.
#[derive(Debug, Drop)]
pub struct ScriptFaultAt {
    pub fault: ScriptFault,
    /// The fault's place: the root if there is no narrower one.
    pub place: Place,
}

impl ScriptFaultAt {
    ghost use Rattle.std.specs.Prelude.{◌≡◌};
    ghost use Rattle.json_place.specs.Places.{part_of};
    ghost use Rattle.script.specs.Faults.{fault_at, fault_here, fault_of_item, fault_within};

    /// A fault at the root of the tree that is read.
    pub(crate) fn here(fault: ScriptFault) -> ScriptFaultAt
        ensures { result ≡ fault_here fault }
    {
        ScriptFaultAt {
            fault,
            place: Place::root(),
        }
    }

    /// A fault of its member with this key.
    pub(crate) fn at(key: &'static str, fault: ScriptFault) -> ScriptFaultAt
        ensures { result ≡ fault_at key.now fault }
    {
        ScriptFaultAt::here(fault).within(Step::Member(key))
    }

    /// A fault of its item at this index.
    pub(crate) fn of_item(index: usize, fault: ScriptFault) -> ScriptFaultAt
        ensures { result ≡ fault_of_item index fault }
    {
        ScriptFaultAt::here(fault).within(Step::Item(index))
    }

    /// The same fault, placed in the outer tree that has this one under the step.
    pub(crate) fn within(self, step: Step) -> ScriptFaultAt
        ensures { result ≡ fault_within (part_of step) self }
    {
        ScriptFaultAt {
            fault: self.fault,
            place: self.place.within(step),
        }
    }
}

/// The result of reading the member with this key, with a fault placed at that member.
pub(crate) fn at<T>(key: &'static str, made: Result<T, ScriptFault>) -> Result<T, ScriptFaultAt>
    ensures { result ≡ at key.now made }
{
    match made {
        Ok(value) => Ok(value),
        Err(fault) => Err(ScriptFaultAt::at(key, fault)),
    }
}

/// The result of reading the value under a step, with a fault placed under that step.
pub(crate) fn under<T>(step: Step, read: Result<T, ScriptFaultAt>) -> Result<T, ScriptFaultAt>
    ensures { result ≡ under (part_of step) read }
{
    match read {
        Ok(value) => Ok(value),
        Err(fault) => Err(fault.within(step)),
    }
}

/// The result of reading the step with this index, with a fault placed in that step.
pub(crate) fn in_step<T>(index: usize, read: Result<T, ScriptFaultAt>) -> Result<T, ScriptFaultAt>
    ensures { result ≡ as_fault (fault_of_step index) read }
{
    match read {
        Ok(value) => Ok(value),
        Err(fault) => Err(
            fault
                .within(Step::Item(index))
                .within(Step::Member("steps")),
        ),
    }
}

impl From<FieldFaultAt> for ScriptFaultAt {
    ghost use Rattle.std.specs.Prelude.{◌≡◌};
    ghost use Rattle.script.specs.Faults.{fault_of_field_at};

    ghost from_gives = { λ field fault. fault ≡ fault_of_field_at field };

    fn from(found: FieldFaultAt) -> ScriptFaultAt {
        ScriptFaultAt {
            fault: ScriptFault::from(found.fault),
            place: found.place,
        }
    }
}

/// The fault without its place.
impl From<ScriptFaultAt> for ScriptFault {
    ghost use Rattle.std.specs.Prelude.{◌≡◌};

    ghost from_gives = { λ found fault. fault ≡ found.fault };

    fn from(found: ScriptFaultAt) -> ScriptFault {
        found.fault
    }
}

impl From<TextFault> for ScriptFaultAt {
    ghost use Rattle.std.specs.Prelude.{◌≡◌};
    ghost use Rattle.script.specs.Faults.{fault_here, fault_of_text};

    ghost from_gives = { λ text fault. fault ≡ fault_here (fault_of_text text) };

    fn from(fault: TextFault) -> ScriptFaultAt {
        ScriptFaultAt::here(ScriptFault::from(fault))
    }
}

impl From<AllocError> for ScriptFaultAt {
    ghost use Rattle.std.specs.Prelude.{◌≡◌};
    ghost use Rattle.script.specs.declared.faults.ScriptFault.TheVariants.{Memory};
    ghost use Rattle.script.specs.Faults.{fault_here};

    ghost from_gives = { λ _ fault. fault ≡ fault_here Memory };

    fn from(_: AllocError) -> ScriptFaultAt {
        ScriptFaultAt::here(ScriptFault::Memory)
    }
}

impl<T: Drop> From<AllocFailed<T>> for ScriptFaultAt {
    ghost use Rattle.std.specs.Prelude.{◌≡◌};
    ghost use Rattle.script.specs.declared.faults.ScriptFault.TheVariants.{Memory};
    ghost use Rattle.script.specs.Faults.{fault_here};

    ghost from_gives = { λ _ fault. fault ≡ fault_here Memory };

    fn from(_: AllocFailed<T>) -> ScriptFaultAt {
        ScriptFaultAt::here(ScriptFault::Memory)
    }
}

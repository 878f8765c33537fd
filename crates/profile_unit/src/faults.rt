ghost use Rattle.std.specs.Prelude.{◌≡◌};
ghost use Rattle.profile_unit.specs.UnitText.{fault_name};
ghost use Rattle.profile_unit.specs.declared.faults.UnitFault.TheVariants.{Memory};

use std::alloc::{AllocError, AllocFailed};
use std::fmt;
use sys_table::CallTable;

/// Why a profile is no list of calls.
#[derive(Clone, Copy, Debug, PartialEq, Eq)]
pub enum UnitFault {
    /// The entry at this place of `syscalls` has conditions.
    Condition(usize),
    /// The default action is none of ALLOW, KILL_PROCESS and ERRNO, or the errno is 0.
    DefaultAction,
    /// The profile decides the call with this number by an action that its list can't have: a list of allowed
    /// calls only ALLOW, a list of denied calls KILL_PROCESS and ERRNO from 1 on.
    CallAction(u32),
    /// The default action decides every call.
    NoCalls,
    Memory,
}

impl UnitFault {
    /// The fault's name.
    pub fn name(self) -> &'static str
        ensures { result.now ≡ fault_name self }
    {
        match self {
            UnitFault::Condition(_) => "Condition",
            UnitFault::DefaultAction => "DefaultAction",
            UnitFault::CallAction(_) => "CallAction",
            UnitFault::NoCalls => "NoCalls",
            UnitFault::Memory => "Memory",
        }
    }
}

/// Where a fault is, and what a unit can have. A call is named if it is one of these calls.
#[derive(Clone, Copy)]
pub struct ShownFault(pub CallTable, pub UnitFault);

impl fmt::Display for ShownFault {
    ghost use Rattle.std.specs.Prelude.{Some};
    ghost use Rattle.profile_unit.specs.UnitText.{fault_text};

    ghost output = { λ shown. Some (fault_text shown.0 shown.1) };

    fn fmt<W: fmt::Write>(&self, f: &mut fmt::Formatter<W>) -> fmt::Result {
        match self.1 {
            UnitFault::Condition(place) => {
                write!(
                    f,
                    "syscalls[{place}]: a unit's filter compares no arguments"
                )
            }
            UnitFault::DefaultAction => {
                f.write_str(
                    "defaultAction: a unit's filter has ALLOW, KILL_PROCESS or an errno from 1 on",
                )
            }
            UnitFault::CallAction(nr) => write!(
                f,
                "{}: a unit lists allowed calls, or calls with KILL_PROCESS or an errno from 1 on",
                self.0.name(nr).unwrap_or("")
            ),
            UnitFault::NoCalls => f.write_str("defaultAction decides every call"),
            UnitFault::Memory => f.write_str("Memory"),
        }
    }
}

impl From<AllocError> for UnitFault {
    ghost from_gives = { λ _ fault. fault ≡ Memory };

    fn from(_: AllocError) -> UnitFault {
        UnitFault::Memory
    }
}

impl<T: Drop> From<AllocFailed<T>> for UnitFault {
    ghost from_gives = { λ _ fault. fault ≡ Memory };

    fn from(_: AllocFailed<T>) -> UnitFault {
        UnitFault::Memory
    }
}

ghost use Rattle.std.specs.Prelude.{◌≡◌};
ghost use Rattle.std.specs.Option.{option_copied};
ghost use Rattle.fault_notes.specs.CallHints.{is_unknown_call, unknown_name};

use crate::named::Named;
use absent_names::{AbsentName, kind_of, suggestion};
use json_place::Shown;
use oci_profile::ProfileFault;
use profile_template::TemplateFault;
use script::ScriptFault;
use std::fmt;
use sys_table::CallTable;

/// The hint after a line's text, if the text is a name that no known call has.
#[derive(Clone, Copy)]
pub(crate) struct CallHint<'n>(pub(crate) Option<&'n str>);

impl fmt::Display for CallHint<'_> {
    ghost use Rattle.std.specs.Prelude.{Some};
    ghost use Rattle.std.specs.Option.{option_copied};
    ghost use Rattle.fault_notes.specs.CallHints.{hint_after};

    ghost output = { λ hint. Some (hint_after (option_copied hint.0)) };

    fn fmt<W: fmt::Write>(&self, f: &mut fmt::Formatter<W>) -> fmt::Result {
        match self.0 {
            Some(name) => write!(f, "{}", NameHint(name)),
            None => Ok(()),
        }
    }
}

/// What a name is that no known call has: ` (did you mean ptrace?)`.
#[derive(Clone, Copy)]
struct NameHint<'n>(&'n str);

impl fmt::Display for NameHint<'_> {
    ghost use Rattle.std.specs.Prelude.{Some};
    ghost use Rattle.fault_notes.specs.CallHints.{name_hint};

    ghost output = { λ hint. Some (name_hint hint.0.now) };

    #[tactic(auto, unfolding(crate::specs::CallHints::name_hint))]
    fn fmt<W: fmt::Write>(&self, f: &mut fmt::Formatter<W>) -> fmt::Result {
        match kind_of(self.0) {
            AbsentName::Newer(number) => match CallTable::Linux6_12.number(self.0) {
                Some(_) => f.write_str(" (newer than Linux 5.8: give --calls 6.12)"),
                None => write!(f, " (call {number}, newer than the table)"),
            },
            AbsentName::NotImplemented => f.write_str(" (not implemented on x86-64)"),
            AbsentName::OtherArchitecture => f.write_str(" (a call of other architectures)"),
            AbsentName::Unknown => match suggestion(CallTable::Linux6_12, self.0) {
                Some(call) => write!(f, " (did you mean {call}?)"),
                None => Ok(()),
            },
        }
    }
}

/// The name at the place of a fault, if the fault is that no known call has it.
pub(crate) fn unknown_name<'v>(fault: Named, shown: Shown<'v>) -> Option<&'v str>
    ensures { option_copied result ≡ unknown_name fault shown.entry }
{
    match shown {
        Shown::Text(name) if is_unknown_call(fault) => Some(name),
        _ => None,
    }
}

/// Whether the fault is a name that no known call has.
fn is_unknown_call(fault: Named) -> bool
    ensures { result ≡ is_unknown_call fault }
{
    matches!(
        fault,
        Named::Profile(ProfileFault::UnknownCall)
            | Named::Template(TemplateFault::Profile(ProfileFault::UnknownCall))
            | Named::Script(ScriptFault::UnknownCall)
    )
}

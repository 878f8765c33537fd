//! Calls and verdicts, as a person reads them.
use action::Verdict;
use call_data::NATIVE_ARCH;
use call_names::{CallWord, Naming};
use std::fmt;
use sys_table::CallTable;

/// A call: its name if it is one of these calls, else its number. The number of another architecture's call
/// has the architecture beside it: `26 --arch 0x40000003`.
#[derive(Clone, Copy)]
pub(crate) struct CallText {
    pub calls: CallTable,
    pub nr: u32,
    pub arch: u32,
}

impl fmt::Display for CallText {
    ghost use Rattle.std.specs.Prelude.{Some};
    ghost use Rattle.denied_calls.specs.Shown.{call_text};

    ghost output = { λ call. Some (call_text call.calls call.nr call.arch) };

    #[tactic(auto, unfolding(crate::specs::Shown::call_text))]
    fn fmt<W: fmt::Write>(&self, f: &mut fmt::Formatter<W>) -> fmt::Result {
        let (nr, arch) = (self.nr, self.arch);
        if arch == NATIVE_ARCH {
            let word = CallWord {
                nr,
                naming: Naming::Name(self.calls),
            };
            return write!(f, "{word}");
        }
        write!(f, "{nr} --arch 0x{arch:x}")
    }
}

/// The action of a filter's value: `ERRNO`.
#[derive(Clone, Copy)]
pub(crate) struct ActionText(pub u32);

impl fmt::Display for ActionText {
    ghost use Rattle.std.specs.Prelude.{Some};
    ghost use Rattle.denied_calls.specs.Audited.{action_text};

    ghost output = { λ value. Some (action_text value.0) };

    fn fmt<W: fmt::Write>(&self, f: &mut fmt::Formatter<W>) -> fmt::Result {
        let action = Verdict::of_value(self.0).action;
        write!(f, "{action}")
    }
}

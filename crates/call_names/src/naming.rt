ghost use Rattle.std.specs.Prelude.{◌≡◌};

use std::fmt;
use sys_table::CallTable;

/// How a call is shown.
#[derive(Clone, Copy, Debug, PartialEq, Eq)]
pub enum Naming {
    /// By its number, decimal.
    Number,
    /// By its name, if it is one of these calls, else by its number.
    Name(CallTable),
}

/// A call, as it is shown.
#[derive(Clone, Copy, Debug, PartialEq, Eq)]
pub struct CallWord {
    pub nr: u32,
    pub naming: Naming,
}

impl fmt::Display for CallWord {
    ghost use Rattle.std.specs.Prelude.{Some};
    ghost use Rattle.call_names.specs.Text.{call_text};

    ghost output = { λ word. Some (call_text word.naming word.nr) };

    fn fmt<W: fmt::Write>(&self, f: &mut fmt::Formatter<W>) -> fmt::Result {
        let nr = self.nr;
        match self.naming {
            Naming::Number => write!(f, "{nr}"),
            Naming::Name(calls) => match calls.name(nr) {
                Some(name) => write!(f, "{name}"),
                None => write!(f, "{nr}"),
            },
        }
    }
}

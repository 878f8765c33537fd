//! The printed result of comparing two filters.
ghost use Rattle.std.specs.Prelude.{◌≡◌, IfOk, string_bytes};
ghost use Rattle.seccheck_output.specs.Compared.{reason_of, same_text};

use action::ValueText;
use bpf_compare::{Calls, Doubt};
use call_data::SysCall;
use call_names::CallWords;
use std::alloc::{AllocError, Global};
use std::fmt;
use sys_table::CallTable;

/// A value that a filter returns, as it is printed: `7fff0000 ALLOW 0`, `00050001 ERRNO 1 (EPERM)`.
#[derive(Clone, Copy)]
pub struct ShownValue(pub u32);

impl fmt::Display for ShownValue {
    ghost use Rattle.std.specs.Prelude.{Some};
    ghost use Rattle.seccheck_output.specs.Compared.{value_text};

    ghost output = { λ value. Some (value_text value.0) };

    fn fmt<W: fmt::Write>(&self, f: &mut fmt::Formatter<W>) -> fmt::Result {
        let (value, text) = (self.0, ValueText(self.0));
        write!(f, "{value:08x} {text}")
    }
}

/// A call on which two filters return different values, and these.
#[derive(Clone, Copy, Debug)]
pub struct Difference {
    /// The calls that have names.
    pub known: CallTable,
    /// The call.
    pub call: SysCall,
    /// What the first filter returns.
    pub first: u32,
    /// What the second one returns.
    pub second: u32,
}

/// `differ at CALL ARG..: VALUE ACTION DATA, VALUE ACTION DATA`, the call's words as `run` takes them.
impl fmt::Display for Difference {
    ghost use Rattle.std.specs.Prelude.{Some};
    ghost use Rattle.seccheck_output.specs.Compared.{difference_text};

    ghost output = { λ difference. Some (difference_text difference) };

    fn fmt<W: fmt::Write>(&self, f: &mut fmt::Formatter<W>) -> fmt::Result {
        let call = CallWords(self.known, self.call);
        let (first, second) = (ShownValue(self.first), ShownValue(self.second));
        write!(f, "differ at {call}: {first}, {second}")
    }
}

/// Why two filters were not compared to the end.
pub fn reason(doubt: Doubt) -> &'static str
    ensures { result.now ≡ reason_of doubt }
{
    match doubt {
        Doubt::Budget => "they have too many paths",
        Doubt::Arithmetic => "one of them computes with loaded data",
    }
}

/// The line for filters that are the same on these calls.
pub fn same_line(alloc: Global, calls: Calls) -> Result<String, AllocError>
    ensures { IfOk result (λ text. string_bytes text ≡ same_text calls) }
{
    let calls = match calls {
        Calls::Every => "call",
        Calls::Native => "native call",
    };
    format!(in alloc; "same on every {calls}\n")
}

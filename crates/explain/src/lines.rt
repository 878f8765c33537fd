ghost use Rattle.std.specs.Prelude.{◌≡◌, IfOk, string_bytes};
ghost use Rattle.explain.specs.Text.{explanation_text, op_text};

use crate::explanation::{Decider, Explanation, PassedOver};
use action::ValueText;
use call_names::Argument;
use oci_profile::Op;
use std::alloc::{AllocError, Global};
use std::fmt;

/// `not syscalls[1]: args[0] is 5, wanted GE 9`, and for a mask `wanted MASKED_EQ 0x7e020000 0`.
impl fmt::Display for PassedOver {
    ghost use Rattle.std.specs.Prelude.{Some};
    ghost use Rattle.explain.specs.Text.{passed_text};

    ghost output = { λ passed. Some (passed_text passed) };

    fn fmt<W: fmt::Write>(&self, f: &mut fmt::Formatter<W>) -> fmt::Result {
        let (place, argument) = (self.place, Argument(self.argument));
        let (index, value) = (self.cond.index, Argument(self.cond.value));
        let op = op_text(self.cond.op);
        write!(
            f,
            "not syscalls[{place}]: args[{index}] is {argument}, wanted {op} {value}"
        )?;
        match self.cond.op {
            Op::MaskedEqual => write!(f, " {}", Argument(self.cond.value_two)),
            _ => Ok(()),
        }
    }
}

/// The operator's name of OCI, without its prefix `SCMP_CMP_`.
pub(crate) fn op_text(op: Op) -> &'static str
    ensures { result.now ≡ op_text op }
{
    match op {
        Op::NotEqual => "NE",
        Op::Less => "LT",
        Op::LessOrEqual => "LE",
        Op::Equal => "EQ",
        Op::GreaterOrEqual => "GE",
        Op::Greater => "GT",
        Op::MaskedEqual => "MASKED_EQ",
    }
}

/// What decides, as named in a profile: `syscalls[3]`, `defaultAction`.
impl fmt::Display for Decider {
    ghost use Rattle.std.specs.Prelude.{Some};
    ghost use Rattle.explain.specs.Text.{decider_text};

    ghost output = { λ decider. Some (decider_text decider) };

    fn fmt<W: fmt::Write>(&self, f: &mut fmt::Formatter<W>) -> fmt::Result {
        match self {
            Decider::Architecture => f.write_str("the architecture"),
            Decider::X32Bit => f.write_str("the x32 bit"),
            Decider::Entry(place) => write!(f, "syscalls[{place}]"),
            Decider::Default => f.write_str("defaultAction"),
        }
    }
}

/// A value's action and data, and what decides: `ERRNO 13 by syscalls[3]`.
#[derive(Clone, Copy, Debug)]
pub struct Decided(pub u32, pub Decider);

impl fmt::Display for Decided {
    ghost use Rattle.std.specs.Prelude.{Some};
    ghost use Rattle.explain.specs.Text.{decided_text};

    ghost output = { λ decided. Some (decided_text decided.0 decided.1) };

    fn fmt<W: fmt::Write>(&self, f: &mut fmt::Formatter<W>) -> fmt::Result {
        let (value, decider) = (ValueText(self.0), self.1);
        write!(f, "{value} by {decider}")
    }
}

/// A line for each entry that is passed over, and one for what decides: `ERRNO 13 by syscalls[3]`.
pub fn explanation_lines(alloc: Global, explanation: &Explanation) -> Result<String, AllocError>
    ensures { IfOk result (λ text. string_bytes text ≡ explanation_text explanation.now) }
{
    let mut text = String::new(alloc);
    for passed in explanation.passed.as_slice() {
        writeln!(text, "{passed}")?;
    }
    let decided = Decided(explanation.decision.value(), explanation.decider);
    writeln!(text, "{decided}")?;
    Ok(text)
}

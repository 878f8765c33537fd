ghost use Rattle.std.specs.Prelude.{◌≡◌, IfOk, string_bytes};
ghost use Rattle.explain.specs.Objects.{explanation_objects};

use crate::explanation::{Decider, Explanation, PassedOver};
use crate::lines::op_text;
use action::Verdict;
use oci_profile::{Cond, Op};
use std::alloc::{AllocError, Global};
use std::fmt;

/// The member `valueTwo` of a condition with a mask; empty for others.
#[derive(Clone, Copy)]
struct Masked(Cond);

impl fmt::Display for Masked {
    ghost use Rattle.std.specs.Prelude.{Some};
    ghost use Rattle.explain.specs.Objects.{masked_member};

    ghost output = { λ masked. Some (masked_member masked.0.op masked.0.value_two) };

    fn fmt<W: fmt::Write>(&self, f: &mut fmt::Formatter<W>) -> fmt::Result {
        match self.0.op {
            Op::MaskedEqual => write!(f, ",\"valueTwo\":{}", self.0.value_two),
            _ => Ok(()),
        }
    }
}

/// An entry that is passed over, as an object.
#[derive(Clone, Copy)]
struct Object(PassedOver);

/// `{"not":"syscalls[1]","arg":0,"is":5,"wanted":"GE","value":9}`, and for a mask `"valueTwo"` after it.
impl fmt::Display for Object {
    ghost use Rattle.std.specs.Prelude.{Some};
    ghost use Rattle.explain.specs.Objects.{passed_object};

    ghost output = { λ object. Some (passed_object object.0) };

    fn fmt<W: fmt::Write>(&self, f: &mut fmt::Formatter<W>) -> fmt::Result {
        let (place, argument) = (self.0.place, self.0.argument);
        let (index, value) = (self.0.cond.index, self.0.cond.value);
        let (op, masked) = (op_text(self.0.cond.op), Masked(self.0.cond));
        write!(
            f,
            "{{\"not\":\"syscalls[{place}]\",\"arg\":{index},\"is\":{argument},\
             \"wanted\":\"{op}\",\"value\":{value}{masked}}}"
        )
    }
}

/// A value's action and data, and what decides, as members: `"action":"ERRNO","data":13,"by":"syscalls[3]"`.
#[derive(Clone, Copy, Debug)]
pub struct DecidedMembers(pub u32, pub Decider);

impl fmt::Display for DecidedMembers {
    ghost use Rattle.std.specs.Prelude.{Some};
    ghost use Rattle.explain.specs.Objects.{decided_members};

    ghost output = { λ members. Some (decided_members members.0 members.1) };

    fn fmt<W: fmt::Write>(&self, f: &mut fmt::Formatter<W>) -> fmt::Result {
        let verdict = Verdict::of_value(self.0);
        let (action, ret_data) = (verdict.action, verdict.ret_data);
        let decider = self.1;
        write!(
            f,
            "\"action\":\"{action}\",\"data\":{ret_data},\"by\":\"{decider}\""
        )
    }
}

/// The content of [`explanation_lines`](crate::explanation_lines), as one JSON object (RFC 8259) per line:
/// `{"action":"ERRNO","data":13,"by":"syscalls[3]"}`.
pub fn explanation_objects(alloc: Global, explanation: &Explanation) -> Result<String, AllocError>
    ensures { IfOk result (λ text. string_bytes text ≡ explanation_objects explanation.now) }
{
    let mut text = String::new(alloc);
    for passed in explanation.passed.as_slice() {
        let object = Object(*passed);
        writeln!(text, "{object}")?;
    }
    let decided = DecidedMembers(explanation.decision.value(), explanation.decider);
    writeln!(text, "{{{decided}}}")?;
    Ok(text)
}

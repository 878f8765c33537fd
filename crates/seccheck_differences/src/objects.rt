//! Lines as JSON objects (RFC 8259). No text of these has a byte that JSON would escape.
ghost use Rattle.std.specs.Prelude.{◌≡◌, IfOk, string_bytes};
ghost use Rattle.seccheck_differences.specs.Objects.{answer_objects, lines_objects};

use crate::line::{Line, SideAnswer};
use crate::texts::PartName;
use action::{ValueMembers, ValueObject};
use bpf_compare::Calls;
use call_names::CallMembers;
use seccheck_output::{reason, same_object};
use std::alloc::{AllocError, Global};
use std::fmt;
use sys_table::CallTable;

/// What a filter returns: `{"value":327681,"action":"ERRNO","data":1}`, with `"by"` for a profile.
#[derive(Clone, Copy)]
struct SideObject(SideAnswer);

impl fmt::Display for SideObject {
    ghost use Rattle.std.specs.Prelude.{Some};
    ghost use Rattle.seccheck_differences.specs.Objects.{side_object};

    ghost output = { λ answer. Some (side_object answer.0) };

    fn fmt<W: fmt::Write>(&self, f: &mut fmt::Formatter<W>) -> fmt::Result {
        let value = self.0.value;
        match self.0.decider {
            None => write!(f, "{}", ValueObject(value)),
            Some(decider) => {
                let members = ValueMembers(value);
                write!(f, "{{{members},\"by\":\"{decider}\"}}")
            }
        }
    }
}

/// A line as an object, with the names of these calls.
#[derive(Clone, Copy)]
pub struct LineObject(pub CallTable, pub Line);

impl fmt::Display for LineObject {
    ghost use Rattle.std.specs.Prelude.{Some};
    ghost use Rattle.seccheck_differences.specs.Objects.{line_object};

    ghost output = { λ line. Some (line_object line.0 line.1) };

    fn fmt<W: fmt::Write>(&self, f: &mut fmt::Formatter<W>) -> fmt::Result {
        match self.1 {
            Line::Differs(part, call, one, other) => {
                let (name, members) = (PartName(self.0, part), CallMembers(call));
                let (first, second) = (SideObject(one), SideObject(other));
                write!(
                    f,
                    "{{\"answer\":\"differ\",\"calls\":\"{name}\",{members},\"first\":{first},\
                     \"second\":{second}}}"
                )
            }
            Line::Undecided(part, doubt) => {
                let (name, why) = (PartName(self.0, part), reason(doubt));
                write!(
                    f,
                    "{{\"answer\":\"undecided\",\"calls\":\"{name}\",\"reason\":\"{why}\"}}"
                )
            }
        }
    }
}

/// An object for each line, with the names of the known calls, or that both filters are the same on these calls
/// if there is no line.
pub fn all_objects(
    alloc: Global,
    known: CallTable,
    calls: Calls,
    lines: &[Line],
) -> Result<String, AllocError>
    ensures { IfOk result (λ text. string_bytes text ≡ answer_objects known calls lines.now) }
{
    if lines.is_empty() {
        return same_object(alloc, calls);
    }
    joined(alloc, known, lines)
}

/// The objects, each with the end of its line.
fn joined(alloc: Global, known: CallTable, lines: &[Line]) -> Result<String, AllocError>
    ensures { IfOk result (λ text. string_bytes text ≡ lines_objects known lines.now) }
{
    let mut text = String::new(alloc);
    for line in lines {
        let object = LineObject(known, *line);
        writeln!(text, "{object}")?;
    }
    Ok(text)
}

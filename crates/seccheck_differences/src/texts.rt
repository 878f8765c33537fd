ghost use Rattle.std.specs.Prelude.{◌≡◌, IfOk, string_bytes};
ghost use Rattle.seccheck_differences.specs.Texts.{answer_text, lines_text};

use crate::line::{Line, SideAnswer};
use bpf_compare::Calls;
use call_names::{CallWord, CallWords, Naming};
use explain::Decided;
use filter_differences::Part;
use seccheck_output::{ShownValue, reason, same_line};
use std::alloc::{AllocError, Global};
use std::fmt;
use sys_table::CallTable;

/// The calls with numbers from the first to the second: the name of a single number, if it is one of these
/// calls, or `335 to 423`.
#[derive(Clone, Copy)]
struct NumbersName(CallTable, u32, u32);

impl fmt::Display for NumbersName {
    ghost use Rattle.std.specs.Prelude.{Some};
    ghost use Rattle.seccheck_differences.specs.Texts.{numbers_text};

    ghost output = { λ name. Some (numbers_text name.0 name.1 name.2) };

    #[tactic(auto, unfolding(crate::specs::Texts::numbers_text))]
    fn fmt<W: fmt::Write>(&self, f: &mut fmt::Formatter<W>) -> fmt::Result {
        let (low, high) = (self.1, self.2);
        if low == high {
            let word = CallWord {
                nr: low,
                naming: Naming::Name(self.0),
            };
            write!(f, "{word}")
        } else {
            write!(f, "{low} to {high}")
        }
    }
}

/// The calls of a part, by the names of these calls: `socket`, `335 to 423`, `440 and above`, `x32`,
/// `other architectures`.
#[derive(Clone, Copy)]
pub struct PartName(pub CallTable, pub Part);

impl fmt::Display for PartName {
    ghost use Rattle.std.specs.Prelude.{Some};
    ghost use Rattle.seccheck_differences.specs.Texts.{part_text};

    ghost output = { λ name. Some (part_text name.0 name.1) };

    fn fmt<W: fmt::Write>(&self, f: &mut fmt::Formatter<W>) -> fmt::Result {
        match self.1 {
            Part::Numbers(low, high) => write!(f, "{}", NumbersName(self.0, low, high)),
            Part::Later => write!(f, "{} and above", self.0.limit()),
            Part::X32 => f.write_str("x32"),
            Part::OtherArchitectures => f.write_str("other architectures"),
        }
    }
}

/// `00050001 ERRNO 1 (EPERM)` for a filter, `ERRNO 1 (EPERM) by syscalls[3]` for a profile.
impl fmt::Display for SideAnswer {
    ghost use Rattle.std.specs.Prelude.{Some};
    ghost use Rattle.seccheck_differences.specs.Texts.{side_text};

    ghost output = { λ answer. Some (side_text answer) };

    fn fmt<W: fmt::Write>(&self, f: &mut fmt::Formatter<W>) -> fmt::Result {
        match self.decider {
            None => write!(f, "{}", ShownValue(self.value)),
            Some(decider) => write!(f, "{}", Decided(self.value, decider)),
        }
    }
}

/// A line with the names of these calls:
/// `socket: ERRNO 1 (EPERM) by syscalls[3], ALLOW 0 by defaultAction at socket 0x28`.
#[derive(Clone, Copy)]
pub struct LineText(pub CallTable, pub Line);

impl fmt::Display for LineText {
    ghost use Rattle.std.specs.Prelude.{Some};
    ghost use Rattle.seccheck_differences.specs.Texts.{line_text};

    ghost output = { λ line. Some (line_text line.0 line.1) };

    fn fmt<W: fmt::Write>(&self, f: &mut fmt::Formatter<W>) -> fmt::Result {
        match self.1 {
            Line::Differs(part, call, one, other) => {
                let (name, words) = (PartName(self.0, part), CallWords(self.0, call));
                write!(f, "{name}: {one}, {other} at {words}")
            }
            Line::Undecided(part, doubt) => {
                let (name, why) = (PartName(self.0, part), reason(doubt));
                write!(f, "{name}: undecided: {why}")
            }
        }
    }
}

/// The lines, by the names of the known calls, or that both filters are the same on these calls if there is no
/// line.
pub fn all_lines(
    alloc: Global,
    known: CallTable,
    calls: Calls,
    lines: &[Line],
) -> Result<String, AllocError>
    ensures { IfOk result (λ text. string_bytes text ≡ answer_text known calls lines.now) }
{
    if lines.is_empty() {
        return same_line(alloc, calls);
    }
    joined(alloc, known, lines)
}

/// The lines, each with its end.
fn joined(alloc: Global, known: CallTable, lines: &[Line]) -> Result<String, AllocError>
    ensures { IfOk result (λ text. string_bytes text ≡ lines_text known lines.now) }
{
    let mut text = String::new(alloc);
    for line in lines {
        let line = LineText(known, *line);
        writeln!(text, "{line}")?;
    }
    Ok(text)
}

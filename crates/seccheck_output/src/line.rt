ghost use Rattle.std.specs.Prelude.{◌≡◌, ◌++◌, IfOk, codes, string_bytes};
ghost use Rattle.seccheck_output.specs.LineText.{outcome_text, record_text};
ghost use Rattle.seccheck_output.specs.Texts.{accepted_text, compiled_text, judged_text, longest_text};

use crate::judging::Judged;
use crate::playing::Outcome;
use call_names::{CallWord, Naming};
use runtime_cell::JudgedCall;
use std::alloc::{AllocError, Global};
use std::fmt;

/// The line for a sound filter of this many instructions.
pub fn accepted_line(alloc: Global, count: usize) -> Result<String, AllocError>
    ensures { IfOk result (λ text. string_bytes text ≡ accepted_text count) }
{
    format!(in alloc; "accepted {count} instructions\n")
}

/// The line for a compiled filter of this many instructions.
pub fn compiled_line(alloc: Global, count: usize) -> Result<String, AllocError>
    ensures { IfOk result (λ text. string_bytes text ≡ compiled_text count) }
{
    format!(in alloc; "compiled {count} instructions\n")
}

/// The line for a filter whose runs take at most this many steps.
pub fn longest_line(alloc: Global, most: u32) -> Result<String, AllocError>
    ensures { IfOk result (λ text. string_bytes text ≡ longest_text most) }
{
    format!(in alloc; "longest {most}\n")
}

/// The line for a filter's answer.
pub fn judged_line(alloc: Global, judged: &Judged) -> Result<String, AllocError>
    ensures { IfOk result (λ text. string_bytes text ≡ judged_text judged.now ++ codes "\n") }
{
    format!(in alloc; "{judged}\n")
}

/// A judged call as it is printed: `PLACE NR ACTION DATA performed`, or `denied`, with its name if that is
/// wanted.
#[derive(Clone, Copy)]
pub(crate) struct Line {
    /// The step that makes the call, from 0.
    pub(crate) place: usize,
    pub(crate) entry: JudgedCall,
    pub(crate) naming: Naming,
}

impl fmt::Display for Line {
    ghost use Rattle.std.specs.Prelude.{Some};
    ghost use Rattle.seccheck_output.specs.LineText.{entry_text};

    ghost output = { λ line. Some (entry_text line.naming line.place line.entry) };

    fn fmt<W: fmt::Write>(&self, f: &mut fmt::Formatter<W>) -> fmt::Result {
        let (place, nr, naming) = (self.place, self.entry.call.nr, self.naming);
        let call = CallWord { nr, naming };
        let (action, ret_data) = (self.entry.verdict.action, self.entry.verdict.ret_data);
        let outcome = outcome(self.entry.performed);
        write!(f, "{place} {call} {action} {ret_data} {outcome}")
    }
}

/// Whether a judged call was performed, as a word.
pub(crate) fn outcome(performed: bool) -> &'static str
    ensures { result.now ≡ outcome_text performed }
{
    if performed { "performed" } else { "denied" }
}

/// A line for each judged call, and one for the end. Each step but the last makes a call, so a call's
/// place in the record is its step's place in the script.
pub fn outcome_lines(alloc: Global, outcome: &Outcome, naming: Naming) -> Result<String, AllocError>
    ensures { IfOk result (λ text. string_bytes text ≡ record_text naming outcome.now) }
{
    let mut text = String::new(alloc);
    for (place, entry) in outcome.entries().iter().enumerate() {
        let line = Line {
            place,
            entry: *entry,
            naming,
        };
        writeln!(text, "{line}")?;
    }
    let code = outcome.code();
    writeln!(text, "exit {code}")?;
    Ok(text)
}

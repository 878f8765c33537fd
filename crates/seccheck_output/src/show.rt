ghost use Rattle.std.specs.Prelude.{◌≡◌, ◌+◌, ◌<◌, ◌≤◌, IfOk, length, string_bytes};
ghost use Rattle.bpf_code.specs.declared.limits.TheConstants.{MAX_INSNS};
ghost use Rattle.bpf_code.specs.Flow.{flow_of};
ghost use Rattle.seccheck_output.specs.ArrowText.{arrow_of};
ghost use Rattle.seccheck_output.specs.ListObjects.{commented_object};
ghost use Rattle.seccheck_output.specs.PartObjects.{shown_object};
ghost use Rattle.seccheck_output.specs.ShownText.{shown_text};
ghost use Rattle.seccheck_output.specs.Texts.{code_text, commented_text};

use bpf_code::{Flow, Insn};
use std::alloc::{AllocError, Global};
use std::fmt;
use sys_table::CallTable;

/// The targets of an instruction.
#[derive(Clone, Copy)]
pub(crate) enum Arrow {
    /// To this place.
    To(u64),
    /// To the first place if the test holds, to the second if it fails.
    Either(u64, u64),
    /// Nowhere, or to the next place.
    Nothing,
}

impl fmt::Display for Arrow {
    ghost use Rattle.std.specs.Prelude.{Some};
    ghost use Rattle.seccheck_output.specs.ArrowText.{arrow_text};

    ghost output = { λ arrow. Some (arrow_text arrow) };

    fn fmt<W: fmt::Write>(&self, f: &mut fmt::Formatter<W>) -> fmt::Result {
        match self {
            Arrow::To(place) => write!(f, " -> {place}"),
            Arrow::Either(holds, fails) => write!(f, " -> {holds}, {fails}"),
            Arrow::Nothing => Ok(()),
        }
    }
}

/// The name of a call that an instruction asks about, after it.
#[derive(Clone, Copy)]
pub(crate) struct Comment {
    pub(crate) calls: CallTable,
    pub(crate) is_number_test: bool,
    pub(crate) nr: u32,
}

impl fmt::Display for Comment {
    ghost use Rattle.std.specs.Prelude.{Some};
    ghost use Rattle.seccheck_output.specs.Texts.{comment_text};

    ghost output = { λ comment. Some (comment_text comment.calls comment.is_number_test comment.nr) };

    fn fmt<W: fmt::Write>(&self, f: &mut fmt::Formatter<W>) -> fmt::Result {
        if !self.is_number_test {
            return Ok(());
        }
        match self.calls.name(self.nr) {
            Some(name) => write!(f, " ; {name}"),
            None => Ok(()),
        }
    }
}

/// An instruction as it is shown, with its place before it, and its targets and a call's name after it.
#[derive(Clone, Copy)]
pub(crate) struct Shown {
    pub(crate) place: usize,
    pub(crate) insn: Insn,
    pub(crate) arrow: Arrow,
    pub(crate) comment: Comment,
}

impl fmt::Display for Shown {
    ghost use Rattle.std.specs.Prelude.{Some};
    ghost use Rattle.seccheck_output.specs.ShownText.{shown_text};

    ghost output = { λ shown. Some (shown_text shown) };

    fn fmt<W: fmt::Write>(&self, f: &mut fmt::Formatter<W>) -> fmt::Result {
        let (place, insn) = (self.place, self.insn);
        let (arrow, comment) = (self.arrow, self.comment);
        write!(f, "{place}: {insn}{arrow}{comment}")
    }
}

/// One line per instruction: its place, its text, after a jump its targets, and after a comparison of the
/// call's number, marked in `number_tests`, the name of that number, if it is one of these calls.
pub fn code_lines(
    alloc: Global,
    calls: CallTable,
    code: &[Insn],
    number_tests: &[bool],
) -> Result<String, AllocError>
    requires short { length code.now ≤ MAX_INSNS }
    requires as_many { length number_tests.now ≡ length code.now }
    ensures { IfOk result (λ text. string_bytes text ≡ code_text calls number_tests.now code.now) }
{
    let mut text = String::new(alloc);
    for (place, insn) in code.iter().enumerate() {
        let line = shown_at(calls, place, *insn, number_tests[place]);
        writeln!(text, "{line}")?;
    }
    Ok(text)
}

pub(crate) fn shown_at(calls: CallTable, place: usize, insn: Insn, is_number_test: bool) -> Shown
    requires { place < MAX_INSNS }
    ensures text { shown_text result ≡ commented_text calls is_number_test place insn }
    ensures object { shown_object result ≡ commented_object calls is_number_test place insn }
{
    Shown {
        place,
        insn,
        arrow: ways_on(place, &insn),
        comment: Comment {
            calls,
            is_number_test,
            nr: insn.k,
        },
    }
}

/// The targets of the instruction at this place.
fn ways_on(place: usize, insn: &Insn) -> Arrow
    requires { place < MAX_INSNS }
    ensures { result ≡ arrow_of (flow_of insn.now.op) place insn.now }
{
    match insn.op.flow() {
        Flow::Branches => Arrow::Either(
            target(place, u32::from(insn.jt)),
            target(place, u32::from(insn.jf)),
        ),
        Flow::Jumps => Arrow::To(target(place, insn.k)),
        Flow::Returns | Flow::Continues => Arrow::Nothing,
    }
}

/// The target of a jump that skips this many instructions.
fn target(place: usize, skipped: u32) -> u64
    requires { place < MAX_INSNS }
    ensures { result ≡ place + 1 + skipped }
{
    place as u64 + 1 + u64::from(skipped)
}

//! JSON objects (RFC 8259), one per line, for each item of a list.
ghost use Rattle.std.specs.Prelude.{◌≡◌, ◌++◌, ◌≤◌, IfOk, codes, length, string_bytes};
ghost use Rattle.bpf_code.specs.declared.limits.TheConstants.{MAX_INSNS};
ghost use Rattle.profile_pick.specs.Choice.{choice_seen};
ghost use Rattle.seccheck_output.specs.ListObjects.{code_objects, picked_objects};
ghost use Rattle.seccheck_output.specs.ListObjects.{profile_members, record_objects};

use crate::line::{Line, outcome};
use crate::playing::Outcome;
use crate::show::{Arrow, Comment, Shown, shown_at};
use bpf_code::Insn;
use call_names::{CallWord, Naming};
use manifest::{Container, Pod};
use profile_pick::{Choice, pick};
use serde_json::Value;
use std::alloc::{AllocError, Global};
use std::fmt;
use sys_table::CallTable;

/// A call: its number, or its name if that is wanted and there is one.
#[derive(Clone, Copy)]
pub(crate) struct CallValue(pub(crate) CallWord);

impl fmt::Display for CallValue {
    ghost use Rattle.std.specs.Prelude.{Some};
    ghost use Rattle.seccheck_output.specs.ListObjects.{call_value};

    ghost output = { λ call. Some (call_value call.0.naming call.0.nr) };

    fn fmt<W: fmt::Write>(&self, f: &mut fmt::Formatter<W>) -> fmt::Result {
        let nr = self.0.nr;
        match self.0.naming {
            Naming::Number => write!(f, "{nr}"),
            Naming::Name(calls) => match calls.name(nr) {
                Some(name) => write!(f, "\"{name}\""),
                None => write!(f, "{nr}"),
            },
        }
    }
}

/// A judged call.
#[derive(Clone, Copy)]
struct LineObject(Line);

impl fmt::Display for LineObject {
    ghost use Rattle.std.specs.Prelude.{Some};
    ghost use Rattle.seccheck_output.specs.ListObjects.{entry_object};

    ghost output = { λ line. Some (entry_object line.0.naming line.0.place line.0.entry) };

    fn fmt<W: fmt::Write>(&self, f: &mut fmt::Formatter<W>) -> fmt::Result {
        let (place, nr, naming) = (self.0.place, self.0.entry.call.nr, self.0.naming);
        let call = CallValue(CallWord { nr, naming });
        let (action, ret_data) = (self.0.entry.verdict.action, self.0.entry.verdict.ret_data);
        let outcome = outcome(self.0.entry.performed);
        write!(
            f,
            "{{\"place\":{place},\"call\":{call},\"action\":\"{action}\",\"data\":{ret_data},\
             \"outcome\":\"{outcome}\"}}"
        )
    }
}

/// An object for each judged call, and one for the end.
pub fn record_objects(
    alloc: Global,
    outcome: &Outcome,
    naming: Naming,
) -> Result<String, AllocError>
    ensures { IfOk result (λ text. string_bytes text ≡ record_objects naming outcome.now) }
{
    let mut text = String::new(alloc);
    for (place, entry) in outcome.entries().iter().enumerate() {
        let line = LineObject(Line {
            place,
            entry: *entry,
            naming,
        });
        writeln!(text, "{line}")?;
    }
    let code = outcome.code();
    writeln!(text, "{{\"exit\":{code}}}")?;
    Ok(text)
}

/// The targets of an instruction, as a member.
#[derive(Clone, Copy)]
struct ArrowMember(Arrow);

impl fmt::Display for ArrowMember {
    ghost use Rattle.std.specs.Prelude.{Some};
    ghost use Rattle.seccheck_output.specs.PartObjects.{arrow_part};

    ghost output = { λ arrow. Some (arrow_part arrow.0) };

    fn fmt<W: fmt::Write>(&self, f: &mut fmt::Formatter<W>) -> fmt::Result {
        match self.0 {
            Arrow::To(place) => write!(f, ",\"to\":[{place}]"),
            Arrow::Either(holds, fails) => write!(f, ",\"to\":[{holds},{fails}]"),
            Arrow::Nothing => Ok(()),
        }
    }
}

/// The name of a call that an instruction asks about, as a member.
#[derive(Clone, Copy)]
struct NameMember(Comment);

impl fmt::Display for NameMember {
    ghost use Rattle.std.specs.Prelude.{Some};
    ghost use Rattle.seccheck_output.specs.ListObjects.{comment_member};

    ghost output = { λ comment. Some (comment_member comment.0.calls comment.0.is_number_test comment.0.nr) };

    fn fmt<W: fmt::Write>(&self, f: &mut fmt::Formatter<W>) -> fmt::Result {
        if !self.0.is_number_test {
            return Ok(());
        }
        match self.0.calls.name(self.0.nr) {
            Some(name) => write!(f, ",\"name\":\"{name}\""),
            None => Ok(()),
        }
    }
}

/// An instruction, its targets, and a call's name.
#[derive(Clone, Copy)]
struct ShownObject(Shown);

impl fmt::Display for ShownObject {
    ghost use Rattle.std.specs.Prelude.{Some};
    ghost use Rattle.seccheck_output.specs.PartObjects.{shown_object};

    ghost output = { λ shown. Some (shown_object shown.0) };

    fn fmt<W: fmt::Write>(&self, f: &mut fmt::Formatter<W>) -> fmt::Result {
        let (place, insn) = (self.0.place, self.0.insn);
        let (arrow, name) = (ArrowMember(self.0.arrow), NameMember(self.0.comment));
        write!(
            f,
            "{{\"place\":{place},\"instruction\":\"{insn}\"{arrow}{name}}}"
        )
    }
}

/// An object for each instruction. The names are those of these calls.
pub fn code_objects(
    alloc: Global,
    calls: CallTable,
    code: &[Insn],
    number_tests: &[bool],
) -> Result<String, AllocError>
    requires short { length code.now ≤ MAX_INSNS }
    requires as_many { length number_tests.now ≡ length code.now }
    ensures { IfOk result (λ text. string_bytes text ≡ code_objects calls number_tests.now code.now) }
{
    let mut text = String::new(alloc);
    for (place, insn) in code.iter().enumerate() {
        let object = ShownObject(shown_at(calls, place, *insn, number_tests[place]));
        writeln!(text, "{object}")?;
    }
    Ok(text)
}

/// An object for each container of a pod, init ones first: the profile that it gets on a node whose seccomp
/// default is on or off.
pub fn picked_objects(alloc: Global, pod: &Pod, seccomp_default: bool) -> Result<String, AllocError>
    ensures { IfOk result (λ text. string_bytes text ≡ picked_objects pod.now seccomp_default) }
{
    let mut text = String::new(alloc);
    for (place, container) in pod.containers.as_slice().iter().enumerate() {
        let object = picked_object(alloc, container, pick(pod, place, seccomp_default))?;
        writeln!(text, "{object}")?;
    }
    Ok(text)
}

/// A container with the profile that it gets.
fn picked_object(
    alloc: Global,
    container: &Container,
    choice: Choice<'_>,
) -> Result<String, AllocError>
    ensures { IfOk result (λ text. string_bytes text ≡ codes "{\"container\":\"" ++ (container.now.name
        ++ (codes "\",\"profile\":" ++ (profile_members (choice_seen choice.entry) ++ codes "}")))) }
{
    let name = container.name.as_str();
    let members = profile_members(alloc, choice)?;
    format!(in alloc; "{{\"container\":\"{name}\",\"profile\":{members}}}")
}

/// The name of a profile, followed by the path of one that has a file. A path may have any byte.
pub(crate) fn profile_members(alloc: Global, choice: Choice<'_>) -> Result<String, AllocError>
    ensures { IfOk result (λ text. string_bytes text ≡ profile_members (choice_seen choice.entry)) }
{
    match choice {
        Choice::RuntimeDefault => format!(in alloc; "\"RuntimeDefault\""),
        Choice::Localhost(path) => {
            let path = String::from_str(alloc, path.as_str())?;
            let quoted = Value::String(path).to_string(alloc)?;
            format!(in alloc; "\"Localhost\",\"path\":{quoted}")
        }
        Choice::Unconfined => format!(in alloc; "\"Unconfined\""),
    }
}

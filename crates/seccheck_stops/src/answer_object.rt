//! What ends the program before its work is done, as an object of JSON (RFC 8259). No text of these but a
//! value has a byte that JSON would escape.
ghost use Rattle.std.specs.Prelude.{◌≡◌, IfOk, string_bytes};
ghost use Rattle.seccheck_stops.specs.AnswerObjects.{AreFilterMembers, AreMembersOf, IsObjectOf};

use crate::notes::{Spot, insn_at, refusal_spot};
use crate::refused::{Refused, RefusedFile};
use crate::stop::Stop;
use bpf_code::Insn;
use bpf_verify::Refusal;
use fault_notes::{Named, fault_members};
use seccheck_output::{DifferenceObject, reason};
use std::alloc::{AllocError, Global};
use std::fmt;
use std::io::{self, Write};

/// An answer that ends the program before its work is done, with the end of the line. Nothing is written of
/// what is no answer: that goes to standard error.
#[derive(Clone, Copy)]
pub(crate) struct AnswerObject<'s, 'a> {
    stop: &'s Stop<'a>,
    /// On a refused file: the place of its fault and the value there.
    members: &'s str,
}

impl fmt::Display for AnswerObject<'_, '_> {
    ghost use Rattle.std.specs.Prelude.{Some};
    ghost use Rattle.seccheck_stops.specs.AnswerObjects.{answer_object};

    ghost output = { λ answer. Some (answer_object answer.stop.now answer.members.now) };

    fn fmt<W: fmt::Write>(&self, f: &mut fmt::Formatter<W>) -> fmt::Result {
        match self.stop {
            Stop::Refused(file) => {
                let (kind, fault, members) = (
                    file.refused.kind(),
                    file.refused.fault(),
                    self.members,
                );
                writeln!(
                    f,
                    "{{\"answer\":\"refused\",\"of\":\"{kind}\",\"fault\":\"{fault}\"{members}}}"
                )
            }
            Stop::Differ(difference) => write!(f, "{}", DifferenceObject(*difference)),
            Stop::Undecided(doubt) => {
                writeln!(
                    f,
                    "{{\"answer\":\"undecided\",\"reason\":\"{}\"}}",
                    reason(*doubt)
                )
            }
            _ => Ok(()),
        }
    }
}

/// Writes the object of an answer. Out of memory, that of a refused file is without the place.
pub fn write_object<W: Write>(alloc: Global, stop: &Stop<'_>, out: &mut W) -> io::Result<()> {
    match object_line(alloc, stop) {
        Ok(line) => out.write_all(line.as_bytes()),
        Err(AllocError) => write!(out, "{}", AnswerObject { stop, members: "" }),
    }
}

/// The object of an answer, with the end of the line.
pub fn object_line(alloc: Global, stop: &Stop<'_>) -> Result<String, AllocError>
    ensures { IfOk result (λ line. IsObjectOf stop.now (string_bytes line)) }
{
    match stop {
        Stop::Refused(file) => {
            let members = members_of(alloc, file)?;
            let members = members.as_str();
            format!(in alloc; "{}", AnswerObject { stop, members })
        }
        _ => format!(in alloc; "{}", AnswerObject { stop, members: "" }),
    }
}

/// The place of a refused file's fault, and the value there.
fn members_of(alloc: Global, file: &RefusedFile<'_>) -> Result<String, AllocError>
    ensures { IfOk result (λ members. AreMembersOf file.now (string_bytes members)) }
{
    let bytes = file.bytes.as_slice();
    match &file.refused {
        Refused::Filter(refusal) | Refused::StackFilter(refusal) => {
            filter_members(alloc, bytes, *refusal)
        }
        Refused::Stack(_) | Refused::Compile(_) => Ok(String::new(alloc)),
        Refused::Profile(found) => {
            fault_members(alloc, bytes, Named::Profile(found.fault), &found.place)
        }
        Refused::Template(found) => {
            fault_members(alloc, bytes, Named::Template(found.fault), &found.place)
        }
        Refused::Manifest(found) => {
            fault_members(alloc, bytes, Named::Manifest(found.fault), &found.place)
        }
        Refused::Script(found) => {
            fault_members(alloc, bytes, Named::Script(found.fault), &found.place)
        }
    }
}

/// The place of a filter's fault, and the instruction there.
fn filter_members(alloc: Global, bytes: &[u8], refusal: Refusal) -> Result<String, AllocError>
    ensures { IfOk result (λ members. AreFilterMembers bytes.now refusal (string_bytes members)) }
{
    let spot = refusal_spot(refusal);
    let insn = insn_at(alloc, bytes, spot)?;
    format!(in alloc; "{}{}", SpotMember(spot), InsnMember(insn))
}

#[derive(Clone, Copy)]
struct SpotMember(Spot);

impl fmt::Display for SpotMember {
    ghost use Rattle.std.specs.Prelude.{Some};
    ghost use Rattle.seccheck_stops.specs.AnswerObjects.{spot_member};

    ghost output = { λ spot. Some (spot_member spot.0) };

    fn fmt<W: fmt::Write>(&self, f: &mut fmt::Formatter<W>) -> fmt::Result {
        match self.0 {
            Spot::Whole => Ok(()),
            Spot::At(place) => write!(f, ",\"place\":{place}"),
        }
    }
}

#[derive(Clone, Copy)]
struct InsnMember(Option<Insn>);

impl fmt::Display for InsnMember {
    ghost use Rattle.std.specs.Prelude.{Some};
    ghost use Rattle.seccheck_stops.specs.AnswerObjects.{insn_member};

    ghost output = { λ insn. Some (insn_member insn.0) };

    fn fmt<W: fmt::Write>(&self, f: &mut fmt::Formatter<W>) -> fmt::Result {
        match self.0 {
            Some(insn) => write!(f, ",\"value\":\"{insn}\""),
            None => Ok(()),
        }
    }
}

//! Notes on refused files for a person: the file, the place of the fault and the value there.
ghost use Rattle.std.specs.Prelude.{◌≡◌, ◌*◌, IfOk, IfSome, drop, string_bytes, take};
ghost use Rattle.wrong_files.specs.Hints.{IsHint};
ghost use Rattle.seccheck_stops.specs.NoteText.{Begins, IsAt, IsBareNote, IsFilterNote, IsNoteLine, IsNoteOf};
ghost use Rattle.seccheck_stops.specs.NoteText.{hints_on, refusal_name, refusal_spot};

use crate::refused::{Refused, RefusedFile};
use crate::stop::Stop;
use bpf_code::{CodeFault, Insn};
use bpf_verify::{Fault, Refusal};
use fault_notes::{ShownPath, manifest_note, profile_note, script_note, template_note};
use std::alloc::{AllocError, Global};
use std::fmt;
use std::io::Write;
use wrong_files::{Hint, HintAfter, Wanted, hint_of_filter, hint_of_text};

/// A place in a filter.
#[derive(Clone, Copy)]
pub(crate) enum Spot {
    /// No place in particular.
    Whole,
    /// The instruction at this place, from 0.
    At(usize),
}

/// An instruction after a line's text, if there is one.
#[derive(Clone, Copy)]
pub(crate) struct InsnAfter(Option<Insn>);

/// The line on a file whose text is refused, or is partly left out: `seccheck: s.json: steps: Missing`.
#[derive(Clone, Copy)]
pub struct FileLine<'a> {
    pub path: &'a str,
    /// From the `: ` on, without the line's end.
    pub note: &'a str,
}

/// The line on a refused file with the fault alone: `seccheck: f.bpf: BadJump at 4`.
#[derive(Clone, Copy)]
pub(crate) struct ShortLine<'s, 'a>(&'s RefusedFile<'a>);

impl fmt::Display for FileLine<'_> {
    ghost use Rattle.std.specs.Prelude.{Some};
    ghost use Rattle.seccheck_stops.specs.NoteText.{file_line};

    ghost output = { λ line. Some (file_line line.path.now line.note.now) };

    fn fmt<W: fmt::Write>(&self, f: &mut fmt::Formatter<W>) -> fmt::Result {
        writeln!(f, "seccheck: {}{}", ShownPath(self.path), self.note)
    }
}

impl fmt::Display for ShortLine<'_, '_> {
    ghost use Rattle.std.specs.Prelude.{Some};
    ghost use Rattle.seccheck_stops.specs.NoteText.{short_line};

    ghost output = { λ line. Some (short_line line.0.now) };

    fn fmt<W: fmt::Write>(&self, f: &mut fmt::Formatter<W>) -> fmt::Result {
        let (path, fault) = (ShownPath(self.0.path), self.0.refused.fault());
        writeln!(f, "seccheck: {path}: {fault}")
    }
}

impl fmt::Display for InsnAfter {
    ghost use Rattle.std.specs.Prelude.{Some};
    ghost use Rattle.seccheck_stops.specs.NoteText.{insn_after};

    ghost output = { λ after. Some (insn_after after.0) };

    fn fmt<W: fmt::Write>(&self, f: &mut fmt::Formatter<W>) -> fmt::Result {
        match self.0 {
            Some(insn) => write!(f, ": {insn}"),
            None => Ok(()),
        }
    }
}

impl fmt::Display for Spot {
    ghost use Rattle.std.specs.Prelude.{Some};
    ghost use Rattle.seccheck_stops.specs.NoteText.{spot_text};

    ghost output = { λ spot. Some (spot_text spot) };

    fn fmt<W: fmt::Write>(&self, f: &mut fmt::Formatter<W>) -> fmt::Result {
        match self {
            Spot::Whole => Ok(()),
            Spot::At(place) => write!(f, ": {place}"),
        }
    }
}

/// The name of a filter's fault, without its place.
fn refusal_name(refusal: Refusal) -> &'static str
    ensures { result.now ≡ refusal_name refusal }
{
    match refusal {
        Refusal::Code(CodeFault::Length) => "Length",
        Refusal::Code(CodeFault::TooLong) => "TooLong",
        Refusal::Code(CodeFault::BadCode(_)) => "BadCode",
        Refusal::Code(CodeFault::Memory) => "Memory",
        Refusal::Filter(Fault::Empty) => "Empty",
        Refusal::Filter(Fault::TooLong) => "TooLong",
        Refusal::Filter(Fault::BadOffset(_)) => "BadOffset",
        Refusal::Filter(Fault::BadJump(_)) => "BadJump",
        Refusal::Filter(Fault::BadWord(_)) => "BadWord",
        Refusal::Filter(Fault::BadShift(_)) => "BadShift",
        Refusal::Filter(Fault::ZeroDivisor(_)) => "ZeroDivisor",
        Refusal::Filter(Fault::NoFinalReturn) => "NoFinalReturn",
        Refusal::Filter(Fault::Unstored(_)) => "Unstored",
    }
}

/// The place of a filter's fault, if it has one.
pub(crate) fn refusal_spot(refusal: Refusal) -> Spot
    ensures { result ≡ refusal_spot refusal }
{
    match refusal {
        Refusal::Code(CodeFault::BadCode(place)) => Spot::At(place),
        Refusal::Filter(Fault::BadOffset(place)) => Spot::At(place),
        Refusal::Filter(Fault::BadJump(place)) => Spot::At(place),
        Refusal::Filter(Fault::BadWord(place)) => Spot::At(place),
        Refusal::Filter(Fault::BadShift(place)) => Spot::At(place),
        Refusal::Filter(Fault::ZeroDivisor(place)) => Spot::At(place),
        Refusal::Filter(Fault::Unstored(place)) => Spot::At(place),
        _ => Spot::Whole,
    }
}

/// Prints the note on the file that a stop refuses, if it refuses one. Out of memory, the note has the fault
/// alone.
pub fn print_note<E: Write>(alloc: Global, stop: &Stop<'_>, err: &mut E) {
    if let Stop::Refused(file) = stop {
        let _ = match note_line(alloc, file) {
            Ok(line) => err.write_all(line.as_bytes()),
            Err(AllocError) => write!(err, "{}", ShortLine(file)),
        };
    }
}

/// The line on a refused file, with a hint if the file seems to be another one than the wanted one.
pub fn note_line(alloc: Global, file: &RefusedFile<'_>) -> Result<String, AllocError>
    ensures { IfOk result (λ line. IsNoteLine file.now (string_bytes line)) }
{
    let note = note_of(alloc, file.bytes.as_slice(), &file.refused)?;
    let line = FileLine {
        path: file.path,
        note: note.as_str(),
    };
    format!(in alloc; "{line}")
}

/// The note on these bytes, which are refused for this.
fn note_of(alloc: Global, bytes: &[u8], refused: &Refused) -> Result<String, AllocError>
    ensures { IfOk result (λ note. IsNoteOf bytes.now refused.now (string_bytes note)) }
{
    let note = bare_note(alloc, bytes, refused)?;
    let hint = hint_on(alloc, bytes, refused)?;
    format!(in alloc; "{}{}", note.as_str(), HintAfter(hint))
}

fn bare_note(alloc: Global, bytes: &[u8], refused: &Refused) -> Result<String, AllocError>
    ensures { IfOk result (λ note. IsBareNote bytes.now refused.now (string_bytes note)) }
{
    match refused {
        Refused::Filter(refusal) | Refused::StackFilter(refusal) => {
            filter_note(alloc, bytes, *refusal)
        }
        Refused::Stack(fault) => format!(in alloc; ": {fault}"),
        Refused::Profile(found) => profile_note(alloc, bytes, found),
        Refused::Compile(fault) => format!(in alloc; ": {fault}"),
        Refused::Template(found) => template_note(alloc, bytes, found),
        Refused::Manifest(found) => manifest_note(alloc, bytes, found),
        Refused::Script(found) => script_note(alloc, bytes, found),
    }
}

fn hint_on(alloc: Global, bytes: &[u8], refused: &Refused) -> Result<Option<Hint>, AllocError>
    ensures { IfOk result (λ hint. IsHint bytes.now (hints_on refused.now) hint) }
{
    match refused {
        Refused::Filter(_) | Refused::StackFilter(_) => hint_of_filter(alloc, bytes),
        Refused::Profile(_) => hint_of_text(alloc, bytes, Wanted::Profile),
        Refused::Template(_) => hint_of_text(alloc, bytes, Wanted::Template),
        Refused::Manifest(_) => hint_of_text(alloc, bytes, Wanted::Manifest),
        Refused::Script(_) => hint_of_text(alloc, bytes, Wanted::Script),
        Refused::Stack(_) | Refused::Compile(_) => Ok(None),
    }
}

fn filter_note(alloc: Global, bytes: &[u8], refusal: Refusal) -> Result<String, AllocError>
    ensures { IfOk result (λ note. IsFilterNote bytes.now refusal (string_bytes note)) }
{
    let spot = refusal_spot(refusal);
    let (name, insn) = (
        refusal_name(refusal),
        InsnAfter(insn_at(alloc, bytes, spot)?),
    );
    format!(in alloc; "{spot}: {name}{insn}")
}

/// The instruction at a place of a filter's bytes, if there is one.
pub(crate) fn insn_at(alloc: Global, bytes: &[u8], spot: Spot) -> Result<Option<Insn>, AllocError>
    ensures { IfOk result (λ insn. IfSome insn (IsAt bytes.now spot)) }
{
    match spot {
        Spot::At(place) => match own_bytes(bytes, place) {
            Some(own) => first_insn(alloc, own),
            None => Ok(None),
        },
        Spot::Whole => Ok(None),
    }
}

/// The bytes of the instruction at this place.
fn own_bytes(bytes: &[u8], place: usize) -> Option<&[u8]>
    ensures { IfSome result (λ own. own.now ≡ take 8 (drop (8 * place) bytes.now)) }
{
    let from = place.checked_mul(8)?;
    bytes.get(from..from.checked_add(8)?)
}

/// The instruction that these bytes begin with, if they are instructions.
fn first_insn(alloc: Global, bytes: &[u8]) -> Result<Option<Insn>, AllocError>
    ensures { IfOk result (λ insn. IfSome insn (Begins bytes.now)) }
{
    match bpf_code::read(alloc, bytes) {
        Ok(code) => Ok(code.first().copied()),
        Err(CodeFault::Memory) => Err(AllocError),
        Err(_) => Ok(None),
    }
}

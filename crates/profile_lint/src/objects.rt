//! Findings as JSON objects (RFC 8259).
ghost use Rattle.std.specs.Prelude.{◌≡◌, ◌++◌, IfOk, OnOk, flat_map, map, string_bytes};
ghost use Rattle.serde_json.specs.Data.{string};
ghost use Rattle.serde_json.specs.Written.{compact_text};
ghost use Rattle.profile_lint.specs.Objects.{absent_members, found_line, found_object};
ghost use Rattle.profile_lint.specs.Objects.{lint_objects, name_members, newer_object, object_text, others_object};
ghost use Rattle.profile_lint.specs.Objects.{told_line, told_members, told_object};
ghost use Rattle.profile_lint.specs.Passed.{told};

use crate::advised::AdviceMembers;
use crate::choice::{Choice, Tally, counted, is_shown};
use crate::finding::{EngineValues, Finding};
use crate::kinds::{FindingKind, kind_of_found, kind_of_passed, severity_of};
use crate::lines::{NewerWords, OtherWords};
use crate::passed::Passed;
use crate::words::{FoundPlace, FoundWords, PassedPlace, PassedWords};
use absent_names::{AbsentName, kind_of, suggestion};
use action::ValueObject;
use call_data::SysCall;
use call_names::CallMembers;
use serde_json::Value;
use std::alloc::{AllocError, Global};
use std::fmt;
use sys_table::CallTable;

/// A text of any characters, in quotes.
fn quoted(alloc: Global, text: String) -> Result<String, AllocError>
    ensures { IfOk result (λ t. string_bytes t ≡ compact_text (string (string_bytes text))) }
{
    Value::String(text).to_string(alloc)
}

/// A finding of a kind as an object, with members of its own.
pub fn finding_object(
    alloc: Global,
    place: String,
    kind: FindingKind,
    members: &str,
    words: String,
) -> Result<String, AllocError>
    ensures { IfOk result (λ text. string_bytes text
        ≡ object_text (string_bytes place) kind members.now (string_bytes words)) }
{
    let severity = severity_of(kind);
    let place = quoted(alloc, place)?;
    let words = quoted(alloc, words)?;
    format!(in alloc;
        "{{\"place\":{place},\"kind\":\"{kind}\",\"severity\":\"{severity}\"{members},\"text\":{words}}}"
    )
}

/// What a name is that the call table lacks.
fn absent_members(alloc: Global, calls: CallTable, name: &str) -> Result<String, AllocError>
    ensures { IfOk result (λ text. string_bytes text ≡ absent_members calls name.now) }
{
    match kind_of(name) {
        AbsentName::Newer(number) => format!(in alloc; ",\"call\":{number}"),
        AbsentName::Unknown => match suggestion(calls, name) {
            Some(call) => format!(in alloc; ",\"near\":\"{call}\""),
            None => Ok(String::new(alloc)),
        },
        _ => Ok(String::new(alloc)),
    }
}

/// The member for a name of the profile's text.
fn name_members(alloc: Global, name: &str) -> Result<String, AllocError>
    ensures { IfOk result (λ text. string_bytes text ≡ name_members name.now) }
{
    let name = quoted(alloc, String::from_str(alloc, name)?)?;
    format!(in alloc; ",\"value\":{name}")
}

/// The members of a finding about the text.
fn passed_members(
    alloc: Global,
    calls: CallTable,
    passed: &Passed<'_>,
) -> Result<String, AllocError>
    ensures { IfOk result (λ text. string_bytes text ≡ told_members calls (told passed.now)) }
{
    match passed {
        Passed::Ignored(_, key) => {
            let field = quoted(alloc, String::from_str(alloc, key)?)?;
            format!(in alloc; ",\"field\":{field}")
        }
        Passed::OtherArchitectures => String::from_str(alloc, ",\"field\":\"architectures\""),
        Passed::UnknownArchitecture(_, name) => name_members(alloc, name),
        Passed::UnknownName(_, _, name) => {
            let (value, absent) = (
                name_members(alloc, name)?,
                absent_members(alloc, calls, name)?,
            );
            format!(in alloc; "{value}{absent}")
        }
        Passed::RepeatedName(_, _, name) => name_members(alloc, name),
    }
}

/// A finding about the text.
fn passed_object(alloc: Global, calls: CallTable, passed: &Passed<'_>) -> Result<String, AllocError>
    ensures { IfOk result (λ text. string_bytes text ≡ told_object calls (told passed.now)) }
{
    let place = format!(in alloc; "{}", PassedPlace(passed))?;
    let words = format!(in alloc; "{}", PassedWords(calls, passed))?;
    let members = passed_members(alloc, calls, passed)?;
    finding_object(
        alloc,
        place,
        kind_of_passed(passed),
        members.as_str(),
        words,
    )
}

/// The value that runc may have in place of that of the order of entries.
#[derive(Clone, Copy)]
struct InsteadMembers(Option<u32>);

impl fmt::Display for InsteadMembers {
    ghost use Rattle.std.specs.Prelude.{Some};
    ghost use Rattle.profile_lint.specs.Objects.{instead_members};

    ghost output = { λ instead. Some (instead_members instead.0) };

    fn fmt<W: fmt::Write>(&self, f: &mut fmt::Formatter<W>) -> fmt::Result {
        match self.0 {
            Some(value) => write!(f, ",\"or\":{}", ValueObject(value)),
            None => Ok(()),
        }
    }
}

/// The members of a call that engines treat differently.
#[derive(Clone, Copy)]
struct OtherwiseMembers(SysCall, EngineValues);

impl fmt::Display for OtherwiseMembers {
    ghost use Rattle.std.specs.Prelude.{Some};
    ghost use Rattle.profile_lint.specs.Objects.{otherwise_members};

    ghost output = { λ members. Some (otherwise_members members.0 members.1) };

    fn fmt<W: fmt::Write>(&self, f: &mut fmt::Formatter<W>) -> fmt::Result {
        let (here, there) = (ValueObject(self.1.here), ValueObject(self.1.there));
        let (call, instead) = (CallMembers(self.0), InsteadMembers(self.1.instead));
        write!(f, ",{call},\"here\":{here},\"runc\":{there}{instead}")
    }
}

/// The members of a finding about the profile, if these are the known calls.
#[derive(Clone, Copy)]
struct FoundMembers(CallTable, Finding);

impl fmt::Display for FoundMembers {
    ghost use Rattle.std.specs.Prelude.{Some};
    ghost use Rattle.profile_lint.specs.Objects.{found_members};

    ghost output = { λ members. Some (found_members members.0 members.1) };

    fn fmt<W: fmt::Write>(&self, f: &mut fmt::Formatter<W>) -> fmt::Result {
        match self.1 {
            Finding::EnginesDiffer(_, call, values) => {
                write!(f, "{}", OtherwiseMembers(call, values))
            }
            Finding::Overlap(_, other, call) => {
                write!(f, ",{},\"other\":\"syscalls[{other}]\"", CallMembers(call))
            }
            Finding::NewerCalls(errno) => {
                let last = self.0.limit() - 1;
                write!(f, ",\"above\":{last},\"errno\":{errno},\"wanted\":38")
            }
            Finding::Advised(advice) => write!(f, "{}", AdviceMembers(advice)),
            _ => Ok(()),
        }
    }
}

/// A finding about the profile.
fn found_object(alloc: Global, calls: CallTable, found: Finding) -> Result<String, AllocError>
    ensures { IfOk result (λ text. string_bytes text ≡ found_object calls found) }
{
    let place = format!(in alloc; "{}", FoundPlace(found))?;
    let words = format!(in alloc; "{}", FoundWords(calls, found))?;
    let members = format!(in alloc; "{}", FoundMembers(calls, found))?;
    let kind = kind_of_found(&found);
    finding_object(alloc, place, kind, members.as_str(), words)
}

/// Adds the object of a finding about the text, if it has one.
fn add_passed(
    alloc: Global,
    calls: CallTable,
    text: &mut String,
    item: &Passed<'_>,
    choice: Choice<'_>,
) -> Result<(), AllocError>
    ensures { OnOk result (string_bytes text.new
        ≡ string_bytes text.old ++ told_line calls choice.entry.is_all choice.entry.allowed.now (told item.now)) }
{
    if is_shown(kind_of_passed(item), choice) {
        let object = passed_object(alloc, calls, item)?;
        writeln!(text, "{object}")?;
    }
    Ok(())
}

/// Adds the object of a finding about the profile, if it has one.
fn add_found(
    alloc: Global,
    calls: CallTable,
    text: &mut String,
    item: &Finding,
    choice: Choice<'_>,
) -> Result<(), AllocError>
    ensures { OnOk result (string_bytes text.new
        ≡ string_bytes text.old ++ found_line calls choice.entry.is_all choice.entry.allowed.now item.now) }
{
    if is_shown(kind_of_found(item), choice) {
        let object = found_object(alloc, calls, *item)?;
        writeln!(text, "{object}")?;
    }
    Ok(())
}

/// Adds the object of the names that are no calls of x86-64, if there are some.
fn add_others(text: &mut String, count: usize) -> Result<(), AllocError>
    ensures { OnOk result (string_bytes text.new ≡ string_bytes text.old ++ others_object count) }
{
    if count > 0 {
        writeln!(
            text,
            "{{\"place\":\"syscalls\",\"kind\":\"OtherNames\",\"severity\":\"note\",\"count\":{count},\
             \"text\":\"{}\"}}",
            OtherWords(count)
        )?;
    }
    Ok(())
}

/// Adds the object of the names of newer calls, if there are some.
fn add_newer(text: &mut String, count: usize, default: u32) -> Result<(), AllocError>
    ensures { OnOk result (string_bytes text.new ≡ string_bytes text.old ++ newer_object count default) }
{
    if count > 0 {
        writeln!(
            text,
            "{{\"place\":\"syscalls\",\"kind\":\"NewerNames\",\"severity\":\"warning\",\"count\":{count},\
             \"text\":\"{}\"}}",
            NewerWords(count, default)
        )?;
    }
    Ok(())
}

/// Adds the objects of the findings about the text.
fn add_text(
    alloc: Global,
    calls: CallTable,
    text: &mut String,
    passed: &[Passed<'_>],
    choice: Choice<'_>,
) -> Result<(), AllocError>
    ensures { OnOk result (string_bytes text.new ≡ string_bytes text.old
        ++ flat_map (told_line calls choice.entry.is_all choice.entry.allowed.now) (map told passed.now)) }
{
    for item in passed {
        add_passed(alloc, calls, text, item, choice)?;
    }
    Ok(())
}

/// Adds the objects of the findings about the profile.
fn add_profile(
    alloc: Global,
    calls: CallTable,
    text: &mut String,
    found: &[Finding],
    choice: Choice<'_>,
) -> Result<(), AllocError>
    ensures { OnOk result (string_bytes text.new ≡ string_bytes text.old
        ++ flat_map (found_line calls choice.entry.is_all choice.entry.allowed.now) found.now) }
{
    for finding in found {
        add_found(alloc, calls, text, finding, choice)?;
    }
    Ok(())
}

/// The content of [`lint_lines`](crate::lint_lines), as one JSON object per line:
/// `{"place":"syscalls[0].names[1]","kind":"UnknownName","severity":"error","value":"ptrce","near":"ptrace",..}`.
pub fn lint_objects(
    alloc: Global,
    calls: CallTable,
    passed: &[Passed<'_>],
    found: &[Finding],
    choice: Choice<'_>,
    default: u32,
) -> Result<String, AllocError>
    ensures { IfOk result (λ text. string_bytes text
        ≡ lint_objects calls choice.entry.is_all choice.entry.allowed.now default (map told passed.now) found.now) }
{
    let mut text = String::new(alloc);
    add_text(alloc, calls, &mut text, passed, choice)?;
    add_others(&mut text, counted(passed, Tally::Others, choice))?;
    add_newer(&mut text, counted(passed, Tally::Newer, choice), default)?;
    add_profile(alloc, calls, &mut text, found, choice)?;
    Ok(text)
}

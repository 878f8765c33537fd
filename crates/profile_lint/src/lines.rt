//! The lines of `lint`.
ghost use Rattle.std.specs.Prelude.{◌≡◌, ◌++◌, IfOk, OnOk, flat_map, map, string_bytes};
ghost use Rattle.profile_lint.specs.Passed.{told};
ghost use Rattle.profile_lint.specs.Text.{end_text, found_line, found_lines, lint_text, newer_line, others_line};
ghost use Rattle.profile_lint.specs.Text.{told_line, told_lines};

use crate::choice::{Choice, Tally, counted, is_shown};
use crate::finding::Finding;
use crate::kinds::{FindingKind, kind_of_found, kind_of_passed, severity_of};
use crate::passed::Passed;
use crate::words::{ShownFinding, ShownPassed};
use action::{Action, ValueText, Verdict};
use std::alloc::{AllocError, Global};
use std::fmt;
use sys_table::CallTable;

/// How many names are no calls of x86-64, if there are some.
#[derive(Clone, Copy)]
pub(crate) struct OtherWords(pub(crate) usize);

impl fmt::Display for OtherWords {
    ghost use Rattle.std.specs.Prelude.{Some};
    ghost use Rattle.profile_lint.specs.Text.{others_words};

    ghost output = { λ words. Some (others_words words.0) };

    fn fmt<W: fmt::Write>(&self, f: &mut fmt::Formatter<W>) -> fmt::Result {
        match self.0 {
            1 => f.write_str("1 name is not a call of x86-64 (--all prints it)"),
            count => write!(
                f,
                "{count} names are not calls of x86-64 (--all prints each)"
            ),
        }
    }
}

/// How many names are those of newer calls, and the value that these get.
#[derive(Clone, Copy)]
pub(crate) struct NewerWords(pub(crate) usize, pub(crate) u32);

impl fmt::Display for NewerWords {
    ghost use Rattle.std.specs.Prelude.{Some};
    ghost use Rattle.profile_lint.specs.Text.{newer_words};

    ghost output = { λ words. Some (newer_words words.0 words.1) };

    fn fmt<W: fmt::Write>(&self, f: &mut fmt::Formatter<W>) -> fmt::Result {
        let (value, end) = (ValueText(self.1), end_of(self.1));
        match self.0 {
            1 => write!(
                f,
                "1 call newer than the table gets {value}{end} (--all prints it)"
            ),
            count => write!(
                f,
                "{count} calls newer than the table get {value}{end} (--all prints each)"
            ),
        }
    }
}

/// That a program ends which gets the value, if it does.
fn end_of(value: u32) -> &'static str
    ensures { result.now ≡ end_text value }
{
    match Verdict::of_value(value).action {
        Action::KillProcess | Action::KillThread | Action::Trap => ", which ends the program",
        _ => "",
    }
}

/// Adds the line of a finding about the text, if it has one.
fn add_passed(
    text: &mut String,
    calls: CallTable,
    item: &Passed<'_>,
    choice: Choice<'_>,
) -> Result<(), AllocError>
    ensures { OnOk result (string_bytes text.new
        ≡ string_bytes text.old ++ told_line calls choice.entry.is_all choice.entry.allowed.now (told item.now)) }
{
    let kind = kind_of_passed(item);
    if is_shown(kind, choice) {
        let shown = ShownPassed(calls, item);
        writeln!(text, "{}: {shown}", severity_of(kind))?;
    }
    Ok(())
}

/// Adds the line of a finding about the profile, if it has one.
fn add_found(
    text: &mut String,
    calls: CallTable,
    item: &Finding,
    choice: Choice<'_>,
) -> Result<(), AllocError>
    ensures { OnOk result (string_bytes text.new
        ≡ string_bytes text.old ++ found_line calls choice.entry.is_all choice.entry.allowed.now item.now) }
{
    let kind = kind_of_found(item);
    if is_shown(kind, choice) {
        let shown = ShownFinding(calls, *item);
        writeln!(text, "{}: {shown}", severity_of(kind))?;
    }
    Ok(())
}

/// Adds the line of the names that are no calls of x86-64, if there are some.
fn add_others(text: &mut String, count: usize) -> Result<(), AllocError>
    ensures { OnOk result (string_bytes text.new ≡ string_bytes text.old ++ others_line count) }
{
    if count > 0 {
        writeln!(text, "note: syscalls: OtherNames: {}", OtherWords(count))?;
    }
    Ok(())
}

/// Adds the line of the names of newer calls, if there are some.
fn add_newer(text: &mut String, count: usize, default: u32) -> Result<(), AllocError>
    ensures { OnOk result (string_bytes text.new ≡ string_bytes text.old ++ newer_line count default) }
{
    if count > 0 {
        writeln!(
            text,
            "warning: syscalls: NewerNames: {}",
            NewerWords(count, default)
        )?;
    }
    Ok(())
}

/// Adds the lines of the findings about the text.
fn add_text(
    text: &mut String,
    calls: CallTable,
    passed: &[Passed<'_>],
    choice: Choice<'_>,
) -> Result<(), AllocError>
    ensures { OnOk result (string_bytes text.new ≡ string_bytes text.old
        ++ told_lines calls choice.entry.is_all choice.entry.allowed.now (map told passed.now)) }
{
    for item in passed {
        add_passed(text, calls, item, choice)?;
    }
    Ok(())
}

/// Adds the lines of the findings about the profile.
fn add_profile(
    text: &mut String,
    calls: CallTable,
    found: &[Finding],
    choice: Choice<'_>,
) -> Result<(), AllocError>
    ensures { OnOk result (string_bytes text.new ≡ string_bytes text.old
        ++ found_lines calls choice.entry.is_all choice.entry.allowed.now found.now) }
{
    for finding in found {
        add_found(text, calls, finding, choice)?;
    }
    Ok(())
}

/// A line for each finding that is chosen: those about a profile's text, then those about the profile. Names
/// that are only counted have a line together, with the value that all other calls get.
pub fn lint_lines(
    alloc: Global,
    calls: CallTable,
    passed: &[Passed<'_>],
    found: &[Finding],
    choice: Choice<'_>,
    default: u32,
) -> Result<String, AllocError>
    ensures { IfOk result (λ text. string_bytes text
        ≡ lint_text calls choice.entry.is_all choice.entry.allowed.now default (map told passed.now) found.now) }
{
    let mut text = String::new(alloc);
    add_text(&mut text, calls, passed, choice)?;
    add_others(&mut text, counted(passed, Tally::Others, choice))?;
    add_newer(&mut text, counted(passed, Tally::Newer, choice), default)?;
    add_profile(&mut text, calls, found, choice)?;
    Ok(text)
}

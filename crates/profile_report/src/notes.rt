//! The findings of `lint` beside the entries that they are about.
ghost use Rattle.std.specs.Prelude.{◌≡◌, ◌++◌, IfOk, map, string_bytes};
ghost use Rattle.profile_lint.specs.Passed.{told};
ghost use Rattle.profile_report.specs.Notes.{entry_of, found_about, found_line, found_lines, is_about};
ghost use Rattle.profile_report.specs.Notes.{items_html, list_html, notes_about, notes_html, passed_about, passed_line};
ghost use Rattle.profile_report.specs.Notes.{passed_lines};

use crate::escaping::Html;
use crate::more::More;
use crate::ways::first;
use profile_lint::{Finding, Holder, Passed, ShownFinding, ShownPassed};
use std::alloc::{AllocError, Global};
use sys_table::CallTable;

/// The first findings about an entry, or about none, and how many more there are.
pub(crate) fn notes_about(
    alloc: Global,
    calls: CallTable,
    count: usize,
    about: Option<usize>,
    passed: &[Passed<'_>],
    found: &[Finding],
) -> Result<String, AllocError>
    ensures { IfOk result (λ text. string_bytes text ≡ notes_about calls count about passed.now found.now) }
{
    let lines = lines_about(alloc, calls, about, passed, found)?;
    notes_html(alloc, count, lines.as_slice())
}

/// The lines of the findings about an entry, or about none.
fn lines_about(
    alloc: Global,
    calls: CallTable,
    about: Option<usize>,
    passed: &[Passed<'_>],
    found: &[Finding],
) -> Result<Vec<String>, AllocError>
    ensures { IfOk result (λ lines. map string_bytes lines.items
        ≡ passed_lines calls about passed.now ++ found_lines calls about found.now) }
{
    let mut lines = Vec::new(alloc);
    for item in passed {
        add_passed(alloc, calls, &mut lines, about, item)?;
    }
    for finding in found {
        add_found(alloc, calls, &mut lines, about, finding)?;
    }
    Ok(lines)
}

/// Adds the line of a finding about the text, if it is about this.
#[tactic(auto, unfolding(crate::specs::Notes::passed_line))]
fn add_passed(
    alloc: Global,
    calls: CallTable,
    lines: &mut Vec<String>,
    about: Option<usize>,
    item: &Passed<'_>,
) -> Result<(), AllocError>
    ensures { IfOk result (λ _. map string_bytes lines.new.items
        ≡ map string_bytes lines.old.items ++ passed_line calls about (told item.now)) }
{
    if is_about(passed_about(item), about) {
        let shown = ShownPassed(calls, item);
        lines.push(format!(in alloc; "{shown}")?)?;
    }
    Ok(())
}

/// Adds the line of a finding about the profile, if it is about this.
#[tactic(auto, unfolding(crate::specs::Notes::found_line))]
fn add_found(
    alloc: Global,
    calls: CallTable,
    lines: &mut Vec<String>,
    about: Option<usize>,
    finding: &Finding,
) -> Result<(), AllocError>
    ensures { IfOk result (λ _. map string_bytes lines.new.items
        ≡ map string_bytes lines.old.items ++ found_line calls about finding.now) }
{
    if is_about(found_about(finding), about) {
        let shown = ShownFinding(calls, *finding);
        lines.push(format!(in alloc; "{shown}")?)?;
    }
    Ok(())
}

/// The entry that a finding about the text is about.
fn passed_about(item: &Passed<'_>) -> Option<usize>
    ensures { result ≡ passed_about (told item.now) }
{
    match item {
        Passed::Ignored(holder, _) => entry_of(*holder),
        Passed::OtherArchitectures | Passed::UnknownArchitecture(_, _) => None,
        Passed::UnknownName(entry, _, _) | Passed::RepeatedName(entry, _, _) => Some(*entry),
    }
}

fn entry_of(holder: Holder) -> Option<usize>
    ensures { result ≡ entry_of holder }
{
    match holder {
        Holder::Profile => None,
        Holder::Entry(entry) | Holder::Arg(entry, _) => Some(entry),
    }
}

/// The entry that a finding about the profile is about, the first one of two that overlap.
fn found_about(finding: &Finding) -> Option<usize>
    ensures { result ≡ found_about finding.now }
{
    match finding {
        Finding::NeverDecides(place)
        | Finding::Redundant(place)
        | Finding::NotFoundOut(place)
        | Finding::NotLookedAt(place)
        | Finding::NotCompared(place)
        | Finding::EnginesDiffer(place, _, _)
        | Finding::Overlap(place, _, _) => Some(*place),
        Finding::NewerCalls(_) => None,
        Finding::Advised(advice) => advice.entry(),
    }
}

fn is_about(one: Option<usize>, other: Option<usize>) -> bool
    ensures { result ≡ is_about one other }
{
    match (one, other) {
        (None, None) => true,
        (Some(place), Some(other)) => place == other,
        _ => false,
    }
}

/// The first findings, and how many more there are; nothing if there is none.
#[tactic(auto, using(crate::proofs::Views::as_many), unfolding(crate::specs::Notes::notes_html))]
fn notes_html(alloc: Global, count: usize, lines: &[String]) -> Result<String, AllocError>
    ensures { IfOk result (λ text. string_bytes text ≡ notes_html count (map string_bytes lines.now)) }
{
    if lines.is_empty() {
        return Ok(String::new(alloc));
    }
    list_html(alloc, count, lines)
}

#[tactic(auto, using(crate::proofs::Views::as_many, crate::proofs::Views::first_seen), unfolding(crate::specs::Notes::list_html))]
fn list_html(alloc: Global, count: usize, lines: &[String]) -> Result<String, AllocError>
    ensures { IfOk result (λ text. string_bytes text ≡ list_html count (map string_bytes lines.now)) }
{
    let items = items_html(alloc, first(lines, count))?;
    let more = More {
        before: "<li>",
        count: lines.len().saturating_sub(count),
        after: " more, which <code>seccheck lint</code> prints</li>\n",
    };
    format!(in alloc; "<ul class=\"n\">\n{items}{more}</ul>\n")
}

fn items_html(alloc: Global, lines: &[String]) -> Result<String, AllocError>
    ensures { IfOk result (λ text. string_bytes text ≡ items_html (map string_bytes lines.now)) }
{
    let mut text = String::new(alloc);
    for line in lines {
        let html = Html {
            text: line.as_str(),
            room: 160,
        };
        write!(text, "<li>{html}</li>\n")?;
    }
    Ok(text)
}

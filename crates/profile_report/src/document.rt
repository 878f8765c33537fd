//! The page of a report.
ghost use Rattle.std.specs.Prelude.{◌≡◌, ◌++◌, IfOk, string_bytes};
ghost use Rattle.profile_report.specs.Page.{IsPage, calls_html, head_html, lower_part, marks, section_html};
ghost use Rattle.profile_report.specs.Page.{upper_part};

use crate::entries::entries_html;
use crate::escaping::Html;
use crate::grid::grid_html;
use crate::tallies::tallies_html;
use oci_profile::Profile;
use profile_lint::{Finding, Passed};
use profile_table::{Row, rows};
use seccheck_differences::Line;
use std::alloc::{AllocError, Global};
use std::fmt;
use sys_table::CallTable;

/// What a page is about.
#[derive(Clone, Copy)]
pub struct Report<'a> {
    /// The calls, each with a cell.
    pub calls: CallTable,
    /// The profile's name.
    pub name: &'a str,
    /// The profile.
    pub profile: &'a Profile,
    /// The findings about its text.
    pub passed: &'a [Passed<'a>],
    /// The findings about its entries.
    pub found: &'a [Finding],
    /// The lines of the calls on which it differs from an old profile.
    pub lines: &'a [Line],
}

/// The parts of a page that are made before it.
#[derive(Clone, Copy)]
pub struct Parts<'a> {
    /// The differences from an old profile, as `changes_html` makes them, or nothing.
    pub changes: &'a str,
    /// The tree of the profile's filter, as `tree_html` makes it.
    pub tree: &'a str,
    /// The denied calls, as `denials_html` makes them, or nothing.
    pub denied: &'a str,
}

/// The page in this style, with a cell for each call.
pub fn page(
    alloc: Global,
    style: &str,
    report: &Report<'_>,
    parts: &Parts<'_>,
) -> Result<String, AllocError>
    ensures { IfOk result (λ page. IsPage style.now report.now parts.now (string_bytes page)) }
{
    let rows = rows(alloc, report.calls, report.profile)?;
    let upper = upper_part(alloc, style, report, rows.as_slice(), parts)?;
    with_lower_part(alloc, upper.as_str(), report, parts)
}

/// The page whose upper part is this.
fn with_lower_part(
    alloc: Global,
    upper: &str,
    report: &Report<'_>,
    parts: &Parts<'_>,
) -> Result<String, AllocError>
    ensures { IfOk result (λ text. string_bytes text ≡ upper.now ++ lower_part report.now parts.now) }
{
    let lower = lower_part(alloc, report, parts)?;
    format!(in alloc; "{upper}{lower}")
}

/// The page down to the differences.
#[tactic(auto, unfolding(crate::specs::Page::upper_part))]
fn upper_part(
    alloc: Global,
    style: &str,
    report: &Report<'_>,
    rows: &[Row],
    parts: &Parts<'_>,
) -> Result<String, AllocError>
    ensures { IfOk result (λ text. string_bytes text ≡ upper_part style.now report.now rows.now parts.now) }
{
    let head = head_html(alloc, style, report.name)?;
    let cells = calls_html(alloc, report.calls, report.profile, report.lines, rows)?;
    let changes = parts.changes;
    format!(in alloc; "{head}{cells}{changes}")
}

/// The page from the entries on.
#[tactic(auto, unfolding(crate::specs::Page::lower_part))]
fn lower_part(alloc: Global, report: &Report<'_>, parts: &Parts<'_>) -> Result<String, AllocError>
    ensures { IfOk result (λ text. string_bytes text ≡ lower_part report.now parts.now) }
{
    let entries = section_html(
        alloc,
        report.calls,
        report.profile,
        report.passed,
        report.found,
    )?;
    let (tree, denied) = (parts.tree, parts.denied);
    format!(in alloc; "{entries}{tree}{denied}</main>\n</body>\n</html>\n")
}

/// The entries.
#[tactic(auto, unfolding(crate::specs::Page::section_html))]
fn section_html(
    alloc: Global,
    calls: CallTable,
    profile: &Profile,
    passed: &[Passed<'_>],
    found: &[Finding],
) -> Result<String, AllocError>
    ensures { IfOk result (λ text. string_bytes text ≡ section_html calls profile.now passed.now found.now) }
{
    let entries = entries_html(alloc, calls, profile, passed, found)?;
    format!(in alloc;
        "<section id=\"entries\"><h2>Entries</h2>\n<div class=\"e\">\n{entries}</div></section>\n"
    )
}

/// The head, up to the title of the page.
#[tactic(auto, unfolding(crate::specs::Page::head_html))]
fn head_html(alloc: Global, style: &str, name: &str) -> Result<String, AllocError>
    ensures { IfOk result (λ text. string_bytes text ≡ head_html style.now name.now) }
{
    let name = Html {
        text: name,
        room: 200,
    };
    format!(in alloc;
        "<!doctype html>\n<html lang=\"en\">\n<head>\n<meta charset=\"utf-8\">\n\
         <meta name=\"viewport\" content=\"width=device-width, initial-scale=1\">\n\
         <meta http-equiv=\"Content-Security-Policy\" \
         content=\"default-src 'none'; style-src 'unsafe-inline'\">\n\
         <title>seccomp profile {name}</title>\n<style>{style}</style>\n</head>\n<body>\n<header>\n\
         <h1>seccomp profile <code>{name}</code></h1>\n"
    )
}

/// The calls: how many have each action, what the marks mean, and the grid.
#[tactic(auto, unfolding(crate::specs::Page::calls_html))]
fn calls_html(
    alloc: Global,
    calls: CallTable,
    profile: &Profile,
    lines: &[Line],
    rows: &[Row],
) -> Result<String, AllocError>
    ensures { IfOk result (λ text. string_bytes text ≡ calls_html calls profile.now lines.now rows.now) }
{
    let head = CallsHead(rows.len(), profile.entries.as_slice().len());
    let tallies = tallies_html(alloc, rows)?;
    let marks = marks();
    let grid = grid_html(alloc, calls, profile, lines, rows)?;
    format!(in alloc; "{head}{tallies}{marks}{grid}</div></section>\n")
}

/// How many calls and entries there are.
#[derive(Clone, Copy)]
struct CallsHead(usize, usize);

impl fmt::Display for CallsHead {
    ghost use Rattle.std.specs.Prelude.{Some};
    ghost use Rattle.profile_report.specs.Page.{calls_head};

    ghost output = { λ head. Some (calls_head head.0 head.1) };

    #[tactic(auto, unfolding(crate::specs::Page::calls_head))]
    fn fmt<W: fmt::Write>(&self, f: &mut fmt::Formatter<W>) -> fmt::Result {
        let (calls, entries) = (self.0, self.1);
        write!(
            f,
            "<p>{calls} calls, {entries} entries. The first entry that names a call and whose conditions hold \
             decides it.</p>\n</header>\n<main>\n<section id=\"calls\"><h2>Calls</h2>\n<ul class=\"k\">\n"
        )
    }
}

/// What the marks mean.
#[tactic(auto, unfolding(crate::specs::Page::marks))]
fn marks() -> &'static str
    ensures { result.now ≡ marks }
{
    "</ul>\n<p>? and a dashed edge: entries with conditions may decide first. &ne; and a frame: differs \
     from the old profile. Open a cell for what decides.</p>\n<div class=\"g\">\n"
}

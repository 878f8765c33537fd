//! The grid: one cell for each call of the table.
ghost use Rattle.std.specs.Prelude.{◌≡◌, IfOk, string_bytes};
ghost use Rattle.profile_report.specs.Grid.{asked, conditional_class, conditional_mark, conditional_title, body_html, cell_html};
ghost use Rattle.profile_report.specs.Grid.{cells_html, changed_class, changed_mark, grid_html};

use crate::changes::{changes_at, is_changed};
use crate::ways::{shown_for, ways_html};
use crate::words::{Linked, letter_in};
use explain::Decided;
use oci_profile::Profile;
use profile_table::{Row, named};
use seccheck_differences::Line;
use std::alloc::{AllocError, Global};
use std::fmt;
use sys_table::CallTable;

/// A cell for each row, in order. A cell has the letter of the row's action and the call's name; opened, it
/// shows what decides, and what differs according to these lines.
#[tactic(auto, unfolding(crate::specs::Grid::grid_html))]
pub(crate) fn grid_html(
    alloc: Global,
    calls: CallTable,
    profile: &Profile,
    lines: &[Line],
    rows: &[Row],
) -> Result<String, AllocError>
    ensures { IfOk result (λ text. string_bytes text ≡ grid_html calls profile.now lines.now rows.now) }
{
    cells_html(alloc, calls, shown_for(asked(rows)), profile, lines, rows)
}

/// How many calls entries with conditions may decide.
fn asked(rows: &[Row]) -> usize
    ensures { result ≡ asked rows.now }
{
    let mut count = 0;
    for row in rows {
        if row.is_asked {
            count += 1;
        }
    }
    count
}

/// The cells of these rows, with at most this number of entries with conditions in each.
fn cells_html(
    alloc: Global,
    calls: CallTable,
    count: usize,
    profile: &Profile,
    lines: &[Line],
    rows: &[Row],
) -> Result<String, AllocError>
    ensures { IfOk result (λ text. string_bytes text ≡ cells_html calls count profile.now lines.now rows.now) }
{
    let mut text = String::new(alloc);
    for row in rows {
        let cell = cell_html(alloc, calls, count, profile, lines, row)?;
        text.push_str(cell.as_str())?;
    }
    Ok(text)
}

/// The cell of a row.
#[tactic(auto, unfolding(crate::specs::Grid::cell_html))]
fn cell_html(
    alloc: Global,
    calls: CallTable,
    count: usize,
    profile: &Profile,
    lines: &[Line],
    row: &Row,
) -> Result<String, AllocError>
    ensures { IfOk result (λ text. string_bytes text ≡ cell_html calls count profile.now lines.now row.now) }
{
    let head = Head(calls, *row, is_changed(row.nr, lines));
    let body = body_html(alloc, count, profile, row)?;
    let changes = changes_at(alloc, row.nr, lines)?;
    format!(in alloc; "{head}{body}{changes}</details>\n")
}

/// The number of a call, and what decides it.
#[tactic(auto, unfolding(crate::specs::Grid::body_html))]
fn body_html(
    alloc: Global,
    count: usize,
    profile: &Profile,
    row: &Row,
) -> Result<String, AllocError>
    ensures { IfOk result (λ text. string_bytes text ≡ body_html count profile.now row.now) }
{
    let (nr, linked) = (row.nr, Linked(row.value, row.decider));
    let ways = ways_html(alloc, count, row, profile.entries.as_slice())?;
    format!(in alloc; "<p>{nr}: {ways}{linked}</p>")
}

/// The closed cell of a row, with the name of one of these calls. Whether the call differs is marked.
#[derive(Clone, Copy)]
struct Head(CallTable, Row, bool);

impl fmt::Display for Head {
    ghost use Rattle.std.specs.Prelude.{Some};
    ghost use Rattle.profile_report.specs.Grid.{head_html};

    ghost output = { λ head. Some (head_html head.0 head.1 head.2) };

    #[tactic(auto, unfolding(crate::specs::Grid::head_html))]
    fn fmt<W: fmt::Write>(&self, f: &mut fmt::Formatter<W>) -> fmt::Result {
        let (calls, row, is_changed) = (self.0, self.1, self.2);
        let (letter, decided) = (letter_in(row.value), Decided(row.value, row.decider));
        let (asked, changed) = (conditional_class(row.is_asked), changed_class(is_changed));
        let (title, name) = (conditional_title(row.is_asked), named(calls, row.nr));
        let (asks, changes) = (conditional_mark(row.is_asked), changed_mark(is_changed));
        write!(
            f,
            "<details class=\"{letter}{asked}{changed}\"><summary title=\"{title}{decided}\">\
             <b>{letter}</b> {name}{asks}{changes}</summary>"
        )
    }
}

fn conditional_class(is_asked: bool) -> &'static str
    ensures { result.now ≡ conditional_class is_asked }
{
    if is_asked { " q" } else { "" }
}

fn changed_class(is_changed: bool) -> &'static str
    ensures { result.now ≡ changed_class is_changed }
{
    if is_changed { " d" } else { "" }
}

fn conditional_title(is_asked: bool) -> &'static str
    ensures { result.now ≡ conditional_title is_asked }
{
    if is_asked { "by conditions, else " } else { "" }
}

fn conditional_mark(is_asked: bool) -> &'static str
    ensures { result.now ≡ conditional_mark is_asked }
{
    if is_asked { "<i>?</i>" } else { "" }
}

fn changed_mark(is_changed: bool) -> &'static str
    ensures { result.now ≡ changed_mark is_changed }
{
    if is_changed { "<i>&ne;</i>" } else { "" }
}

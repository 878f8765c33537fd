//! The calls on which two profiles differ.
ghost use Rattle.std.specs.Prelude.{◌≡◌, [], IfOk, if◌then◌else◌, string_bytes};
ghost use Rattle.profile_report.specs.Changes.{change_at, change_html, change_items, changes_at, changes_html};
ghost use Rattle.profile_report.specs.Changes.{is_changed, is_on, is_part_of};

use crate::escaping::Html;
use crate::more::More;
use crate::ways::first;
use filter_differences::Part;
use seccheck_differences::{Line, LineText};
use std::alloc::{AllocError, Global};
use std::fmt;
use sys_table::CallTable;

/// How many differences are listed at most. Each cell shows its own in any case.
pub const SHOWN_CHANGES: usize = 32;

/// Whether a line is about the calls with this number alone.
fn is_on(nr: u32, line: &Line) -> bool
    ensures { result ≡ is_on nr line.now }
{
    match line {
        Line::Differs(part, _, _, _) => is_part_of(nr, *part),
        Line::Undecided(part, _) => is_part_of(nr, *part),
    }
}

fn is_part_of(nr: u32, part: Part) -> bool
    ensures { result ≡ is_part_of nr part }
{
    match part {
        Part::Numbers(low, high) => low == nr && high == nr,
        Part::Later | Part::X32 | Part::OtherArchitectures => false,
    }
}

/// Whether a line is about the calls with this number.
pub(crate) fn is_changed(nr: u32, lines: &[Line]) -> bool
    ensures { result ≡ is_changed nr lines.now }
{
    lines.iter().any(|line| is_on(nr, line))
}

/// What differs at the calls with this number.
pub(crate) fn changes_at(alloc: Global, nr: u32, lines: &[Line]) -> Result<String, AllocError>
    ensures { IfOk result (λ text. string_bytes text ≡ changes_at nr lines.now) }
{
    let mut text = String::new(alloc);
    for line in lines {
        write!(text, "{}", ChangeAt(nr, *line))?;
    }
    Ok(text)
}

/// What differs, if the line is about the calls with this number.
#[derive(Clone, Copy)]
struct ChangeAt(u32, Line);

impl fmt::Display for ChangeAt {
    ghost use Rattle.std.specs.Prelude.{Some};
    ghost use Rattle.profile_report.specs.Changes.{change_at};

    ghost output = { λ change. Some (change_at change.0 change.1) };

    #[tactic(auto, unfolding(crate::specs::Changes::change_at))]
    fn fmt<W: fmt::Write>(&self, f: &mut fmt::Formatter<W>) -> fmt::Result {
        if is_on(self.0, &self.1) {
            write!(f, "{}", Change(self.1))
        } else {
            Ok(())
        }
    }
}

/// Both decisions, that of the old profile first.
#[derive(Clone, Copy)]
struct Change(Line);

impl fmt::Display for Change {
    ghost use Rattle.std.specs.Prelude.{Some};
    ghost use Rattle.profile_report.specs.Changes.{change_html};

    ghost output = { λ change. Some (change_html change.0) };

    #[tactic(auto, unfolding(crate::specs::Changes::change_html))]
    fn fmt<W: fmt::Write>(&self, f: &mut fmt::Formatter<W>) -> fmt::Result {
        match self.0 {
            Line::Differs(_, _, one, other) => write!(f, "<p>was {one}, is {other}</p>"),
            Line::Undecided(_, _) => f.write_str(
                "<p>it was not found out whether this differs</p>",
            ),
        }
    }
}

/// The part of a page for the differences from an old profile with this name. Calls are named if they are of these
/// calls.
pub fn changes_html(
    alloc: Global,
    calls: CallTable,
    old: &str,
    lines: &[Line],
) -> Result<String, AllocError>
    ensures { IfOk result (λ text. string_bytes text ≡ changes_html calls old.now lines.now) }
{
    let head = ChangesHead(old, lines.len());
    let items = change_items(alloc, calls, first(lines, SHOWN_CHANGES))?;
    let more = More {
        before: "<li>",
        count: lines.len().saturating_sub(SHOWN_CHANGES),
        after: " more, which <code>seccheck table --against</code> prints</li>\n",
    };
    format!(in alloc; "{head}{items}{more}</ul></section>\n")
}

/// The old profile, and how many calls differ.
#[derive(Clone, Copy)]
struct ChangesHead<'a>(&'a str, usize);

impl fmt::Display for ChangesHead<'_> {
    ghost use Rattle.std.specs.Prelude.{Some};
    ghost use Rattle.profile_report.specs.Changes.{changes_head};

    ghost output = { λ head. Some (changes_head head.0.now head.1) };

    #[tactic(auto, unfolding(crate::specs::Changes::changes_head))]
    fn fmt<W: fmt::Write>(&self, f: &mut fmt::Formatter<W>) -> fmt::Result {
        let count = self.1;
        let old = Html {
            text: self.0,
            room: 200,
        };
        write!(
            f,
            "<section id=\"differences\"><h2>Differences from {old}</h2>\n<p>Calls that differ: {count}. \
             The first decision is the old one.</p>\n<ul>\n"
        )
    }
}

fn change_items(alloc: Global, calls: CallTable, lines: &[Line]) -> Result<String, AllocError>
    ensures { IfOk result (λ text. string_bytes text ≡ change_items calls lines.now) }
{
    let mut text = String::new(alloc);
    for line in lines {
        let line = LineText(calls, *line);
        write!(text, "<li>{line}</li>\n")?;
    }
    Ok(text)
}

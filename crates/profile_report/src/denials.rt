//! The denied calls of containers.
ghost use Rattle.std.specs.Prelude.{◌≡◌, IfOk, string_bytes};
ghost use Rattle.profile_report.specs.Denials.{cells_html, denials_html, first_lines, lines_html, table_head};
ghost use Rattle.profile_report.specs.Denials.{table_html, table_or};

use crate::escaping::Html;
use crate::more::More;
use crate::ways::first;
use std::alloc::{AllocError, Global};

/// How many denied calls are shown at most, the most denied first.
pub const SHOWN_DENIALS: usize = 16;

/// The part of a page for the denied calls of containers. A line has six cells: the pod, the container, the
/// call, its verdict, how often it was denied, and where first. `lines` has the most denied call first.
pub fn denials_html(alloc: Global, lines: &[Vec<String>]) -> Result<String, AllocError>
    ensures { IfOk result (λ text. string_bytes text ≡ denials_html lines.now) }
{
    let table = table_or(alloc, lines)?;
    format!(in alloc; "<section id=\"denied\"><h2>Denied calls</h2>\n{table}</section>\n")
}

/// The table, or that there is no line for it.
#[tactic(auto, unfolding(crate::specs::Denials::table_or))]
fn table_or(alloc: Global, lines: &[Vec<String>]) -> Result<String, AllocError>
    ensures { IfOk result (λ text. string_bytes text ≡ table_or lines.now) }
{
    if lines.is_empty() {
        return String::from_str(alloc, "<p>No call was denied.</p>\n");
    }
    table_html(alloc, lines)
}

/// The first lines as a table, and how many more there are.
#[tactic(auto, unfolding(crate::specs::Denials::table_html))]
fn table_html(alloc: Global, lines: &[Vec<String>]) -> Result<String, AllocError>
    ensures { IfOk result (λ text. string_bytes text ≡ table_html lines.now) }
{
    let shown = first_lines(alloc, lines)?;
    let more = More {
        before: "<p class=\"m\">",
        count: lines.len().saturating_sub(SHOWN_DENIALS),
        after: " more, which <code>seccheck denied</code> prints</p>\n",
    };
    format!(in alloc; "{shown}{more}")
}

#[tactic(auto, unfolding(crate::specs::Denials::first_lines))]
fn first_lines(alloc: Global, lines: &[Vec<String>]) -> Result<String, AllocError>
    ensures { IfOk result (λ text. string_bytes text ≡ first_lines lines.now) }
{
    let head = table_head();
    let shown = lines_html(alloc, first(lines, SHOWN_DENIALS))?;
    format!(in alloc; "{head}{shown}</tbody></table></div>\n")
}

#[tactic(auto, unfolding(crate::specs::Denials::table_head))]
fn table_head() -> &'static str
    ensures { result.now ≡ table_head }
{
    "<div class=\"s\" tabindex=\"0\"><table>\n<thead><tr><th scope=\"col\">pod</th>\
     <th scope=\"col\">container</th><th scope=\"col\">call</th><th scope=\"col\">verdict</th>\
     <th scope=\"col\">times</th><th scope=\"col\">first</th></tr></thead>\n<tbody>\n"
}

fn lines_html(alloc: Global, lines: &[Vec<String>]) -> Result<String, AllocError>
    ensures { IfOk result (λ text. string_bytes text ≡ lines_html lines.now) }
{
    let mut text = String::new(alloc);
    for line in lines {
        let cells = cells_html(alloc, line.as_slice())?;
        write!(text, "<tr>{cells}</tr>\n")?;
    }
    Ok(text)
}

fn cells_html(alloc: Global, cells: &[String]) -> Result<String, AllocError>
    ensures { IfOk result (λ text. string_bytes text ≡ cells_html cells.now) }
{
    let mut text = String::new(alloc);
    for cell in cells {
        let html = Html {
            text: cell.as_str(),
            room: 48,
        };
        write!(text, "<td>{html}</td>")?;
    }
    Ok(text)
}

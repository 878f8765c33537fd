//! The entries of a profile, each with the findings about it.
ghost use Rattle.std.specs.Prelude.{◌≡◌, IfOk, string_bytes};
ghost use Rattle.profile_report.specs.Entries.{default_html, entries_from, entries_html, entry_body};
ghost use Rattle.profile_report.specs.Entries.{entry_html, names_html};

use crate::more::More;
use crate::notes::notes_about;
use crate::ways::{first, shown_conds};
use crate::words::{SHOWN_ENTRIES, letter_in};
use action::ValueText;
use oci_profile::{Entry, Profile};
use profile_lint::{Finding, Passed};
use profile_table::{Count, names_text};
use std::alloc::{AllocError, Global};
use std::fmt;
use sys_table::CallTable;

/// How many names of an entry are shown at most.
pub const SHOWN_NAMES: usize = 12;

/// How many findings about an entry are shown at most.
pub const SHOWN_NOTES: usize = 2;

/// How many findings about no entry are shown at most.
pub const SHOWN_OTHERS: usize = 8;

/// The first entries, how many more there are, and the default.
#[tactic(auto, unfolding(crate::specs::Entries::entries_html))]
pub(crate) fn entries_html(
    alloc: Global,
    calls: CallTable,
    profile: &Profile,
    passed: &[Passed<'_>],
    found: &[Finding],
) -> Result<String, AllocError>
    ensures { IfOk result (λ text. string_bytes text ≡ entries_html calls profile.now passed.now found.now) }
{
    let entries = profile.entries.as_slice();
    let shown = entries_from(alloc, calls, passed, found, first(entries, SHOWN_ENTRIES))?;
    let more = More {
        before: "<p class=\"m\">",
        count: entries.len().saturating_sub(SHOWN_ENTRIES),
        after: " more entries, which <code>seccheck table</code> prints</p>\n",
    };
    let default = default_html(alloc, calls, profile.default.value(), passed, found)?;
    format!(in alloc; "{shown}{more}{default}")
}

fn entries_from(
    alloc: Global,
    calls: CallTable,
    passed: &[Passed<'_>],
    found: &[Finding],
    entries: &[Entry],
) -> Result<String, AllocError>
    ensures { IfOk result (λ text. string_bytes text ≡ entries_from calls passed.now found.now 0 entries.now) }
{
    let mut text = String::new(alloc);
    for (place, entry) in entries.iter().enumerate() {
        let html = entry_html(alloc, calls, passed, found, place, entry)?;
        text.push_str(html.as_str())?;
    }
    Ok(text)
}

/// An entry, with the findings about it.
#[tactic(auto, unfolding(crate::specs::Entries::entry_html))]
fn entry_html(
    alloc: Global,
    calls: CallTable,
    passed: &[Passed<'_>],
    found: &[Finding],
    place: usize,
    entry: &Entry,
) -> Result<String, AllocError>
    ensures { IfOk result (λ text. string_bytes text ≡ entry_html calls passed.now found.now place entry.now) }
{
    let head = EntryHead(place, entry.decision.value());
    let body = entry_body(alloc, calls, entry)?;
    let notes = notes_about(alloc, calls, SHOWN_NOTES, Some(place), passed, found)?;
    format!(in alloc; "{head}{body}{notes}</section>\n")
}

/// All conditions of an entry, and its calls.
#[tactic(auto, unfolding(crate::specs::Entries::entry_body))]
fn entry_body(alloc: Global, calls: CallTable, entry: &Entry) -> Result<String, AllocError>
    ensures { IfOk result (λ text. string_bytes text ≡ entry_body calls entry.now) }
{
    let conds = shown_conds(alloc, entry.conds.as_slice(), 6)?;
    let names = names_html(alloc, calls, entry.numbers.as_slice())?;
    format!(in alloc; "{conds}</p>\n<p>{names}</p>\n")
}

/// The head of the entry at this place, and its decision.
#[derive(Clone, Copy)]
struct EntryHead(usize, u32);

impl fmt::Display for EntryHead {
    ghost use Rattle.std.specs.Prelude.{Some};
    ghost use Rattle.profile_report.specs.Entries.{entry_head};

    ghost output = { λ head. Some (entry_head head.0 head.1) };

    #[tactic(auto, unfolding(crate::specs::Entries::entry_head))]
    fn fmt<W: fmt::Write>(&self, f: &mut fmt::Formatter<W>) -> fmt::Result {
        let place = self.0;
        let (letter, decision) = (letter_in(self.1), ValueText(self.1));
        write!(
            f,
            "<section class=\"{letter}\" id=\"e{place}\"><h3><b>{letter}</b> syscalls[{place}]</h3>\n<p>{decision}"
        )
    }
}

/// The default, with the findings that are about no entry.
#[tactic(auto, unfolding(crate::specs::Entries::default_html))]
fn default_html(
    alloc: Global,
    calls: CallTable,
    value: u32,
    passed: &[Passed<'_>],
    found: &[Finding],
) -> Result<String, AllocError>
    ensures { IfOk result (λ text. string_bytes text ≡ default_html calls value passed.now found.now) }
{
    let head = DefaultHead(value);
    let notes = notes_about(alloc, calls, SHOWN_OTHERS, None, passed, found)?;
    format!(in alloc; "{head}{notes}</section>\n")
}

/// The head of the default, and its decision.
#[derive(Clone, Copy)]
struct DefaultHead(u32);

impl fmt::Display for DefaultHead {
    ghost use Rattle.std.specs.Prelude.{Some};
    ghost use Rattle.profile_report.specs.Entries.{default_head};

    ghost output = { λ head. Some (default_head head.0) };

    #[tactic(auto, unfolding(crate::specs::Entries::default_head))]
    fn fmt<W: fmt::Write>(&self, f: &mut fmt::Formatter<W>) -> fmt::Result {
        let (letter, decision) = (letter_in(self.0), ValueText(self.0));
        write!(
            f,
            "<section class=\"{letter}\" id=\"default\"><h3><b>{letter}</b> defaultAction</h3>\n<p>{decision}</p>\n\
             <p>every call that no entry decides</p>\n"
        )
    }
}

/// How many calls an entry names, and the first ones.
#[tactic(auto, unfolding(crate::specs::Entries::names_html))]
fn names_html(alloc: Global, calls: CallTable, numbers: &[u32]) -> Result<String, AllocError>
    ensures { IfOk result (λ text. string_bytes text ≡ names_html calls numbers.now) }
{
    let count = Count(numbers.len());
    let names = names_text(alloc, calls, first(numbers, SHOWN_NAMES))?;
    let more = More {
        before: " and ",
        count: numbers.len().saturating_sub(SHOWN_NAMES),
        after: " more",
    };
    format!(in alloc; "{count}{names}{more}")
}

ghost use Rattle.std.specs.Prelude.{◌≡◌, [], ◌∷◌, IfOk, if◌then◌else◌, string_bytes};
ghost use Rattle.call_names.specs.declared.naming.Naming.TheVariants.{Name};
ghost use Rattle.profile_table.specs.Text.{asked_lines, asked_text, conds_text, entry_lines, group_text};
ghost use Rattle.profile_table.specs.Text.{is_before, is_same, names_text, number_in, numbers_in};
ghost use Rattle.profile_table.specs.Text.{table_text, way_at, way_text, ways_text};

use crate::conditions::Words;
use crate::row::Row;
use call_names::{CallWord, Naming};
use explain::{Decided, Decider};
use oci_profile::{Cond, Entry, Profile};
use std::alloc::{AllocError, Global};
use std::fmt;
use sys_table::CallTable;

/// The lines of a table, each with its end: `ALLOW 0 by syscalls[0], 2 calls: read, write`, and then
/// `socket: ALLOW 0 by syscalls[1] if args[0] != 40, else ERRNO 1 by defaultAction`.
pub fn table_lines(
    alloc: Global,
    calls: CallTable,
    profile: &Profile,
    rows: &[Row],
) -> Result<String, AllocError>
    ensures { IfOk result (λ text. string_bytes text ≡ table_text calls profile.now rows.now) }
{
    let groups = entry_lines(alloc, calls, rows, profile.entries.as_slice())?;
    let default = group(
        alloc,
        calls,
        profile.default.value(),
        Decider::Default,
        rows,
    )?;
    let asked = asked_lines(alloc, calls, profile, rows)?;
    format!(in alloc; "{groups}{default}{asked}")
}

/// A line for each entry that decides all calls with some numbers.
fn entry_lines(
    alloc: Global,
    calls: CallTable,
    rows: &[Row],
    entries: &[Entry],
) -> Result<String, AllocError>
    ensures { IfOk result (λ text. string_bytes text ≡ entry_lines calls rows.now 0 entries.now) }
{
    let mut text = String::new(alloc);
    for (place, entry) in entries.iter().enumerate() {
        let line = group(
            alloc,
            calls,
            entry.decision.value(),
            Decider::Entry(place),
            rows,
        )?;
        text.push_str(line.as_str())?;
    }
    Ok(text)
}

/// The line of the calls that are all decided by this, if there are some.
fn group(
    alloc: Global,
    calls: CallTable,
    value: u32,
    decider: Decider,
    rows: &[Row],
) -> Result<String, AllocError>
    ensures { IfOk result (λ text. string_bytes text
        ≡ group_text calls value decider (numbers_in decider rows.now)) }
{
    let numbers = numbers_in(alloc, decider, rows)?;
    group_line(alloc, calls, value, decider, numbers.as_slice())
}

/// The line of these calls, if there are some.
fn group_line(
    alloc: Global,
    calls: CallTable,
    value: u32,
    decider: Decider,
    numbers: &[u32],
) -> Result<String, AllocError>
    ensures { IfOk result (λ text. string_bytes text ≡ group_text calls value decider numbers.now) }
{
    if numbers.is_empty() {
        return Ok(String::new(alloc));
    }
    let (decided, count) = (Decided(value, decider), Count(numbers.len()));
    let names = names_text(alloc, calls, numbers)?;
    format!(in alloc; "{decided}, {count}{names}\n")
}

/// The numbers of the calls that are all decided by this.
pub(crate) fn numbers_in(
    alloc: Global,
    decider: Decider,
    rows: &[Row],
) -> Result<Vec<u32>, AllocError>
    ensures { IfOk result (λ numbers. numbers.items ≡ numbers_in decider rows.now) }
{
    let mut numbers = Vec::new(alloc);
    for row in rows {
        if is_in(decider, row) {
            numbers.push(row.nr)?;
        }
    }
    Ok(numbers)
}

/// Whether the row's calls are all decided by this.
#[tactic(auto, unfolding(crate::specs::Text::number_in))]
fn is_in(decider: Decider, row: &Row) -> bool
    ensures { number_in decider row.now ≡ (if result then row.now.nr ∷ [] else []) }
{
    !row.is_asked && is_same(row.decider, decider)
}

fn is_same(one: Decider, other: Decider) -> bool
    ensures { result ≡ is_same one other }
{
    match (one, other) {
        (Decider::Architecture, Decider::Architecture) => true,
        (Decider::X32Bit, Decider::X32Bit) => true,
        (Decider::Entry(place), Decider::Entry(other)) => place == other,
        (Decider::Default, Decider::Default) => true,
        _ => false,
    }
}

/// A line for each call that entries with conditions may decide.
fn asked_lines(
    alloc: Global,
    calls: CallTable,
    profile: &Profile,
    rows: &[Row],
) -> Result<String, AllocError>
    ensures { IfOk result (λ text. string_bytes text ≡ asked_lines calls profile.now rows.now) }
{
    let mut text = String::new(alloc);
    for row in rows {
        let line = asked_line(alloc, calls, profile, row)?;
        text.push_str(line.as_str())?;
    }
    Ok(text)
}

/// The line of a row, if entries with conditions may decide.
#[tactic(auto, unfolding(crate::specs::Text::asked_text))]
fn asked_line(
    alloc: Global,
    calls: CallTable,
    profile: &Profile,
    row: &Row,
) -> Result<String, AllocError>
    ensures { IfOk result (λ text. string_bytes text ≡ asked_text calls profile.now row.now) }
{
    if !row.is_asked {
        return Ok(String::new(alloc));
    }
    let (call, decided) = (named(calls, row.nr), Decided(row.value, row.decider));
    let ways = ways_text(alloc, row, profile.entries.as_slice())?;
    format!(in alloc; "{call}: {ways}{decided}\n")
}

/// The entries before the one that decides that name the number, each with its conditions.
fn ways_text(alloc: Global, row: &Row, entries: &[Entry]) -> Result<String, AllocError>
    ensures { IfOk result (λ text. string_bytes text ≡ ways_text row.now 0 entries.now) }
{
    let mut text = String::new(alloc);
    for (place, entry) in entries.iter().enumerate() {
        let way = way_at(alloc, row, place, entry)?;
        text.push_str(way.as_str())?;
    }
    Ok(text)
}

/// The text for the entry at this place, if it comes before the one that decides and names the number.
#[tactic(auto, unfolding(crate::specs::Text::way_at))]
fn way_at(alloc: Global, row: &Row, place: usize, entry: &Entry) -> Result<String, AllocError>
    ensures { IfOk result (λ text. string_bytes text ≡ way_at row.now place entry.now) }
{
    if is_before(place, row.decider) && entry.names(row.nr) {
        way_text(alloc, place, entry)
    } else {
        Ok(String::new(alloc))
    }
}

/// Whether the entry at this place comes before the one that decides.
pub fn is_before(place: usize, decider: Decider) -> bool
    ensures { result ≡ is_before place decider }
{
    match decider {
        Decider::Architecture | Decider::X32Bit => false,
        Decider::Entry(end) => place < end,
        Decider::Default => true,
    }
}

/// An entry that decides if its conditions hold.
fn way_text(alloc: Global, place: usize, entry: &Entry) -> Result<String, AllocError>
    ensures { IfOk result (λ text. string_bytes text ≡ way_text place entry.now) }
{
    let decided = Decided(entry.decision.value(), Decider::Entry(place));
    let conds = conds_text(alloc, entry.conds.as_slice())?;
    format!(in alloc; "{decided}{conds}, else ")
}

/// ` if args[0] != 40 and args[1] == 1`.
fn conds_text(alloc: Global, conds: &[Cond]) -> Result<String, AllocError>
    ensures { IfOk result (λ text. string_bytes text ≡ conds_text 0 conds.now) }
{
    let mut text = String::new(alloc);
    for (place, cond) in conds.iter().enumerate() {
        let (word, words) = (CondWord(place), Words(*cond));
        write!(text, "{word}{words}")?;
    }
    Ok(text)
}

/// The names of calls, a word before each: `: read, write`.
pub fn names_text(alloc: Global, calls: CallTable, numbers: &[u32]) -> Result<String, AllocError>
    ensures { IfOk result (λ text. string_bytes text ≡ names_text calls 0 numbers.now) }
{
    let mut text = String::new(alloc);
    for (place, nr) in numbers.iter().enumerate() {
        let (word, name) = (NameWord(place), named(calls, *nr));
        write!(text, "{word}{name}")?;
    }
    Ok(text)
}

/// The name of a call, or its number if it has none.
pub fn named(calls: CallTable, nr: u32) -> CallWord
    ensures number { result.nr ≡ nr }
    ensures naming { result.naming ≡ Name calls }
{
    CallWord {
        nr,
        naming: Naming::Name(calls),
    }
}

/// How many calls: `1 call`, `2 calls`.
#[derive(Clone, Copy)]
pub struct Count(pub usize);

impl fmt::Display for Count {
    ghost use Rattle.std.specs.Prelude.{Some};
    ghost use Rattle.profile_table.specs.Text.{count_text};

    ghost output = { λ count. Some (count_text count.0) };

    #[tactic(auto, unfolding(crate::specs::Text::count_text))]
    fn fmt<W: fmt::Write>(&self, f: &mut fmt::Formatter<W>) -> fmt::Result {
        let count = self.0;
        if count == 1 {
            f.write_str("1 call")
        } else {
            write!(f, "{count} calls")
        }
    }
}

/// The word before the condition at this place: ` if `, ` and `.
#[derive(Clone, Copy)]
pub struct CondWord(pub usize);

impl fmt::Display for CondWord {
    ghost use Rattle.std.specs.Prelude.{Some};
    ghost use Rattle.profile_table.specs.Text.{cond_word};

    ghost output = { λ word. Some (cond_word word.0) };

    #[tactic(auto, unfolding(crate::specs::Text::cond_word))]
    fn fmt<W: fmt::Write>(&self, f: &mut fmt::Formatter<W>) -> fmt::Result {
        if self.0 == 0 {
            f.write_str(" if ")
        } else {
            f.write_str(" and ")
        }
    }
}

/// The word before the name at this place.
#[derive(Clone, Copy)]
struct NameWord(usize);

impl fmt::Display for NameWord {
    ghost use Rattle.std.specs.Prelude.{Some};
    ghost use Rattle.profile_table.specs.Text.{name_word};

    ghost output = { λ word. Some (name_word word.0) };

    #[tactic(auto, unfolding(crate::specs::Text::name_word))]
    fn fmt<W: fmt::Write>(&self, f: &mut fmt::Formatter<W>) -> fmt::Result {
        if self.0 == 0 {
            f.write_str(": ")
        } else {
            f.write_str(", ")
        }
    }
}

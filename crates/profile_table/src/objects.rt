//! A table as JSON objects (RFC 8259). No text of these has a byte that JSON would escape.
ghost use Rattle.std.specs.Prelude.{◌≡◌, IfOk, string_bytes};
ghost use Rattle.profile_table.specs.Objects.{asked_object, asked_objects, conds_items, entry_objects};
ghost use Rattle.profile_table.specs.Objects.{group_object, names_items, table_objects, way_object};
ghost use Rattle.profile_table.specs.Objects.{way_object_at, ways_objects};
ghost use Rattle.profile_table.specs.Text.{numbers_in};

use crate::conditions::Words;
use crate::row::Row;
use crate::texts::{is_before, named, numbers_in};
use explain::{DecidedMembers, Decider};
use oci_profile::{Cond, Entry, Profile};
use std::alloc::{AllocError, Global};
use std::fmt;
use sys_table::CallTable;

/// The lines of a table as objects: `{"action":"ALLOW","data":0,"by":"syscalls[0]","calls":["read"]}`. A call
/// that entries with conditions may decide has `{"call":"socket","ways":[..]}`.
pub fn table_objects(
    alloc: Global,
    calls: CallTable,
    profile: &Profile,
    rows: &[Row],
) -> Result<String, AllocError>
    ensures { IfOk result (λ text. string_bytes text ≡ table_objects calls profile.now rows.now) }
{
    let groups = entry_objects(alloc, calls, rows, profile.entries.as_slice())?;
    let default = group(
        alloc,
        calls,
        profile.default.value(),
        Decider::Default,
        rows,
    )?;
    let asked = asked_objects(alloc, calls, profile, rows)?;
    format!(in alloc; "{groups}{default}{asked}")
}

/// An object for each entry that decides all calls with some numbers.
fn entry_objects(
    alloc: Global,
    calls: CallTable,
    rows: &[Row],
    entries: &[Entry],
) -> Result<String, AllocError>
    ensures { IfOk result (λ text. string_bytes text ≡ entry_objects calls rows.now 0 entries.now) }
{
    let mut text = String::new(alloc);
    for (place, entry) in entries.iter().enumerate() {
        let object = group(
            alloc,
            calls,
            entry.decision.value(),
            Decider::Entry(place),
            rows,
        )?;
        text.push_str(object.as_str())?;
    }
    Ok(text)
}

/// The object of the calls that are all decided by this, if there are some.
fn group(
    alloc: Global,
    calls: CallTable,
    value: u32,
    decider: Decider,
    rows: &[Row],
) -> Result<String, AllocError>
    ensures { IfOk result (λ text. string_bytes text
        ≡ group_object calls value decider (numbers_in decider rows.now)) }
{
    let numbers = numbers_in(alloc, decider, rows)?;
    group_object(alloc, calls, value, decider, numbers.as_slice())
}

/// The object of these calls, if there are some.
fn group_object(
    alloc: Global,
    calls: CallTable,
    value: u32,
    decider: Decider,
    numbers: &[u32],
) -> Result<String, AllocError>
    ensures { IfOk result (λ text. string_bytes text ≡ group_object calls value decider numbers.now) }
{
    if numbers.is_empty() {
        return Ok(String::new(alloc));
    }
    let members = DecidedMembers(value, decider);
    let names = names_items(alloc, calls, numbers)?;
    format!(in alloc; "{{{members},\"calls\":[{names}]}}\n")
}

/// An object for each call that entries with conditions may decide.
fn asked_objects(
    alloc: Global,
    calls: CallTable,
    profile: &Profile,
    rows: &[Row],
) -> Result<String, AllocError>
    ensures { IfOk result (λ text. string_bytes text ≡ asked_objects calls profile.now rows.now) }
{
    let mut text = String::new(alloc);
    for row in rows {
        let object = asked_object(alloc, calls, profile, row)?;
        text.push_str(object.as_str())?;
    }
    Ok(text)
}

/// The object of a row, if entries with conditions may decide.
#[tactic(auto, unfolding(crate::specs::Objects::asked_object))]
fn asked_object(
    alloc: Global,
    calls: CallTable,
    profile: &Profile,
    row: &Row,
) -> Result<String, AllocError>
    ensures { IfOk result (λ text. string_bytes text ≡ asked_object calls profile.now row.now) }
{
    if !row.is_asked {
        return Ok(String::new(alloc));
    }
    let (call, members) = (named(calls, row.nr), DecidedMembers(row.value, row.decider));
    let ways = ways_objects(alloc, row, profile.entries.as_slice())?;
    format!(in alloc; "{{\"call\":\"{call}\",\"ways\":[{ways}{{{members}}}]}}\n")
}

/// The entries before the one that decides that name the number, each with its conditions.
fn ways_objects(alloc: Global, row: &Row, entries: &[Entry]) -> Result<String, AllocError>
    ensures { IfOk result (λ text. string_bytes text ≡ ways_objects row.now 0 entries.now) }
{
    let mut text = String::new(alloc);
    for (place, entry) in entries.iter().enumerate() {
        let way = way_object_at(alloc, row, place, entry)?;
        text.push_str(way.as_str())?;
    }
    Ok(text)
}

/// The object for the entry at this place, if it comes before the one that decides and names the number.
#[tactic(auto, unfolding(crate::specs::Objects::way_object_at))]
fn way_object_at(
    alloc: Global,
    row: &Row,
    place: usize,
    entry: &Entry,
) -> Result<String, AllocError>
    ensures { IfOk result (λ text. string_bytes text ≡ way_object_at row.now place entry.now) }
{
    if is_before(place, row.decider) && entry.names(row.nr) {
        way_object(alloc, place, entry)
    } else {
        Ok(String::new(alloc))
    }
}

/// An entry that decides if its conditions hold.
fn way_object(alloc: Global, place: usize, entry: &Entry) -> Result<String, AllocError>
    ensures { IfOk result (λ text. string_bytes text ≡ way_object place entry.now) }
{
    let members = DecidedMembers(entry.decision.value(), Decider::Entry(place));
    let conds = conds_items(alloc, entry.conds.as_slice())?;
    format!(in alloc; "{{{members},\"if\":[{conds}]}},")
}

/// `"args[0] != 40","args[1] == 1"`.
fn conds_items(alloc: Global, conds: &[Cond]) -> Result<String, AllocError>
    ensures { IfOk result (λ text. string_bytes text ≡ conds_items 0 conds.now) }
{
    let mut text = String::new(alloc);
    for (place, cond) in conds.iter().enumerate() {
        let (comma, words) = (Comma(place), Words(*cond));
        write!(text, "{comma}\"{words}\"")?;
    }
    Ok(text)
}

/// `"read","write"`.
fn names_items(alloc: Global, calls: CallTable, numbers: &[u32]) -> Result<String, AllocError>
    ensures { IfOk result (λ text. string_bytes text ≡ names_items calls 0 numbers.now) }
{
    let mut text = String::new(alloc);
    for (place, nr) in numbers.iter().enumerate() {
        let (comma, name) = (Comma(place), named(calls, *nr));
        write!(text, "{comma}\"{name}\"")?;
    }
    Ok(text)
}

/// The comma before the item at this place.
#[derive(Clone, Copy)]
struct Comma(usize);

impl fmt::Display for Comma {
    ghost use Rattle.std.specs.Prelude.{Some};
    ghost use Rattle.profile_table.specs.Objects.{comma};

    ghost output = { λ item. Some (comma item.0) };

    #[tactic(auto, unfolding(crate::specs::Objects::comma))]
    fn fmt<W: fmt::Write>(&self, f: &mut fmt::Formatter<W>) -> fmt::Result {
        if self.0 == 0 {
            Ok(())
        } else {
            f.write_str(",")
        }
    }
}

//! The place of a fault and the value there, as members of an object of JSON (RFC 8259).
ghost use Rattle.std.specs.Prelude.{◌≡◌, ◌++◌, IfOk, codes, string_bytes};
ghost use Rattle.serde_json.specs.Data.{string};
ghost use Rattle.serde_json.specs.Written.{compact_text};
ghost use Rattle.fault_notes.specs.Members.{AreMembers, ArePlaced, IsValue};
ghost use Rattle.fault_notes.specs.Notes.{IsShownAt};

use crate::named::{Kind, Named, kind_of};
use crate::places::shown_at;
use crate::texts::{Spot, spot_in};
use json_place::{Place, Shown};
use json_tree::TextFault;
use serde_json::Value;
use std::alloc::{AllocError, Global};
use std::fmt;

/// The members after others on a text that is refused for this fault at this place:
/// `,"place":"syscalls[1].names[2]","value":"ptrce"`.
pub fn fault_members(
    alloc: Global,
    bytes: &[u8],
    fault: Named,
    place: &Place,
) -> Result<String, AllocError>
    ensures { IfOk result (λ text. AreMembers bytes.now fault place.now (string_bytes text)) }
{
    match kind_of(fault) {
        Kind::NoJson => format!(in alloc; "{}", SpotMembers(spot_in(alloc, bytes))),
        Kind::TooLarge => Ok(String::new(alloc)),
        Kind::Placed => placed_members(alloc, bytes, place),
    }
}

/// Where a text stops being JSON, if the parser has a position.
#[derive(Clone, Copy)]
struct SpotMembers(Spot);

impl fmt::Display for SpotMembers {
    ghost use Rattle.std.specs.Prelude.{Some};
    ghost use Rattle.fault_notes.specs.Members.{spot_members};

    ghost output = { λ spot. Some (spot_members spot.0) };

    fn fmt<W: fmt::Write>(&self, f: &mut fmt::Formatter<W>) -> fmt::Result {
        match self.0 {
            Spot::Whole => Ok(()),
            Spot::At(line, column) => write!(f, ",\"line\":{line},\"column\":{column}"),
        }
    }
}

// Parses the text again for the value there.
fn placed_members(alloc: Global, bytes: &[u8], place: &Place) -> Result<String, AllocError>
    ensures { IfOk result (λ text. IsShownAt bytes.now place.now (ArePlaced place.now) (string_bytes text)) }
{
    match json_tree::read(alloc, bytes) {
        Ok(tree) => members_at(alloc, place, shown_at(&tree, place)),
        Err(TextFault::NotJson) => members_at(alloc, place, None),
        Err(TextFault::Memory) => Err(AllocError),
    }
}

fn members_at(alloc: Global, place: &Place, shown: Option<Shown<'_>>) -> Result<String, AllocError>
    ensures { IfOk result (λ text. ArePlaced place.now shown.entry (string_bytes text)) }
{
    let value = value_member(alloc, shown)?;
    format!(in alloc; ",\"place\":\"{place}\"{}", value.as_str())
}

fn value_member(alloc: Global, shown: Option<Shown<'_>>) -> Result<String, AllocError>
    ensures { IfOk result (λ text. IsValue shown.entry (string_bytes text)) }
{
    match shown {
        Some(Shown::Text(text)) => text_member(alloc, text),
        Some(Shown::Whole(number)) => format!(in alloc; ",\"value\":{number}"),
        Some(Shown::Other(number)) => format!(in alloc; ",\"value\":{number}"),
        None => Ok(String::new(alloc)),
    }
}

fn text_member(alloc: Global, text: &str) -> Result<String, AllocError>
    ensures { IfOk result (λ member. string_bytes member
        ≡ codes ",\"value\":" ++ compact_text (string text.now)) }
{
    let quoted = Value::String(String::from_str(alloc, text)?).to_string(alloc)?;
    format!(in alloc; ",\"value\":{}", quoted.as_str())
}

//! The entries with conditions in the cell of a call.
ghost use Rattle.std.specs.Prelude.{◌≡◌, [], ◌∷◌, IfOk, if◌then◌else◌, slice_get, string_bytes};
ghost use Rattle.profile_report.specs.Ways.{asking, asking_at, cond_html, conds_html, first, shown_conds, shown_for};
ghost use Rattle.profile_report.specs.Ways.{way_html, way_or, ways_at, ways_html};

use crate::escaping::Html;
use crate::more::More;
use crate::words::Linked;
use explain::Decider;
use oci_profile::{Cond, Entry};
use profile_table::{CondWord, Row, Words, is_before};
use std::alloc::{AllocError, Global};

/// If at most this number of calls have entries with conditions, their cells have room for more of them.
pub const FEW_ASKED: usize = 24;

/// How many entries with conditions a cell shows at most, and how many conditions of each.
pub const SHOWN_OF_FEW: usize = 5;

/// The same if more calls have entries with conditions.
pub const SHOWN_OF_MANY: usize = 1;

/// How many entries with conditions a cell shows, and how many conditions of each, if this many calls have
/// any.
#[tactic(auto, unfolding(crate::specs::Ways::shown_for))]
pub(crate) fn shown_for(calls: usize) -> usize
    ensures { result ≡ shown_for calls }
{
    if calls <= FEW_ASKED {
        SHOWN_OF_FEW
    } else {
        SHOWN_OF_MANY
    }
}

/// The first items of a list, at most this many.
pub(crate) fn first<T>(items: &[T], count: usize) -> &[T]
    ensures { result.now ≡ first count items.now }
{
    &items[..items.len().min(count)]
}

/// The entries that are tried before the one that decides, the first ones with their conditions.
pub(crate) fn ways_html(
    alloc: Global,
    count: usize,
    row: &Row,
    entries: &[Entry],
) -> Result<String, AllocError>
    ensures { IfOk result (λ text. string_bytes text
        ≡ ways_html count entries.now (asking row.now 0 entries.now)) }
{
    let places = asking(alloc, row, entries)?;
    let shown = ways_at(alloc, count, entries, first(places.as_slice(), count))?;
    let more = More {
        before: "by ",
        count: places.len().saturating_sub(count),
        after: " more with conditions, else ",
    };
    format!(in alloc; "{shown}{more}")
}

/// The places of the entries that are tried before the one that decides.
fn asking(alloc: Global, row: &Row, entries: &[Entry]) -> Result<Vec<usize>, AllocError>
    ensures { IfOk result (λ places. places.items ≡ asking row.now 0 entries.now) }
{
    let mut places = Vec::new(alloc);
    for (place, entry) in entries.iter().enumerate() {
        if is_asked(row, place, entry) {
            places.push(place)?;
        }
    }
    Ok(places)
}

/// Whether the entry at this place comes before the one that decides, and names the number.
#[tactic(auto, unfolding(crate::specs::Ways::asking_at))]
fn is_asked(row: &Row, place: usize, entry: &Entry) -> bool
    ensures { asking_at row.now place entry.now ≡ (if result then place ∷ [] else []) }
{
    is_before(place, row.decider) && entry.names(row.nr)
}

/// The entries at these places.
fn ways_at(
    alloc: Global,
    count: usize,
    entries: &[Entry],
    places: &[usize],
) -> Result<String, AllocError>
    ensures { IfOk result (λ text. string_bytes text ≡ ways_at count entries.now places.now) }
{
    let mut text = String::new(alloc);
    for place in places {
        let way = way_at(alloc, count, entries, *place)?;
        text.push_str(way.as_str())?;
    }
    Ok(text)
}

/// The entry at this place.
fn way_at(
    alloc: Global,
    count: usize,
    entries: &[Entry],
    place: usize,
) -> Result<String, AllocError>
    ensures { IfOk result (λ text. string_bytes text ≡ way_or count place (slice_get entries.now place)) }
{
    match entries.get(place) {
        Some(entry) => way_html(alloc, count, place, entry),
        None => Ok(String::new(alloc)),
    }
}

/// An entry that decides if its conditions hold.
fn way_html(alloc: Global, count: usize, place: usize, entry: &Entry) -> Result<String, AllocError>
    ensures { IfOk result (λ text. string_bytes text ≡ way_html count place entry.now) }
{
    let linked = Linked(entry.decision.value(), Decider::Entry(place));
    let conds = shown_conds(alloc, entry.conds.as_slice(), count)?;
    format!(in alloc; "{linked}{conds}, else ")
}

/// The first conditions of an entry, and how many more it has.
pub(crate) fn shown_conds(alloc: Global, conds: &[Cond], count: usize) -> Result<String, AllocError>
    ensures { IfOk result (λ text. string_bytes text ≡ shown_conds count conds.now) }
{
    let shown = conds_html(alloc, first(conds, count))?;
    let more = More {
        before: " and ",
        count: conds.len().saturating_sub(count),
        after: " more",
    };
    format!(in alloc; "{shown}{more}")
}

/// ` if args[0] != 40 and args[1] == 1`.
fn conds_html(alloc: Global, conds: &[Cond]) -> Result<String, AllocError>
    ensures { IfOk result (λ text. string_bytes text ≡ conds_html 0 conds.now) }
{
    let mut text = String::new(alloc);
    for (place, cond) in conds.iter().enumerate() {
        let (word, cond) = (CondWord(place), cond_html(alloc, *cond)?);
        write!(text, "{word}{cond}")?;
    }
    Ok(text)
}

/// A condition, as `args[0] &amp; 0x7e020000 == 0`.
fn cond_html(alloc: Global, cond: Cond) -> Result<String, AllocError>
    ensures { IfOk result (λ text. string_bytes text ≡ cond_html cond) }
{
    let words = format!(in alloc; "{}", Words(cond))?;
    let html = Html {
        text: words.as_str(),
        room: 64,
    };
    format!(in alloc; "{html}")
}

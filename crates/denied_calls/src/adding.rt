ghost use Rattle.std.specs.Prelude.{◌≡◌, ◌≤◌, IfOk, length, sum_by, take};
ghost use Rattle.std.specs.List.{list_any};
ghost use Rattle.std.specs.List.Sorted.{IsPermutation, IsSortedBy};
ghost use Rattle.std.specs.Ordering.{is_lt};
ghost use Rattle.denied_calls.specs.Orders.{row_order};
ghost use Rattle.denied_calls.specs.Sightings.{counted, is_told, rows, same_call, same_call_at, same_kind};

use crate::sighting::Sighting;
use std::alloc::{AllocError, Global};
use std::cmp::Reverse;

/// A call that a container made with one verdict, over all its attempts. The greatest count comes first, and
/// of rows with one count the one with the lower place.
#[derive(Clone, Copy, Debug, PartialEq, Eq, PartialOrd, Ord)]
pub struct Row {
    /// How often it was denied.
    pub count: Reverse<usize>,
    /// The place of its first sighting in the list of all, from 0.
    pub place: usize,
}

/// A row for each container, call and verdict of the sightings, the most denied first.
pub fn rows(alloc: Global, sightings: &[Sighting]) -> Result<Vec<Row>, AllocError>
    // Each once, with the sum of what its sightings count.
    ensures each { IfOk result (λ v. IsPermutation (rows sightings.now) v.items) }

    // By count, and then in the order of the sightings.
    ensures sorted { IfOk result (λ v. IsSortedBy (λ a b. is_lt (row_order a b)) v.items) }
{
    let mut rows = each_row(alloc, sightings)?;
    rows.sort()?;
    Ok(rows)
}

pub(crate) fn each_row(alloc: Global, sightings: &[Sighting]) -> Result<Vec<Row>, AllocError>
    ensures { IfOk result (λ v. v.items ≡ rows sightings.now) }
{
    let mut rows = Vec::new(alloc);
    for (place, sighting) in sightings.iter().enumerate() {
        if !is_told(rows.as_slice(), sightings, sighting) {
            rows.push(Row {
                count: Reverse(counted(sightings, sighting)),
                place,
            })?;
        }
    }
    Ok(rows)
}

/// Whether one of the rows is that of the sighting.
fn is_told(rows: &[Row], sightings: &[Sighting], sighting: &Sighting) -> bool
    ensures { result ≡ is_told sightings.now sighting.now rows.now }
{
    rows.iter()
        .any(|row| is_same_at(sightings, row.place, sighting))
}

/// Whether the sighting at this place is of the same container, call and verdict.
fn is_same_at(sightings: &[Sighting], place: usize, sighting: &Sighting) -> bool
    ensures { result ≡ same_call_at sightings.now place sighting.now }
{
    match sightings.get(place) {
        Some(other) => is_same(other, sighting),
        None => false,
    }
}

/// Whether both are of one container, call and verdict.
fn is_same(a: &Sighting, b: &Sighting) -> bool
    ensures { result ≡ same_call a.now b.now }
{
    is_same_kind(a, b) && a.uid.as_str() == b.uid.as_str() && a.name.as_str() == b.name.as_str()
}

pub(crate) fn is_same_kind(a: &Sighting, b: &Sighting) -> bool
    ensures { result ≡ same_kind a.now b.now }
{
    a.nr == b.nr && a.arch == b.arch && a.value == b.value
}

/// How often the call of this sighting was denied, over all sightings.
fn counted(sightings: &[Sighting], sighting: &Sighting) -> usize
    ensures { result ≡ counted sightings.now sighting.now }
{
    let mut count: usize = 0;
    for other in sightings {
        if is_same(other, sighting) {
            count = count.saturating_add(other.count);
        }
    }
    count
}

ghost use Rattle.std.specs.Prelude.{◌≡◌, IfOk, slice_get};
ghost use Rattle.std.specs.List.Sorted.{IsPermutation, IsSortedBy};
ghost use Rattle.std.specs.Ordering.{is_lt};
ghost use Rattle.denied_calls.specs.Orders.{total_order};
ghost use Rattle.denied_calls.specs.Sightings.{containers, is_totalled, kind_counted, kind_here, rows};
ghost use Rattle.denied_calls.specs.Sightings.{same_kind, total_is_of, total_of, totals};

use crate::adding::{Row, each_row, is_same_kind};
use crate::sighting::Sighting;
use std::alloc::{AllocError, Global};
use std::cmp::Reverse;

/// A call with one verdict, over all containers. The greatest count comes first, and of totals with one count
/// the one with the lower number.
#[derive(Clone, Copy, Debug, PartialEq, Eq, PartialOrd, Ord)]
pub struct Total {
    /// How often it was denied.
    pub count: Reverse<usize>,
    /// The number of the call in the table of its architecture.
    pub nr: u32,
    /// The architecture, an `AUDIT_ARCH_` value of `linux/audit.h`.
    pub arch: u32,
    /// The verdict, as the value with which a filter returns it.
    pub value: u32,
    /// In how many containers it was denied.
    pub containers: usize,
}

/// A total for each call and verdict of the sightings, the most denied first.
pub fn totals(alloc: Global, sightings: &[Sighting]) -> Result<Vec<Total>, AllocError>
    // Each once, with the sum of what its sightings count, and in how many containers.
    ensures each { IfOk result (λ v. IsPermutation (totals sightings.now) v.items) }

    // By count, and then by call.
    ensures sorted { IfOk result (λ v. IsSortedBy (λ a b. is_lt (total_order a b)) v.items) }
{
    let mut totals = each_total(alloc, sightings)?;
    totals.sort()?;
    Ok(totals)
}

fn each_total(alloc: Global, sightings: &[Sighting]) -> Result<Vec<Total>, AllocError>
    ensures { IfOk result (λ v. v.items ≡ totals sightings.now) }
{
    let rows = each_row(alloc, sightings)?;
    let mut totals = Vec::new(alloc);
    for sighting in sightings {
        if !is_totalled(totals.as_slice(), sighting) {
            totals.push(total_of(sightings, rows.as_slice(), sighting))?;
        }
    }
    Ok(totals)
}

/// The total of a sighting's call.
fn total_of(sightings: &[Sighting], told: &[Row], sighting: &Sighting) -> Total
    requires { told.now ≡ rows sightings.now }
    ensures { result ≡ total_of sightings.now 0 sighting.now }
{
    Total {
        count: Reverse(kind_counted(sightings, sighting)),
        nr: sighting.nr,
        arch: sighting.arch,
        value: sighting.value,
        containers: containers(sightings, told, sighting),
    }
}

/// Whether one of the totals is that of the sighting's call.
fn is_totalled(totals: &[Total], sighting: &Sighting) -> bool
    ensures { result ≡ is_totalled sighting.now totals.now }
{
    totals.iter().any(|total| is_of(total, sighting))
}

fn is_of(total: &Total, sighting: &Sighting) -> bool
    ensures { result ≡ total_is_of sighting.now total.now }
{
    total.nr == sighting.nr && total.arch == sighting.arch && total.value == sighting.value
}

/// How often the call of this sighting was denied, over all sightings.
fn kind_counted(sightings: &[Sighting], sighting: &Sighting) -> usize
    ensures { result ≡ kind_counted sightings.now sighting.now }
{
    let mut count: usize = 0;
    for other in sightings {
        if is_same_kind(other, sighting) {
            count = count.saturating_add(other.count);
        }
    }
    count
}

/// How many of the rows are of the sighting's call: one for each container.
fn containers(sightings: &[Sighting], told: &[Row], sighting: &Sighting) -> usize
    requires { told.now ≡ rows sightings.now }
    ensures { result ≡ containers sightings.now sighting.now }
{
    let mut count = 0;
    for row in told {
        if is_kind_at(sightings, row.place, sighting) {
            count += 1;
        }
    }
    count
}

fn is_kind_at(sightings: &[Sighting], place: usize, sighting: &Sighting) -> bool
    ensures { result ≡ kind_here (slice_get sightings.now place) sighting.now }
{
    match sightings.get(place) {
        Some(other) => is_same_kind(other, sighting),
        None => false,
    }
}

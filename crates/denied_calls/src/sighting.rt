ghost use Rattle.std.specs.Prelude.{IfOk};
ghost use Rattle.std.specs.List.Sorted.{IsPermutation, IsSortedBy};
ghost use Rattle.std.specs.Ordering.{is_lt};
ghost use Rattle.denied_calls.specs.Orders.{sighting_order};

use std::alloc::AllocError;

/// A denied call in the record of a container: one number, architecture and verdict. Sightings are ordered by
/// their fields, the first one first.
#[derive(Debug, Drop, PartialEq, Eq, PartialOrd, Ord)]
pub struct Sighting {
    /// The uid of the container's pod.
    pub uid: String,
    /// The container's name.
    pub name: String,
    /// The number of the call in the table of its architecture.
    pub nr: u32,
    /// The architecture, an `AUDIT_ARCH_` value of `linux/audit.h`.
    pub arch: u32,
    /// The verdict, as the value with which a filter returns it.
    pub value: u32,
    /// Which attempt at the container made the call, from 0.
    pub attempt: u32,
    /// The place of the first such call in the record, from 0.
    pub first: usize,
    /// How many such calls the record has.
    pub count: usize,
    /// The name of the container's profile.
    pub profile: String,
}

/// Puts the sightings of one container and call next to each other, the earliest attempt first.
pub fn in_order(sightings: Vec<Sighting>) -> Result<Vec<Sighting>, AllocError>
    ensures same { IfOk result (λ v. IsPermutation sightings.items v.items) }
    ensures sorted { IfOk result (λ v. IsSortedBy (λ a b. is_lt (sighting_order a b)) v.items) }
{
    let mut sightings = sightings;
    sightings.sort()?;
    Ok(sightings)
}

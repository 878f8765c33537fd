//! The values that were seen of a call's small argument: up to four, each once.
ghost use Rattle.std.specs.Prelude.{◌≡◌, IfOk};
ghost use Rattle.profile_learn.specs.Kept.{is_few, lacks_one, list_of, noted, plus, with_value};
ghost use Rattle.profile_learn.specs.Sightings.{is_among};

use crate::sighting::Sighting;
use std::alloc::{AllocError, Global};

#[derive(Clone, Copy)]
pub(crate) enum Values {
    Nothing,
    One(u64),
    Two(u64, u64),
    Three(u64, u64, u64),
    Four(u64, u64, u64, u64),
    /// More than four.
    Many,
    /// One of them is not known.
    Unclear,
}

/// What is kept of the call with this number, with one more sighting.
pub(crate) fn noted(values: Values, number: u32, sighting: Sighting) -> Values
    ensures { result ≡ noted values number sighting }
{
    if sighting.number != number {
        return values;
    }
    match sighting.value {
        Some(value) => with_value(values, value),
        None => Values::Unclear,
    }
}

fn with_value(values: Values, value: u64) -> Values
    ensures { result ≡ with_value values value }
{
    if has(values, value) {
        values
    } else {
        plus(values, value)
    }
}

/// With one more value, which is not among them.
fn plus(values: Values, value: u64) -> Values
    ensures { result ≡ plus values value }
{
    match values {
        Values::Nothing => Values::One(value),
        Values::One(a) => Values::Two(a, value),
        Values::Two(a, b) => Values::Three(a, b, value),
        Values::Three(a, b, c) => Values::Four(a, b, c, value),
        Values::Four(_, _, _, _) | Values::Many => Values::Many,
        Values::Unclear => Values::Unclear,
    }
}

fn has(values: Values, value: u64) -> bool
    ensures { result ≡ is_among (list_of values) value }
{
    match values {
        Values::Nothing | Values::Many | Values::Unclear => false,
        Values::One(a) => a == value,
        Values::Two(a, b) => a == value || b == value,
        Values::Three(a, b, c) => a == value || b == value || c == value,
        Values::Four(a, b, c, d) => a == value || b == value || c == value || d == value,
    }
}

/// Whether the values are known, and four at most.
pub(crate) fn is_few(values: Values) -> bool
    ensures { result ≡ is_few values }
{
    match values {
        Values::Many | Values::Unclear => false,
        _ => true,
    }
}

/// Whether one of the values is not known.
pub(crate) fn is_unclear(values: Values) -> bool
    ensures { result ≡ lacks_one values }
{
    match values {
        Values::Unclear => true,
        _ => false,
    }
}

/// Those that are kept.
pub(crate) fn list_of(alloc: Global, values: Values) -> Result<Vec<u64>, AllocError>
    ensures { IfOk result (λ v. v.items ≡ list_of values) }
{
    match values {
        Values::Nothing | Values::Many | Values::Unclear => Ok(Vec::new(alloc)),
        Values::One(a) => Ok(vec![in alloc; a]?),
        Values::Two(a, b) => Ok(vec![in alloc; a, b]?),
        Values::Three(a, b, c) => Ok(vec![in alloc; a, b, c]?),
        Values::Four(a, b, c, d) => Ok(vec![in alloc; a, b, c, d]?),
    }
}

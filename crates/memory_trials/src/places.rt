//! Places in JSON texts.
use json_place::Place;
use std::alloc::Global;

/// Whether the place in a JSON text is this one.
pub(crate) fn is_at(alloc: Global, place: &Place, wanted: &str) -> bool {
    match format!(in alloc; "{place}") {
        Ok(text) => text.as_str() == wanted,
        Err(_) => false,
    }
}

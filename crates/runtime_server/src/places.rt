//! A fixed number of places, each free or taken.
ghost use Rattle.std.specs.Prelude.{◌≡◌, IfErr, IfOk, None, Some, length, slice_set};
ghost use Rattle.std.specs.List.{AllByRecursion};
ghost use Rattle.runtime_server.specs.Places.{are_all_free, first_free, is_free, value_at};

use std::alloc::{AllocError, Global};
use std::marker::Model;

/// A fixed number of places for values. Contracts see each place and the value there.
#[derive(Drop)]
pub(crate) struct Places<T: Drop> {
    list: Vec<Option<T>>,
}

impl<T: Drop> Model for Places<T> {
    ghost use Rattle.std.specs.Prelude.{List, Option};

    ghost Value = { List (Option T) };

    ghost view = { λ p. p.list.items };
}

fn is_free<T>(place: &Option<T>) -> bool
    ensures { result ≡ is_free place.now }
{
    match place {
        None => true,
        Some(_) => false,
    }
}

fn first_free<T>(places: &[Option<T>]) -> Option<usize>
    ensures { result ≡ first_free places.now }
{
    places.iter().position(|place| is_free(place))
}

impl<T: Drop> Places<T> {
    /// This many free places.
    pub(crate) fn new(alloc: Global, count: usize) -> Result<Places<T>, AllocError>
        ensures count { IfOk result (λ places. length places ≡ count) }
        ensures free { IfOk result (AllByRecursion (λ place. place ≡ None)) }
    {
        let mut list = Vec::new(alloc);
        for _ in 0..count {
            list.push(None)?;
        }
        Ok(Places { list })
    }

    /// Puts a value into the first free place and returns this place, or returns the value if none is free.
    pub(crate) fn put(&mut self, value: T) -> Result<usize, T>
        ensures put { IfOk result (λ place. (first_free self.old ≡ Some place)
            × (self.new ≡ slice_set self.old place (Some value))) }
        ensures full { IfErr result (λ back. (back ≡ value) × (first_free self.old ≡ None)
            × (self.new ≡ self.old)) }
    {
        match first_free(self.list.as_slice()) {
            Some(place) => {
                self.list[place] = Some(value);
                Ok(place)
            }
            None => Err(value),
        }
    }

    /// Takes the value out of this place, and frees the place.
    pub(crate) fn take(&mut self, place: usize) -> Option<T>
        ensures value { result ≡ value_at self.old place }
        ensures free { self.new ≡ slice_set self.old place None }
    {
        match self.list.get_mut(place) {
            Some(value) => value.take(),
            None => None,
        }
    }

    /// Whether all places are free.
    pub(crate) fn is_empty(&self) -> bool
        ensures { result ≡ are_all_free self.now }
    {
        self.list.iter().all(|place| is_free(place))
    }
}

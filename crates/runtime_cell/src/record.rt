//! The record of a cell, with its counts kept beside it.
ghost use Rattle.std.specs.Prelude.{◌≡◌, ◌<◌, ◌≤◌, ◌++◌, ◌∷◌, [], IfOk, count_by, length, not, vec_capacity};
ghost use Rattle.std.specs.Prelude.{vec_len};

use crate::calls::JudgedCall;
use std::alloc::{AllocError, Global};
use std::marker::Model;

/// How many of the calls of a record were performed, and how many were not.
#[derive(Clone, Copy, Debug, PartialEq, Eq)]
pub struct Counts {
    pub performed: usize,
    pub denied: usize,
}

/// The judged calls of a cell so far. How many of them were performed is counted as they come, so a status
/// takes constant time. Contracts see the calls, and for how many there is room.
#[derive(Drop)]
pub(crate) struct Record {
    entries: Vec<JudgedCall>,
    performed: usize,
}

impl Model for Record {
    ghost use Rattle.std.specs.Prelude.{◌≡◌, count_by, vec_capacity};
    ghost use Rattle.runtime_cell.specs.Keeps.{Recorded};

    ghost Value = { Recorded };

    ghost view = { λ r. record { items = r.entries.items; room = vec_capacity r.entries } };

    ghost invariant = { λ r. r.performed ≡ count_by (λ entry. entry.performed) r.entries.items };
}

impl Record {
    /// No calls, and room for this many.
    pub(crate) fn with_capacity(alloc: Global, capacity: usize) -> Result<Record, AllocError>
        ensures items { IfOk result (λ r. r.items ≡ []) }
        ensures capacity { IfOk result (λ r. capacity ≤ r.room) }
    {
        Ok(Record {
            entries: Vec::with_capacity(alloc, capacity)?,
            performed: 0,
        })
    }

    pub(crate) fn len(&self) -> usize
        ensures { result ≡ length self.now.items }
    {
        self.entries.len()
    }

    /// Adds a call, for which there is room.
    pub(crate) fn add(&mut self, entry: JudgedCall)
        requires { length self.old.items < self.old.room }
        ensures items { self.new.items ≡ self.old.items ++ entry ∷ [] }
        ensures room { self.old.room ≤ self.new.room }
    {
        if entry.performed {
            self.performed += 1;
        }
        push(&mut self.entries, entry);
    }

    pub(crate) fn as_slice(&self) -> &[JudgedCall]
        ensures { result.now ≡ self.now.items }
    {
        self.entries.as_slice()
    }

    pub(crate) fn counts(&self) -> Counts
        ensures performed { result.performed ≡ count_by (λ entry. entry.performed) self.now.items }
        ensures denied { result.denied ≡ count_by (λ entry. not entry.performed) self.now.items }
    {
        Counts {
            performed: self.performed,
            denied: self.entries.len() - self.performed,
        }
    }
}

/// Adds an entry to a list that has room for it.
fn push(entries: &mut Vec<JudgedCall>, entry: JudgedCall)
    requires { vec_len entries.old < vec_capacity entries.old }
    ensures items { entries.new.items ≡ entries.old.items ++ entry ∷ [] }
    ensures room { vec_capacity entries.old ≤ vec_capacity entries.new }
{
    if entries.push(entry).is_err() {
        prove!(false);
    }
}

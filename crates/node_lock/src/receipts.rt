ghost use Rattle.std.specs.Prelude.{◌≡◌};

use crate::entries::Entry;
use std::marker::Model;

/// The proof of one entry: its number, from 1 over all parts of the history, and a copy of it. Only
/// [`Book::record`](crate::Book::record) makes one, and none is copied.
#[derive(Debug, Drop)]
pub struct Receipt {
    number: u64,
    entry: Entry,
}

impl Model for Receipt {
    ghost use Rattle.node_lock.specs.Receipts.{Received};

    ghost Value = { Received };

    ghost view = { λ r. record { number = r.number; entry = r.entry } };
}

impl Receipt {
    pub(crate) fn new(number: u64, entry: Entry) -> Receipt
        ensures { result ≡ record { number = number; entry = entry } }
    {
        Receipt { number, entry }
    }

    /// The entry's number in the history, from 1 over all of its parts.
    pub fn number(&self) -> u64
        ensures { result ≡ self.now.number }
    {
        self.number
    }

    /// The entry.
    pub fn entry(&self) -> &Entry
        ensures { result.now ≡ self.now.entry }
    {
        &self.entry
    }
}

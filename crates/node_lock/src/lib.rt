//! The node that the workers of an agent share, and the history of what each of them did under its lock.
//!
//! A [`Book`] ensures that its history is one that a single thread could have made: each answer is that of
//! the node's step at that point, and the history ends at the node. The caller of each step gets a
//! [`Receipt`] for it, which nobody else can make, and a share that counts it. So there are as many receipts
//! as entries, and [`audit`] checks that each entry is at its receipt's number. Nothing here locks, waits or
//! starts a thread, and nothing touches a file or a socket. `specs/Histories.antt` defines legal histories,
//! and `specs/Books.antt` what a book keeps.
//!
//! # What is proved
//!
//! - Whenever the lock is taken, the whole history is legal, so each answer is the node's step at that point,
//!   from the empty node. The history ends at the node. The last part's entries are stored, each is counted,
//!   and limit and memory have room for the ends of all held claims: `history` (legal, counted),
//!   `last_number`, `entries` (length, all), `has_room`, `close`, `with_limit`.
//! - `Book::record` adds exactly one entry to the whole history, with the worker's event and the step's
//!   answer. Nothing else adds or removes an entry. The entry is counted and returned as a receipt:
//!   `Book::record` (number, worker, event, answer, history, whole, node, counted, goes_on).
//! - HistoryFull is returned exactly if the limit leaves no room. HistoryFull and Memory change nothing. The
//!   end of a held claim that is given up is always recorded: `Book::record` (err, full, abandon).
//! - A tally with all parts has as many receipts as the part has entries: `Tally` (of, join, receipts).
//! - `audit` is true exactly if each receipt's entry is at its number: `audit`.
//! - A part ends exactly if it has entries, no claim is held, the receipts match it, and there are numbers
//!   for another. The next part is empty, goes on at the same node and counts on: `end_part` (when, node,
//!   before, history, whole, receipts, open, err).
//! - A legal history is a run of the node, so the laws of every run apply to it: `laws::histories_are_runs`.
//! - Constants and texts: `constants_are_as_stated`, `Display` of `BookFault`.
//!
//! Only tested: that there is memory.
#![tactic(auto)]

mod audits;
mod books;
mod entries;
mod faults;
pub mod laws;
mod limits;
mod receipts;
mod steps;
mod tallies;
mod whole;

pub use audits::audit;
pub use books::Book;
pub use entries::Entry;
pub use faults::BookFault;
pub use limits::{MAX_ENTRIES, PARTS};
pub use receipts::Receipt;
pub use tallies::Tally;

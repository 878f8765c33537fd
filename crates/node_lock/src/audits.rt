ghost use Rattle.std.specs.Prelude.{◌≡◌, ◌+◌, ◌<◌, ◌↔◌, All, IsTrue, Some, length, slice_get};
ghost use Rattle.node_lock.specs.Receipts.{Stands};

use crate::entries::Entry;
use crate::receipts::Receipt;

// The entry at this place.
fn entry_at(history: &[Entry], place: usize) -> &Entry
    requires { place < length history.now }
    ensures { slice_get history.now place ≡ Some result.now }
{
    &history[place]
}

// Whether the receipt's entry is at its number.
fn stands(before: u64, history: &[Entry], receipt: &Receipt) -> bool
    ensures { IsTrue result ↔ Stands before history.now receipt.now }
{
    let number = receipt.number();
    if number <= before || number - before > history.len() as u64 {
        return false;
    }
    entry_at(history, (number - before - 1) as usize).same(receipt.entry())
}

/// Whether each of the receipts has its entry at its number, in the part of a history that comes after
/// `before` entries. True if there are no receipts.
pub fn audit(before: u64, history: &[Entry], receipts: &[Receipt]) -> bool
    ensures { IsTrue result ↔ All (Stands before history.now) receipts.now }
{
    receipts
        .iter()
        .all(|receipt| stands(before, history, receipt))
}

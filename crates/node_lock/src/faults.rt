ghost use Rattle.std.specs.Prelude.{◌≡◌};
ghost use Rattle.node_lock.specs.Faults.{fault_number};
ghost use Rattle.node_lock.specs.declared.faults.BookFault.TheVariants.{Memory};

use std::alloc::AllocError;
use std::fmt;
use thiserror::Error;

/// Why a book refuses an entry. What a node refuses is in the history, these are not.
#[derive(Clone, Copy, Debug, PartialEq, Eq, Error)]
pub enum BookFault {
    /// An allocation failed.
    Memory,
    /// The history would exceed its limit, counting the entries that end the held claims.
    HistoryFull,
}

/// The fault's name.
impl fmt::Display for BookFault {
    ghost use Rattle.std.specs.Prelude.{Some};
    ghost use Rattle.node_lock.specs.Faults.{fault_text};

    ghost output = { λ fault. Some (fault_text fault) };

    fn fmt<W: fmt::Write>(&self, f: &mut fmt::Formatter<W>) -> fmt::Result {
        match self {
            BookFault::Memory => f.write_str("Memory"),
            BookFault::HistoryFull => f.write_str("HistoryFull"),
        }
    }
}

impl BookFault {
    /// Its number, after those of a node's refusals. 6 is `NodeRefusal::Memory` too.
    pub fn number(self) -> u8
        ensures { result ≡ fault_number self }
    {
        match self {
            BookFault::Memory => 6,
            BookFault::HistoryFull => 7,
        }
    }
}

impl From<AllocError> for BookFault {
    ghost from_gives = { λ _ fault. fault ≡ Memory };

    fn from(_: AllocError) -> BookFault {
        BookFault::Memory
    }
}

ghost use Rattle.std.specs.Prelude.{◌≡◌};
ghost use Rattle.cri_msgs.specs.declared.faults.MessageFault.TheVariants.{Memory};

use std::alloc::{AllocError, AllocFailed};
use std::fmt;
use thiserror::Error;

/// Why a text was not read as a message.
#[derive(Clone, Copy, Debug, PartialEq, Eq, Error)]
pub enum MessageFault {
    /// It is not a message. The field is its number, 0 if none can be read as a whole number.
    NoMessage(u64),
    /// An allocation failed.
    Memory,
}

/// The fault's name, and the text's number after `NoMessage`.
impl fmt::Display for MessageFault {
    ghost use Rattle.std.specs.Prelude.{Some};
    ghost use Rattle.cri_msgs.specs.FaultText.{fault_text};

    ghost output = { λ fault. Some (fault_text fault) };

    fn fmt<W: fmt::Write>(&self, f: &mut fmt::Formatter<W>) -> fmt::Result {
        match self {
            MessageFault::NoMessage(id) => write!(f, "NoMessage {id}"),
            MessageFault::Memory => f.write_str("Memory"),
        }
    }
}

impl From<AllocError> for MessageFault {
    ghost from_gives = { λ _ fault. fault ≡ Memory };

    fn from(_: AllocError) -> MessageFault {
        MessageFault::Memory
    }
}

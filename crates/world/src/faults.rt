ghost use Rattle.std.specs.Prelude.{◌≡◌};

use std::alloc::{AllocError, AllocFailed};
use thiserror::Error;

/// Why an event can't happen.
#[derive(Clone, Copy, Debug, PartialEq, Eq, Error)]
pub enum WorldFault {
    /// No request at this place was ever sent.
    #[error("NoSuchRequest")]
    NoSuchRequest,
    /// No reply at this place was ever given, or it was not given to the request that the worker holds.
    #[error("NoSuchReply")]
    NoSuchReply,
    /// No cell has this id.
    #[error("NoSuchCell")]
    NoSuchCell,
    /// An allocation failed.
    #[error("Memory")]
    Memory,
}

impl From<AllocError> for WorldFault {
    ghost use Rattle.world.specs.declared.faults.WorldFault.TheVariants.{Memory};

    ghost from_gives = { λ _ fault. fault ≡ Memory };

    fn from(_: AllocError) -> WorldFault {
        WorldFault::Memory
    }
}

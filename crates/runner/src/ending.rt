ghost use Rattle.std.specs.Prelude.{◌≡◌};

use std::alloc::AllocError;

/// How a connection ended.
#[derive(Clone, Copy, Debug, PartialEq, Eq)]
pub enum Ending {
    /// The input was read to its end, and each frame in it was answered.
    Ended,
    /// Each frame was answered, up to four bytes that are not a frame's head.
    BadLength,
    /// A read or a write failed.
    Failed,
    /// An allocation failed: for a frame, for reading a request, or for a reply's bytes.
    Memory,
}

/// Why a connection is cut off before all that was read is answered.
#[derive(Clone, Copy, PartialEq, Eq)]
pub(crate) enum ServeFault {
    Failed,
    Memory,
}

impl From<AllocError> for ServeFault {
    ghost use Rattle.std.specs.Prelude.{◌≡◌};
    ghost use Rattle.runner.specs.declared.ending.ServeFault.TheVariants.{Memory};

    ghost from_gives = { λ _ cut. cut ≡ Memory };

    fn from(_: AllocError) -> ServeFault {
        ServeFault::Memory
    }
}

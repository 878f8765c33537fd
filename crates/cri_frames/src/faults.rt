use crate::moving::Stop;
use std::alloc::AllocError;
use std::fmt;
use thiserror::Error;

/// Why a feed refused a piece.
#[derive(Clone, Copy, Debug, PartialEq, Eq, Error)]
pub enum FeedFault {
    /// Four bytes where a frame begins are not a frame's head: the first byte is not a version's, or the
    /// length is 0 or above [`MAX_TEXT`](cri_msgs::MAX_TEXT).
    BadLength,
    /// An allocation failed.
    Memory,
}

/// The fault's name.
impl fmt::Display for FeedFault {
    ghost use Rattle.std.specs.Prelude.{Some};
    ghost use Rattle.cri_frames.specs.FaultText.{feed_fault_text};

    ghost output = { λ fault. Some (feed_fault_text fault) };

    fn fmt<W: fmt::Write>(&self, f: &mut fmt::Formatter<W>) -> fmt::Result {
        f.write_str(match self {
            FeedFault::BadLength => "BadLength",
            FeedFault::Memory => "Memory",
        })
    }
}

impl From<AllocError> for FeedFault {
    ghost use Rattle.std.specs.Prelude.{◌≡◌};
    ghost use Rattle.cri_frames.specs.declared.faults.FeedFault.TheVariants.{Memory};

    ghost from_gives = { λ _ fault. fault ≡ Memory };

    fn from(_: AllocError) -> FeedFault {
        FeedFault::Memory
    }
}

/// Why a call got no reply. In each case the wire can't be used again.
#[derive(Clone, Copy, Debug, PartialEq, Eq, Error)]
pub enum Lost {
    /// A write failed after this many bytes of the request's frame.
    WriteFailed(usize),
    /// A read failed.
    ReadFailed,
    /// The input ended before a whole frame was read.
    Ended,
    /// The input is not a frame of the request's version, or its text is not a reply.
    BadFrame,
    /// The reply has another number than the request.
    WrongNumber,
    /// An allocation failed.
    Memory,
}

/// The fault's name, and the count after `WriteFailed at`.
impl fmt::Display for Lost {
    ghost use Rattle.std.specs.Prelude.{Some};
    ghost use Rattle.cri_frames.specs.FaultText.{lost_text};

    ghost output = { λ lost. Some (lost_text lost) };

    fn fmt<W: fmt::Write>(&self, f: &mut fmt::Formatter<W>) -> fmt::Result {
        match self {
            Lost::WriteFailed(count) => write!(f, "WriteFailed at {count}"),
            Lost::ReadFailed => f.write_str("ReadFailed"),
            Lost::Ended => f.write_str("Ended"),
            Lost::BadFrame => f.write_str("BadFrame"),
            Lost::WrongNumber => f.write_str("WrongNumber"),
            Lost::Memory => f.write_str("Memory"),
        }
    }
}

impl From<AllocError> for Lost {
    ghost use Rattle.std.specs.Prelude.{◌≡◌};
    ghost use Rattle.cri_frames.specs.declared.faults.Lost.TheVariants.{Memory};

    ghost from_gives = { λ _ lost. lost ≡ Memory };

    fn from(_: AllocError) -> Lost {
        Lost::Memory
    }
}

impl From<Stop> for Lost {
    ghost use Rattle.std.specs.Prelude.{◌≡◌};
    ghost use Rattle.cri_frames.specs.Steps.{lost_by};

    ghost from_gives = { λ stop lost. lost ≡ lost_by stop };

    fn from(stop: Stop) -> Lost {
        match stop {
            Stop::Failed => Lost::ReadFailed,
            Stop::Ended => Lost::Ended,
        }
    }
}

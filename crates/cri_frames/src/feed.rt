ghost use Rattle.std.specs.Prelude.{◌≡◌, ◌≤◌, ◌↔◌, ◌++◌, [], IfNone, IfOk, IfSome, IsErrOf, OnErr, OnOk};
ghost use Rattle.std.specs.Prelude.{IsTrue, drop, length};
ghost use Rattle.std.specs.List.{AllByRecursion};
ghost use Rattle.cri_frames.specs.Frames.{BeginsNone, IsBad, IsLength, frame_of};
ghost use Rattle.cri_frames.specs.Streams.{HasBadRest, IsFrame, stream_of};

use crate::faults::FeedFault;
use crate::splitting::{Frame, split};
use cri_msgs::Version;
use std::alloc::{AllocError, Global};
use std::collections::VecDeque;
use std::marker::Model;

/// Splits a stream, in whatever pieces it comes, into frames. Its model is the bytes that were pushed and not
/// yet taken.
#[derive(Drop)]
pub struct Feed {
    alloc: Global,
    done: VecDeque<Frame>,
    part: Vec<u8>,
    failed: bool,
}

impl Model for Feed {
    ghost use Rattle.std.specs.Prelude.{ℕ, List};
    ghost use Rattle.cri_frames.specs.Streams.{IsKept, stream_of};

    ghost Value = { List ℕ };

    ghost view = { λ f. stream_of f.done.items f.part.items };

    ghost invariant = { λ f. IsKept f.done.items f.part.items f.failed };
}

impl Feed {
    /// An empty feed.
    pub fn new(alloc: Global) -> Feed
        ensures { result ≡ [] }
    {
        Feed {
            alloc,
            done: VecDeque::new(alloc),
            part: Vec::new(alloc),
            failed: false,
        }
    }

    /// Adds a piece of the stream. Once four bytes where a frame begins are not a frame's head, the feed has
    /// failed for good: each later push returns that fault and adds nothing.
    pub fn push(&mut self, piece: &[u8]) -> Result<(), FeedFault>
        // The piece is added, and its frames can be taken.
        ensures ok { OnOk result (self.new ≡ self.old ++ piece.now) }
        ensures good { OnOk result (HasBadRest (self.old ++ piece.now) → ⊥) }

        // The fault is in the stream, and the frames before it can be taken.
        ensures bad_length { IsErrOf result FeedFault.BadLength → HasBadRest (self.old ++ piece.now) }
        ensures fails { IsErrOf result FeedFault.BadLength → (HasBadRest self.old → ⊥)
            → self.new ≡ self.old ++ piece.now }
        ensures failed { HasBadRest self.old → (result ≡ Err FeedFault.BadLength) × (self.new ≡ self.old) }
        ensures memory { IsErrOf result FeedFault.Memory → self.new ≡ self.old }
    {
        if self.has_failed() {
            return Err(FeedFault::BadLength);
        }
        self.add(piece)?;
        if self.has_failed() {
            return Err(FeedFault::BadLength);
        }
        Ok(())
    }

    /// Takes out the oldest whole frame: its version and its text. Allocates nothing.
    pub fn take(&mut self) -> Option<(Version, Vec<u8>)>
        ensures text { IfSome result (λ frame. IsLength (length frame.1.items)) }
        ensures first { IfSome result (λ frame. self.old ≡ frame_of frame.0 frame.1.items ++ self.new) }
        ensures none { IfNone result (BeginsNone self.old) }
        ensures same { IfNone result (self.new ≡ self.old) }
    {
        let Frame { version, text } = self.done.pop_front()?;
        Some((version, text))
    }

    /// Whether four bytes were pushed where a frame begins that are not a frame's head.
    pub fn has_failed(&self) -> bool
        ensures { IsTrue result ↔ HasBadRest self.now }
    {
        self.failed
    }

    fn add(&mut self, piece: &[u8]) -> Result<(), AllocError>
        ensures ok { OnOk result (self.new ≡ self.old ++ piece.now) }
        ensures err { OnErr result (self.new ≡ self.old) }
    {
        self.failed = take_in(self.alloc, &mut self.done, &mut self.part, piece)?;
        Ok(())
    }
}

// Removes the first `count` bytes.
fn drop_front(bytes: &mut Vec<u8>, count: usize)
    requires { count ≤ length bytes.old.items }
    ensures { bytes.new.items ≡ drop count bytes.old.items }
{
    bytes.drain(..count);
}

// Appends a piece to the received part of the next frame, and returns whether the rest is bad. A failed
// allocation changes nothing.
fn take_in(
    alloc: Global,
    done: &mut VecDeque<Frame>,
    part: &mut Vec<u8>,
    piece: &[u8],
) -> Result<bool, AllocError>
    requires { AllByRecursion IsFrame done.old.items }
    ensures added { OnOk result (stream_of done.new.items part.new.items
        ≡ stream_of done.old.items part.old.items ++ piece.now) }
    ensures each { AllByRecursion IsFrame done.new.items }
    ensures begins_none { OnOk result (BeginsNone part.new.items) }
    ensures bad { IfOk result (λ is_bad. IsTrue is_bad ↔ IsBad part.new.items) }
    ensures err_done { OnErr result (done.new.items ≡ done.old.items) }
    ensures err_part { OnErr result (part.new.items ≡ part.old.items) }
{
    let had = part.len();
    let count = done.len();
    part.extend_from_slice(piece)?;
    match split(alloc, part.as_slice(), done) {
        Ok(cut) => {
            drop_front(part, cut.at);
            Ok(cut.is_bad)
        }
        Err(error) => {
            done.truncate(count);
            part.truncate(had);
            Err(error)
        }
    }
}

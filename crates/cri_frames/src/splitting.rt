ghost use Rattle.std.specs.Prelude.{◌≡◌, ◌+◌, ◌≤◌, ◌↔◌, ◌++◌, if◌then◌else◌, IfOk, OnErr, OnOk, IsTrue, drop};
ghost use Rattle.std.specs.Prelude.{length, take};
ghost use Rattle.std.specs.List.{AllByRecursion};
ghost use Rattle.cri_frames.specs.Frames.{BeginsNone, IsBad};
ghost use Rattle.cri_frames.specs.Splitting.{Begins};
ghost use Rattle.cri_frames.specs.Streams.{IsFrame, stream_of};

use crate::heads::Head;
use cri_msgs::Version;
use std::alloc::{AllocError, Global};
use std::collections::VecDeque;
use std::marker::Model;

/// What the next bytes are.
pub(crate) enum Next {
    /// A whole frame of this version, whose text has this length in bytes.
    Whole(Version, usize),
    /// Less than a whole frame.
    Part,
    /// Four bytes that are not a frame's head.
    Bad,
}

impl Next {
    fn of(bytes: &[u8]) -> Next
        ensures { Begins bytes.now result }
    {
        if bytes.len() < 4 {
            return Next::Part;
        }
        let Some(head) = Head::read(bytes) else {
            return Next::Bad;
        };
        if bytes.len() - 4 < head.length {
            return Next::Part;
        }
        Next::Whole(head.version, head.length)
    }
}

/// A whole frame.
#[derive(Drop)]
pub(crate) struct Frame {
    pub(crate) version: Version,
    pub(crate) text: Vec<u8>,
}

impl Model for Frame {
    ghost use Rattle.std.specs.Prelude.{ℕ, List};
    ghost use Rattle.cri_msgs.specs.declared.version.Version.{Version};

    ghost Value = { Version × List ℕ };

    ghost view = { λ f. (f.version, f.text.items) };
}

/// Where the whole frames of some bytes end, and whether the four bytes there are not a frame's head.
#[derive(Clone, Copy)]
pub(crate) struct Cut {
    pub(crate) at: usize,
    pub(crate) is_bad: bool,
}

// Adds the frame that the bytes begin with, whose text has this length in bytes.
fn keep(
    alloc: Global,
    bytes: &[u8],
    version: Version,
    count: usize,
    done: &mut VecDeque<Frame>,
) -> Result<(), AllocError>
    requires { Begins bytes.now (Next.Whole version count) }
    ensures same { OnOk result (stream_of done.new.items (drop (4 + count) bytes.now)
        ≡ stream_of done.old.items bytes.now) }
    ensures each { AllByRecursion IsFrame done.old.items → AllByRecursion IsFrame done.new.items }
    ensures kept { take (length done.old.items) done.new.items ≡ done.old.items }
{
    let text = Vec::from_slice(alloc, &bytes[4..4 + count])?;
    done.push_back(Frame { version, text })?;
    Ok(())
}

/// Appends the whole frames that the bytes begin with, and returns where they end. The frames before stay,
/// even if an allocation fails.
pub(crate) fn split(
    alloc: Global,
    bytes: &[u8],
    done: &mut VecDeque<Frame>,
) -> Result<Cut, AllocError>
    requires { AllByRecursion IsFrame done.old.items }
    ensures same { IfOk result (λ cut. stream_of done.new.items (drop cut.at bytes.now)
        ≡ stream_of done.old.items bytes.now) }
    ensures within { IfOk result (λ cut. cut.at ≤ length bytes.now) }
    ensures begins_none { IfOk result (λ cut. BeginsNone (drop cut.at bytes.now)) }
    ensures bad { IfOk result (λ cut. IsTrue cut.is_bad ↔ IsBad (drop cut.at bytes.now)) }
    ensures each { AllByRecursion IsFrame done.new.items }
    ensures kept { take (length done.old.items) done.new.items ≡ done.old.items }
{
    let mut at = 0;
    loop {
        let left = &bytes[at..];
        match Next::of(left) {
            Next::Whole(version, count) => {
                keep(alloc, left, version, count, done)?;
                at += 4 + count;
            }
            Next::Part => return Ok(Cut { at, is_bad: false }),
            Next::Bad => return Ok(Cut { at, is_bad: true }),
        }
    }
}

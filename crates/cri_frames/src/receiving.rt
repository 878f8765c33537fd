ghost use Rattle.std.specs.Prelude.{◌≡◌, ◌≤◌, IfErr, IfOk, length};
ghost use Rattle.std.specs.Io.KnownBytes.{Consumes, Keeps};
ghost use Rattle.cri_frames.specs.Frames.{IsLength, frame_of, head_of};
ghost use Rattle.cri_frames.specs.Steps.{IsNotFilled, IsNotReceived};

use crate::faults::Lost;
use crate::heads::Head;
use crate::moving::read_all;
use cri_msgs::Version;
use node_io::Wire;
use std::alloc::Global;

/// Reads one frame of this version, and no byte past it, and returns its text. The head is checked before
/// memory is allocated for the text.
pub(crate) fn receive<W: Wire>(
    alloc: Global,
    wire: &mut W,
    version: Version,
) -> Result<Vec<u8>, Lost>
    ensures fits { IfOk result (λ text. IsLength (length text.items)) }
    ensures taken { IfOk result (λ text. Consumes (W.input wire.old) (W.input wire.new)
        (frame_of version text.items)) }
    ensures lost { IfErr result (λ lost. IsNotReceived version (W.input wire.old) (W.input wire.new)
        (W.failed wire.old) (W.failed wire.new) lost) }
    ensures counted { W.failed wire.old ≤ W.failed wire.new }
    ensures output { Keeps (W.output wire.old) (W.output wire.new) }
{
    let count = read_head(wire, version)?;
    read_text(alloc, wire, count)
}

// Reads four bytes, the head of a frame of this version, and returns the length of the text.
fn read_head<W: Wire>(wire: &mut W, version: Version) -> Result<usize, Lost>
    ensures fits { IfOk result IsLength }
    ensures taken { IfOk result (λ count. Consumes (W.input wire.old) (W.input wire.new)
        (head_of version count)) }
    ensures lost { IfErr result (λ lost. IsNotReceived version (W.input wire.old) (W.input wire.new)
        (W.failed wire.old) (W.failed wire.new) lost) }
    ensures counted { W.failed wire.old ≤ W.failed wire.new }
    ensures output { Keeps (W.output wire.old) (W.output wire.new) }
{
    let mut bytes = [0u8; 4];
    read_all(wire, &mut bytes)?;
    match Head::read(&bytes) {
        Some(head) if head.version == version => Ok(head.length),
        _ => Err(Lost::BadFrame),
    }
}

// Reads `count` bytes into memory that is allocated first.
fn read_text<W: Wire>(alloc: Global, wire: &mut W, count: usize) -> Result<Vec<u8>, Lost>
    ensures all { IfOk result (λ text. length text.items ≡ count) }
    ensures taken { IfOk result (λ text. Consumes (W.input wire.old) (W.input wire.new) text.items) }
    ensures lost { IfErr result (λ lost. IsNotFilled count (W.input wire.old) (W.input wire.new)
        (W.failed wire.old) (W.failed wire.new) lost) }
    ensures counted { W.failed wire.old ≤ W.failed wire.new }
    ensures output { Keeps (W.output wire.old) (W.output wire.new) }
{
    let mut text = Vec::new(alloc);
    text.resize(count, 0)?;
    read_all(wire, text.as_mut_slice())?;
    Ok(text)
}

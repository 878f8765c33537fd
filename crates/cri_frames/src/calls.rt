ghost use Rattle.std.specs.Prelude.{◌≡◌, ◌≤◌, IfErr, IfOk, OnOk, OnErr};
ghost use Rattle.std.specs.Io.KnownBytes.{Appends, Keeps};
ghost use Rattle.node_io.specs.Counts.{HasRisen};
ghost use Rattle.cri_msgs.specs.Replies.{ReadsReply};
ghost use Rattle.cri_frames.specs.Calls.{IsOfWire, Sends, Takes, TakesReply, frame_of_request};
ghost use Rattle.cri_frames.specs.Steps.{IsNoReplyTo, IsNotSent};

use crate::faults::Lost;
use crate::frames::frame_of;
use crate::moving::write_all;
use crate::receiving::receive;
use cri_msgs::{MessageFault, Reply, Request, Version};
use node_io::Wire;
use std::alloc::Global;

/// Sends a request in a frame of this version and reads one frame, the reply with its number. Each write
/// offers, and each read asks for, all that is left. No byte after the frame is read.
pub fn call_over<W: Wire>(
    alloc: Global,
    wire: &mut W,
    request: &Request,
    version: Version,
) -> Result<Reply, Lost>
    // The request's frame was written, and one frame was read: the reply with the request's number.
    ensures written { OnOk result (Appends (W.output wire.old) (W.output wire.new)
        (frame_of_request version request.now)) }
    ensures read { IfOk result (TakesReply version (W.input wire.old) (W.input wire.new)) }
    ensures number { IfOk result (λ reply. reply.id ≡ request.now.id) }

    // Otherwise the cause states what was written and what was read.
    ensures sent { IfErr result (Sends version request.now (W.output wire.old) (W.output wire.new)) }
    ensures taken { IfErr result (Takes version request.now.id (W.input wire.old) (W.input wire.new)) }

    // A fault of the wire is reported only if it failed.
    ensures failed { IfErr result (λ lost. IsOfWire lost → HasRisen (W.failed wire.old) (W.failed wire.new)) }
    ensures counted { W.failed wire.old ≤ W.failed wire.new }
{
    send(alloc, wire, request, version)?;
    let text = receive(alloc, wire, version)?;
    reply_to(alloc, version, request.id, text.as_slice())
}

// Writes the request's frame.
fn send<W: Wire>(
    alloc: Global,
    wire: &mut W,
    request: &Request,
    version: Version,
) -> Result<(), Lost>
    ensures written { OnOk result (Appends (W.output wire.old) (W.output wire.new)
        (frame_of_request version request.now)) }
    ensures lost { IfErr result (IsNotSent version request.now (W.output wire.old) (W.output wire.new)
        (W.failed wire.old) (W.failed wire.new)) }
    ensures counted { W.failed wire.old ≤ W.failed wire.new }
    ensures input { Keeps (W.input wire.old) (W.input wire.new) }
{
    let text = request.write(alloc, version)?;
    let frame = frame_of(alloc, version, text.as_slice())?;
    match write_all(wire, frame.as_slice()) {
        Ok(()) => Ok(()),
        Err(count) => Err(Lost::WriteFailed(count)),
    }
}

// The reply in a text, if it has this number.
fn reply_to(alloc: Global, version: Version, id: u64, text: &[u8]) -> Result<Reply, Lost>
    ensures found { IfOk result (ReadsReply version text.now) }
    ensures number { IfOk result (λ reply. reply.id ≡ id) }
    ensures lost { IfErr result (IsNoReplyTo version id text.now) }
{
    match Reply::read(alloc, version, text) {
        Ok(reply) if reply.id == id => Ok(reply),
        Ok(_) => Err(Lost::WrongNumber),
        Err(MessageFault::NoMessage(_)) => Err(Lost::BadFrame),
        Err(MessageFault::Memory) => Err(Lost::Memory),
    }
}

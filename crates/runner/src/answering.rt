//! One frame and its reply.
ghost use Rattle.std.specs.Prelude.{◌≡◌, ◌≤◌, ◌++◌, [], List, ℕ, IfErr, IfOk, OnErr, OnOk, length};
ghost use Rattle.std.specs.Io.KnownBytes.{Appends, Keeps};
ghost use Rattle.node_io.specs.Counts.{HasRisen};
ghost use Rattle.cri_msgs.specs.Written.{reply_text};
ghost use Rattle.cri_frames.specs.Frames.{IsLength, frame_of};
ghost use Rattle.runner.specs.declared.ending.ServeFault.{ServeFault};
ghost use Rattle.runner.specs.Gathered.{Gave};
ghost use Rattle.runner.specs.Connection.{Answers, IsServed, Talk};
ghost use Rattle.runner.specs.Steps.{CutsTalk, SendsPart};

use crate::ending::ServeFault;
use crate::gathering::gather_with;
use crate::service::{Host, Service};
use cri_frames::{frame_of, write_all};
use cri_msgs::{Answer, MessageFault, Refusal, Reply, Request, Version};
use node_io::{Files, Wire};
use std::alloc::{AllocError, Global};
use sys_table::CallTable;

/// Answers a frame of this version with this text.
pub(crate) fn answer<W: Wire, S: Files, P: Files, H: Host>(
    alloc: Global,
    calls: CallTable,
    wire: &mut W,
    service: &mut Service<S, P, H>,
    version: Version,
    text: &[u8],
) -> Result<(), ServeFault>
    requires { IsLength (length text.now) }
    ensures ok { OnOk result (Talk (Answers (Gave calls S.held S.failed) (Gave calls P.held P.failed) H.may) service.old
        service.new
        (frame_of version text.now) [] [] (W.output wire.old) (W.output wire.new)) }
    ensures cut { OnErr result (CutsTalk (Answers (Gave calls S.held S.failed) (Gave calls P.held P.failed) H.may)
        service.old service.new
        (frame_of version text.now) (W.output wire.old) (W.output wire.new)) }
    ensures failed { IfErr result (λ cut. cut ≡ ServeFault.Failed
        → HasRisen (W.failed wire.old) (W.failed wire.new)) }
    ensures counted { W.failed wire.old ≤ W.failed wire.new }
    ensures input { Keeps (W.input wire.old) (W.input wire.new) }
{
    let reply = reply_to(alloc, calls, service, version, text)?;
    send(alloc, wire, version, &reply)
}

// The reply to a text in a frame of this version. If memory runs out, the host was not called.
fn reply_to<S: Files, P: Files, H: Host>(
    alloc: Global,
    calls: CallTable,
    service: &mut Service<S, P, H>,
    version: Version,
    text: &[u8],
) -> Result<Reply, AllocError>
    ensures reply { IfOk result (λ reply. Answers (Gave calls S.held S.failed)
        (Gave calls P.held P.failed) H.may service.old
        (record { frame = (version, text.now); reply = reply }) service.new) }
    ensures err { OnErr result (service.new ≡ service.old) }
{
    match service.host.read(alloc, version, text) {
        Ok(request) => Ok(serve(calls, service, request)),
        Err(MessageFault::NoMessage(id)) => Ok(Reply {
            id,
            answer: Answer::Refused(Refusal::InvalidArgument),
        }),
        Err(MessageFault::Memory) => Err(AllocError),
    }
}

// Reads the files of a request, then serves it.
fn serve<S: Files, P: Files, H: Host>(
    calls: CallTable,
    service: &mut Service<S, P, H>,
    request: Request,
) -> Reply
    ensures { IsServed (Gave calls S.held S.failed) (Gave calls P.held P.failed) H.may service.old request result
        service.new }
{
    let files = gather_with(calls, &mut service.scripts, &mut service.profiles, &request);
    service.host.serve(request, files)
}

// Writes the frame of a reply.
fn send<W: Wire>(
    alloc: Global,
    wire: &mut W,
    version: Version,
    reply: &Reply,
) -> Result<(), ServeFault>
    ensures ok { OnOk result (Appends (W.output wire.old) (W.output wire.new)
        (frame_of version (reply_text version reply.now))) }
    ensures cut { OnErr result (SendsPart (frame_of version (reply_text version reply.now))
        (W.output wire.old) (W.output wire.new)) }
    ensures failed { IfErr result (λ cut. cut ≡ ServeFault.Failed
        → HasRisen (W.failed wire.old) (W.failed wire.new)) }
    ensures counted { W.failed wire.old ≤ W.failed wire.new }
    ensures input { Keeps (W.input wire.old) (W.input wire.new) }
{
    let text = reply.write(alloc, version)?;
    let frame = frame_of(alloc, version, text.as_slice())?;
    match write_all(wire, frame.as_slice()) {
        Ok(()) => Ok(()),
        Err(_) => Err(ServeFault::Failed),
    }
}

//! One connection, from its first byte to its last.
ghost use Rattle.std.specs.Prelude.{◌≡◌, ◌≤◌, ◌++◌, [], List, ℕ, IfErr, IfOk, OnErr, OnOk};
ghost use Rattle.std.specs.Io.KnownBytes.{Consumes, IsAtEnd, Keeps};
ghost use Rattle.node_io.specs.Counts.{HasRisen};
ghost use Rattle.cri_frames.specs.Frames.{BeginsNone};
ghost use Rattle.cri_frames.specs.Streams.{HasBadRest};
ghost use Rattle.runner.specs.declared.ending.ServeFault.{ServeFault};
ghost use Rattle.runner.specs.declared.ending.Ending.{Ending};
ghost use Rattle.runner.specs.Gathered.{Gave};
ghost use Rattle.runner.specs.Connection.{Answers, Ends, PartTalk, Talk};
ghost use Rattle.runner.specs.Steps.{CutsTalk, ReadsPiece};

use crate::answering::answer;
use crate::ending::{Ending, ServeFault};
use crate::service::{Host, Service};
use cri_frames::{Feed, FeedFault};
use node_io::{Files, Wire};
use std::alloc::Global;
use sys_table::CallTable;

// How many bytes are read at once.
const PIECE: usize = 4096;

/// Serves one connection to its end. Answers each frame, in order, with one frame of its version: the host's
/// reply to the frame's request and the results of its files, or the refusal InvalidArgument for a text that
/// is not a request. The files are read before the host is called. Their readers know these calls.
pub fn serve_wire<W: Wire, S: Files, P: Files, H: Host>(
    alloc: Global,
    calls: CallTable,
    wire: &mut W,
    service: &mut Service<S, P, H>,
) -> Ending
    // What was read, the reply to each frame in it, and what was written.
    ensures talk { Ends (Answers (Gave calls S.held S.failed) (Gave calls P.held P.failed) H.may) service.old service.new
        (W.input wire.old) (W.input wire.new) (W.output wire.old) (W.output wire.new) result }

    // A failure of the wire is reported only if it failed.
    ensures failed { result ≡ Ending.Failed → HasRisen (W.failed wire.old) (W.failed wire.new) }
    ensures counted { W.failed wire.old ≤ W.failed wire.new }
{
    match serve_all(alloc, calls, wire, service) {
        Ok(ending) => ending,
        Err(ServeFault::Failed) => Ending::Failed,
        Err(ServeFault::Memory) => Ending::Memory,
    }
}

fn serve_all<W: Wire, S: Files, P: Files, H: Host>(
    alloc: Global,
    calls: CallTable,
    wire: &mut W,
    service: &mut Service<S, P, H>,
) -> Result<Ending, ServeFault>
    ensures ending { IfOk result (Ends (Answers (Gave calls S.held S.failed) (Gave calls P.held P.failed) H.may)
        service.old service.new
        (W.input wire.old) (W.input wire.new) (W.output wire.old) (W.output wire.new)) }
    ensures good { IfOk result (λ ending. ending ≡ Ending.Failed → ⊥) }
    ensures cut { OnErr result (PartTalk (Answers (Gave calls S.held S.failed) (Gave calls P.held P.failed) H.may)
        service.old service.new
        (W.input wire.old) (W.input wire.new) (W.output wire.old) (W.output wire.new)) }
    ensures failed { IfErr result (λ cut. cut ≡ ServeFault.Failed
        → HasRisen (W.failed wire.old) (W.failed wire.new)) }
    ensures counted { W.failed wire.old ≤ W.failed wire.new }
{
    let mut feed = Feed::new(alloc);
    for _ in 0..u64::MAX {
        if read_piece(wire, &mut feed)? == 0 {
            return Ok(Ending::Ended);
        }
        answer_whole(alloc, calls, wire, service, &mut feed)?;
        if feed.has_failed() {
            return Ok(Ending::BadLength);
        }
    }
    // Not reached: no run makes 2^64 - 1 reads.
    Err(ServeFault::Memory)
}

// Reads the next bytes into the feed, and returns how many they were: 0 at the end.
fn read_piece<W: Wire>(wire: &mut W, feed: &mut Feed) -> Result<usize, ServeFault>
    requires { HasBadRest feed.old → ⊥ }
    ensures ok { IfOk result (ReadsPiece (W.input wire.old) (W.input wire.new) feed.old feed.new) }
    ensures cut { OnErr result ((more : List ℕ) × Consumes (W.input wire.old) (W.input wire.new) more) }
    ensures failed { IfErr result (λ cut. cut ≡ ServeFault.Failed
        → HasRisen (W.failed wire.old) (W.failed wire.new)) }
    ensures counted { W.failed wire.old ≤ W.failed wire.new }
    ensures output { Keeps (W.output wire.old) (W.output wire.new) }
{
    let mut piece = [0u8; PIECE];
    let Ok(count) = wire.read(&mut piece) else {
        return Err(ServeFault::Failed);
    };
    match feed.push(&piece[..count]) {
        Ok(()) | Err(FeedFault::BadLength) => Ok(count),
        Err(FeedFault::Memory) => Err(ServeFault::Memory),
    }
}

// Answers each whole frame in the feed.
fn answer_whole<W: Wire, S: Files, P: Files, H: Host>(
    alloc: Global,
    calls: CallTable,
    wire: &mut W,
    service: &mut Service<S, P, H>,
    feed: &mut Feed,
) -> Result<(), ServeFault>
    ensures ok { OnOk result (Talk (Answers (Gave calls S.held S.failed) (Gave calls P.held P.failed) H.may) service.old
        service.new
        feed.old feed.new [] (W.output wire.old) (W.output wire.new)) }
    ensures begins_none { OnOk result (BeginsNone feed.new) }
    ensures cut { OnErr result (CutsTalk (Answers (Gave calls S.held S.failed) (Gave calls P.held P.failed) H.may)
        service.old service.new
        feed.old (W.output wire.old) (W.output wire.new)) }
    ensures failed { IfErr result (λ cut. cut ≡ ServeFault.Failed
        → HasRisen (W.failed wire.old) (W.failed wire.new)) }
    ensures counted { W.failed wire.old ≤ W.failed wire.new }
    ensures input { Keeps (W.input wire.old) (W.input wire.new) }
{
    while let Some((version, text)) = feed.take() {
        answer(alloc, calls, wire, service, version, text.as_slice())?;
    }
    Ok(())
}

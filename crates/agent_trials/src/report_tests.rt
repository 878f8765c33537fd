ghost use Rattle.std.specs.Prelude.{◌≡◌, ◌<◌, IfOk, vec_len};
ghost use Rattle.node_lock.specs.declared.limits.TheConstants.{MAX_ENTRIES, PARTS};

use crate::loops::{Loop, LoopWire};
use crate::test_crews::{COUNTED, PODS, begun, runtime, worked};
use cri_frames::{Lost, call_over};
use cri_msgs::{Reply, Request, Version};
use node_io::{Wire, WireFault};
use node_lock::{Entry, MAX_ENTRIES, PARTS};
use runner::{Begun, Node};
use std::alloc::{AllocError, Global};
use std::marker::Brand;
use std::sync::ledger::{Blank, Ledger};
use std::sync::{Mutex, Wait};
use std::test::Fail;
use std::thread::Threads;
use std::time::Clock;
use worker_core::{AgentEvent, Answer, Reported};
use worker_crew::{Always, Peer};

// A wire that keeps what was read from it.
#[derive(Drop)]
struct Kept<'a, B: Node, R: Wait> {
    wire: LoopWire<'a, B, R>,
    read: Vec<u8>,
}

impl<B: Node, R: Wait> Wire for Kept<'_, B, R> {
    ghost failed = { λ kept. kept.wire.failures };

    fn read(&mut self, buf: &mut [u8]) -> Result<usize, WireFault> {
        let count = self.wire.read(buf)?;
        if let Some(bytes) = buf.get(..count) {
            let _ = self.read.extend_from_slice(bytes);
        }
        Ok(count)
    }

    fn write(&mut self, bytes: &[u8]) -> Result<usize, WireFault> {
        self.wire.write(bytes)
    }

    fn failures(&self) -> u64 {
        self.wire.failures()
    }
}

// What was read of the reply to a request.
#[derive(Drop)]
struct Came {
    request: u64,
    frame: Vec<u8>,
}

// Keeps the frames of all replies.
#[derive(Drop)]
struct Keeper<'a, B: Node, R: Wait> {
    rt: &'a R,
    alloc: Global,
    runtime: &'a Loop<B>,
    frames: &'a Mutex<Vec<Came>>,
}

impl<B: Node, R: Wait> Peer for Keeper<'_, B, R> {
    ghost use Rattle.std.specs.Prelude.{⊤};

    ghost may = { λ request outcome. ⊤ };

    fn call(&mut self, request: &Request) -> Result<Reply, Lost> {
        let mut wire = Kept {
            wire: self.runtime.wire(self.rt),
            read: Vec::new(self.alloc),
        };
        let came = call_over(self.alloc, &mut wire, request, Version::V1);
        let Kept { read, .. } = wire;
        let mut frames = self.frames.lock(self.rt);
        let _ = frames.push(Came {
            request: request.id,
            frame: read,
        });
        came
    }
}

fn keepers<'a, B: Node, R: Wait>(
    rt: &'a R,
    alloc: Global,
    runtime: &'a Loop<B>,
    frames: &'a Mutex<Vec<Came>>,
) -> Result<Vec<Keeper<'a, B, R>>, AllocError>
    ensures { IfOk result (λ peers. vec_len peers < PARTS) }
{
    let mut peers = Vec::new(alloc);
    for _ in 0..4u32 {
        peers.push(Keeper {
            rt,
            alloc,
            runtime,
            frames,
        })?;
    }
    Ok(peers)
}

// The number of the request that the worker was given last before this place.
fn given(history: &[Entry], place: usize, worker: u32) -> Option<u64> {
    let before = history.get(..place)?;
    for entry in before.iter().rev() {
        if entry.worker == worker {
            return match &entry.answer {
                Answer::Claimed { number, .. } => Some(*number),
                _ => None,
            };
        }
    }
    None
}

// The reply in a frame, if it is whole.
fn reply_in(alloc: Global, frame: &[u8]) -> Option<Reply> {
    Reply::read(alloc, Version::V1, frame.get(4..)?).ok()
}

// Whether this is the right report for a request whose reply came in this frame.
fn is_told(alloc: Global, told: &Reported, frame: &[u8]) -> bool {
    match (told, reply_in(alloc, frame)) {
        (Reported::Replied(reply), Some(came)) => came.same(reply),
        (Reported::Lost, None) => true,
        _ => false,
    }
}

// How many reports there are, and how many of them match their frames.
fn reports(alloc: Global, history: &[Entry], frames: &[Came]) -> (u32, u32) {
    let mut all: u32 = 0;
    let mut right: u32 = 0;
    for (place, entry) in history.iter().enumerate() {
        if let AgentEvent::Report(worker, told) = &entry.event {
            all = all.saturating_add(1);
            let number = given(history, place, *worker).unwrap_or(0);
            let came = frames.iter().find(|came| came.request == number);
            if came.is_some_and(|came| is_told(alloc, told, came.frame.as_slice())) {
                right = right.saturating_add(1);
            }
        }
    }
    (all, right)
}

fn compared<L: Ledger + Send + Sync, B: Node + Send + Sync, R: Threads + Wait + Clock + Sync>(
    rt: &R,
    alloc: Global,
    failing: u64,
    blank: Blank,
    node: Begun,
) -> Result<(u32, u32), Fail>
    requires name { blank.name ≡ L.name }
    requires parts { blank.parts ≡ L.parts }
    requires all { blank.parts ≡ PARTS }
    requires node { node ≡ (B.filter, B.table) }
{
    let runtime = runtime::<B>(alloc, node, failing, 0, 0)?;
    let frames = Mutex::new(Vec::new(alloc));
    let (shared, coordinator) = begun::<L, R>(rt, alloc, Version::V1, PODS, MAX_ENTRIES, blank)?;
    let peers = keepers(rt, alloc, &runtime, &frames)?;
    let (_, tally) = worked(
        rt,
        alloc,
        &runtime,
        &shared,
        coordinator,
        peers,
        &Always,
        COUNTED,
    );
    drop(tally);
    let book = shared.into_book();
    let frames = frames.into_inner();
    Ok(reports(alloc, book.history(), frames.as_slice()))
}

fn compares<R: Threads + Wait + Clock + Sync>(
    rt: &R,
    alloc: Global,
    failing: u64,
) -> Result<(u32, u32), Fail> {
    let node = Begun::new(alloc, None)?;
    compared::<Brand, Brand, R>(rt, alloc, failing, Blank::new(PARTS), node)
}

// Each report has the reply from its call's frame, or reports that none came. There are at least twenty: the
// sandboxes of three pods, and of five attempts the creation, the start and a status, and two removals.
#[test]
fn reports_are_what_came(rt: HostRuntime) -> Result<(), Fail> {
    for failing in 0..30 {
        let (all, right) = compares(&rt, rt.alloc(), failing)?;
        assert!(rt; all >= 20 && all == right, "{right} of {all}, {failing}");
    }
    Ok(())
}

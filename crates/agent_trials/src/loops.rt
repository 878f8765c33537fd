//! A runtime that calls reach without a socket, and whose wires can be made to fail.
ghost use Rattle.std.specs.Prelude.{◌≡◌, ◌≤◌, length};
ghost use Rattle.node_io.specs.Counts.{HasRisen};
ghost use Rattle.cri_frames.specs.Frames.{IsLength};

use cri_frames::{Feed, FeedFault, Lost, call_over, frame_of};
use cri_msgs::{Reply, Request, Version};
use node_io::{FileFault, Files, MemoryFiles, MemoryWire, Wire, WireFault};
use runner::{Begun, Node, Service, serve_wire};
use runtime_server::{RuntimeHost, RuntimeThreads};
use std::alloc::{AllocError, Global};
use std::sync::atomic::{AtomicU64, Ordering};
use std::sync::{Mutex, Wait};
use sys_table::CallTable;
use worker_crew::{Counterpart, Peer};

// How many bytes of a reply a wire has room for.
const PLACE: usize = 1 << 14;

/// A runtime whose files are in memory, and the count of the reads and writes of all wires to it.
#[derive(Drop)]
pub(crate) struct Loop<B: Node> {
    alloc: Global,
    pub(crate) threads: RuntimeThreads<B>,
    scripts: Mutex<MemoryFiles>,
    profiles: Mutex<MemoryFiles>,
    moves: AtomicU64,
    // The number of the one that fails, and every how many one fails (0: none).
    failing: AtomicU64,
    every: AtomicU64,
}

impl<B: Node> Loop<B> {
    /// A runtime that has served nothing. No read or write fails.
    pub(crate) fn new(
        alloc: Global,
        node: Begun,
        scripts: MemoryFiles,
        profiles: MemoryFiles,
    ) -> Loop<B>
        requires { node ≡ (B.filter, B.table) }
    {
        Loop {
            alloc,
            threads: RuntimeThreads::new(alloc, node, None),
            scripts: Mutex::new(scripts),
            profiles: Mutex::new(profiles),
            moves: AtomicU64::new(0),
            failing: AtomicU64::new(0),
            every: AtomicU64::new(0),
        }
    }

    /// Makes the n-th read or write from the start fail once, on any wire. It moves nothing.
    pub(crate) fn fail_call(&self, n: u64) {
        self.failing.store(n, Ordering::SeqCst);
    }

    /// Makes every n-th read or write fail, on any wire. It moves nothing.
    pub(crate) fn fail_every(&self, n: u64) {
        self.every.store(n, Ordering::SeqCst);
    }

    /// How many reads and writes there were.
    pub(crate) fn moves(&self) -> u64 {
        self.moves.load(Ordering::SeqCst)
    }

    // Counts a read or a write, and returns whether it fails.
    fn fails(&self) -> bool {
        let number = self.moves.fetch_add(1, Ordering::SeqCst).wrapping_add(1);
        let every = self.every.load(Ordering::SeqCst);
        number == self.failing.load(Ordering::SeqCst) || number.checked_rem(every) == Some(0)
    }

    /// A new wire to the runtime.
    pub(crate) fn wire<'a, R: Wait>(&'a self, rt: &'a R) -> LoopWire<'a, B, R> {
        LoopWire {
            rt,
            runtime: self,
            feed: Feed::new(self.alloc),
            reply: Vec::new(self.alloc),
            taken: 0,
            failures: 0,
        }
    }
}

/// The wait of the clock: until each of this many runners is idle.
#[derive(Drop)]
pub(crate) struct Idle<'a, B: Node, R: Wait> {
    pub(crate) rt: &'a R,
    pub(crate) runtime: &'a Loop<B>,
    pub(crate) runners: u32,
}

impl<B: Node, R: Wait> Counterpart for Idle<'_, B, R> {
    fn wait_idle(&self) {
        self.runtime.threads.wait_idle(self.rt, self.runners);
    }

    // A call in memory comes back by itself.
    fn end_calls(&self) {}
}

// Files that threads share.
#[derive(Drop)]
struct SharedFiles<'a, R: Wait> {
    rt: &'a R,
    files: &'a Mutex<MemoryFiles>,
    failures: u64,
}

impl<R: Wait> Files for SharedFiles<'_, R> {
    ghost failed = { λ shared_files. shared_files.failures };

    fn read(&mut self, path: &str, limit: u64) -> Result<Vec<u8>, FileFault> {
        let read = self.files.lock(self.rt).read(path, limit);
        if let Err(FileFault::Failed) = read {
            self.failures = self.failures.saturating_add(1);
        }
        read
    }

    fn failures(&self) -> u64 {
        self.failures
    }
}

/// A wire to a runtime in this process. The first read after a whole frame serves it.
#[derive(Drop)]
pub(crate) struct LoopWire<'a, B: Node, R: Wait> {
    rt: &'a R,
    runtime: &'a Loop<B>,
    feed: Feed,
    reply: Vec<u8>,
    taken: usize,
    failures: u64,
}

impl<'a, B: Node, R: Wait> LoopWire<'a, B, R> {
    fn fault(&mut self) -> WireFault
        ensures risen { HasRisen self.old.failures self.new.failures }
        ensures counted { self.old.failures ≤ self.new.failures }
    {
        self.failures = self.failures.saturating_add(1);
        WireFault
    }

    // What the runtime answers to a frame.
    fn served(&self, version: Version, text: &[u8]) -> Result<Vec<u8>, AllocError>
        requires { IsLength (length text.now) }
    {
        let alloc = self.runtime.alloc;
        let frame = frame_of(alloc, version, text)?;
        let piece = frame.len().max(1);
        let mut wire = MemoryWire::new(alloc, frame, piece, PLACE)?;
        let mut service = self.service();
        serve_wire(alloc, CallTable::Linux5_8, &mut wire, &mut service);
        Vec::from_slice(alloc, wire.written())
    }

    fn service(&self) -> Service<SharedFiles<'a, R>, SharedFiles<'a, R>, RuntimeHost<'a, B, R>> {
        Service {
            scripts: self.shared_files(&self.runtime.scripts),
            profiles: self.shared_files(&self.runtime.profiles),
            host: self.runtime.threads.host(self.rt),
        }
    }

    fn shared_files(&self, files: &'a Mutex<MemoryFiles>) -> SharedFiles<'a, R> {
        SharedFiles {
            rt: self.rt,
            files,
            failures: 0,
        }
    }
}

// Moves bytes that were not taken yet to the front of `buf`, and returns how many.
fn give(reply: &[u8], buf: &mut [u8]) -> usize
    ensures within { result ≤ length buf.new }
    ensures room { length buf.new ≡ length buf.old }
{
    let count = buf.len().min(reply.len());
    buf[..count].copy_from_slice(&reply[..count]);
    count
}

// The model of this wire states nothing about its bytes.
impl<B: Node, R: Wait> Wire for LoopWire<'_, B, R> {
    ghost failed = { λ wire. wire.failures };

    fn read(&mut self, buf: &mut [u8]) -> Result<usize, WireFault> {
        if self.runtime.fails() {
            return Err(self.fault());
        }
        if let Some((version, text)) = self.feed.take() {
            let Ok(reply) = self.served(version, text.as_slice()) else {
                return Err(self.fault());
            };
            self.reply = reply;
            self.taken = 0;
        }
        let left = self.reply.as_slice().get(self.taken..).unwrap_or(&[]);
        let count = give(left, buf);
        self.taken = self.taken.saturating_add(count);
        Ok(count)
    }

    fn write(&mut self, bytes: &[u8]) -> Result<usize, WireFault> {
        if self.runtime.fails() {
            return Err(self.fault());
        }
        match self.feed.push(bytes) {
            Ok(()) | Err(FeedFault::BadLength) => Ok(bytes.len()),
            Err(FeedFault::Memory) => Err(self.fault()),
        }
    }

    fn failures(&self) -> u64 {
        self.failures
    }
}

/// The runtime of a loop. Each call has a wire of its own.
#[derive(Drop)]
pub(crate) struct LoopPeer<'a, B: Node, R: Wait> {
    rt: &'a R,
    runtime: &'a Loop<B>,
    version: Version,
}

impl<'a, B: Node, R: Wait> LoopPeer<'a, B, R> {
    /// A peer that answers by this runtime, with messages of this version.
    pub(crate) fn new(rt: &'a R, runtime: &'a Loop<B>, version: Version) -> LoopPeer<'a, B, R> {
        LoopPeer {
            rt,
            runtime,
            version,
        }
    }
}

impl<B: Node, R: Wait> Peer for LoopPeer<'_, B, R> {
    ghost use Rattle.std.specs.Prelude.{◌≡◌, IfOk};

    // A reply has the number of its request.
    ghost may = { λ request outcome. IfOk outcome (λ reply. reply.id ≡ request.id) };

    fn call(&mut self, request: &Request) -> Result<Reply, Lost> {
        let mut wire = self.runtime.wire(self.rt);
        call_over(self.runtime.alloc, &mut wire, request, self.version)
    }
}

ghost use Rattle.std.specs.Prelude.{◌≡◌};

use cri_frames::frame_of;
use cri_msgs::{MAX_TEXT, Version};
use node_io::{MemoryFiles, MemoryWire, StoredFile};
use runner::{Begun, Callers, Client, Node, Service, SharedHost, SharedRuntime, serve_wire};
use std::alloc::{AllocError, Global};
use std::sync::Wait;
use sys_table::CallTable;

/// A runtime that threads share, with the maker of its callers.
#[derive(Drop)]
pub(crate) struct Shared<B: Node> {
    pub(crate) shared: SharedRuntime<B>,
    callers: Callers<B>,
}

impl<B: Node> Shared<B> {
    pub(crate) fn new(alloc: Global, begun: Begun) -> Shared<B>
        requires { begun ≡ (B.filter, B.table) }
    {
        let (shared, callers) = SharedRuntime::new(alloc, begun);
        Shared { shared, callers }
    }

    pub(crate) fn client(&self) -> Client<B> {
        self.shared.client(&self.callers)
    }

    pub(crate) fn host<'a, R: Wait>(&'a self, rt: &'a R) -> SharedHost<'a, B, R> {
        SharedHost::new(rt, &self.shared, &self.callers)
    }
}

pub(crate) const CALLS: &str =
    "{\"steps\":[{\"call\":\"getpid\"},{\"call\":\"ptrace\"},{\"exit\":3}]}";

const NO_PTRACE: &str = "{\"defaultAction\":\"SCMP_ACT_ALLOW\",\"syscalls\":[\
    {\"names\":[\"ptrace\"],\"action\":\"SCMP_ACT_ERRNO\",\"errnoRet\":13}]}";

pub(crate) const SCRIPTS: [(&str, &str); 2] = [("a.json", CALLS), ("b.json", CALLS)];

pub(crate) const PROFILES: [(&str, &str); 1] = [("p.json", NO_PTRACE)];

// Files with these paths and texts.
pub(crate) fn files(alloc: Global, texts: &[(&str, &str)]) -> Result<MemoryFiles, AllocError> {
    let mut files = Vec::new(alloc);
    for &(path, text) in texts {
        let path = String::from_str(alloc, path)?;
        let bytes = Vec::from_slice(alloc, text.as_bytes())?;
        files.push(StoredFile::new(path, bytes))?;
    }
    Ok(MemoryFiles::new(files))
}

// The version of a frame whose text is this: that of its `v`, or 1 if there is none.
fn version_of(text: &str) -> Version {
    if text.ends_with("\"v\":2}") {
        Version::V2
    } else {
        Version::V1
    }
}

// Adds the frame of a text. A text too long for a frame adds nothing.
pub(crate) fn add(stream: &mut Vec<u8>, alloc: Global, text: &str) -> Result<(), AllocError> {
    if text.is_empty() || text.len() > MAX_TEXT {
        return Ok(());
    }
    let frame = frame_of(alloc, version_of(text), text.as_bytes())?;
    stream.extend_from_slice(frame.as_slice())
}

// A host with the files above.
pub(crate) fn service<H: Drop>(
    alloc: Global,
    host: H,
) -> Result<Service<MemoryFiles, MemoryFiles, H>, AllocError> {
    let scripts = files(alloc, &SCRIPTS)?;
    let profiles = files(alloc, &PROFILES)?;
    Ok(Service {
        scripts,
        profiles,
        host,
    })
}

// How many bytes of replies a wire has room for.
const PLACE: usize = 1 << 20;

// A wire with this input, which comes in pieces of this size, and whose call with this number fails.
pub(crate) fn wire(
    alloc: Global,
    input: &[u8],
    piece: usize,
    failing: u64,
) -> Result<MemoryWire, AllocError> {
    let input = Vec::from_slice(alloc, input)?;
    let mut wire = MemoryWire::new(alloc, input, piece.max(1), PLACE)?;
    wire.fail_call(failing);
    Ok(wire)
}

// Serves the requests of these texts, one per line, over a wire, and returns what was written.
pub(crate) fn asks<B: Node, R: Wait>(
    rt: &R,
    alloc: Global,
    runtime: &Shared<B>,
    texts: &str,
) -> Result<Vec<u8>, AllocError> {
    let mut input = Vec::new(alloc);
    for text in texts.lines() {
        add(&mut input, alloc, text)?;
    }
    let mut wire = wire(alloc, input.as_slice(), 20, 0)?;
    let mut service = service(alloc, runtime.host(rt))?;
    serve_wire(alloc, CallTable::Linux5_8, &mut wire, &mut service);
    Vec::from_slice(alloc, wire.written())
}

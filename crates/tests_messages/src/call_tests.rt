use cri_frames::{Lost, call_over};
use cri_msgs::{Answer, Reply, Request, Version};
use node_io::MemoryWire;
use std::alloc::Global;

const RUN_POD: &str = "\0\0\0\x30{\"call\":\"RunPodSandbox\",\"id\":1,\"uid\":\"u1\",\"v\":1}";

const DONE: &str = "\0\0\0\x16{\"id\":1,\"ok\":{},\"v\":1}";

// The result of a call.
#[derive(Clone, Copy, PartialEq, Eq)]
enum Came {
    Done,
    Other,
    Lost(Lost),
}

fn came_of(outcome: Result<Reply, Lost>) -> Came {
    match outcome {
        Ok(reply) => match reply.answer {
            Answer::Done => Came::Done,
            _ => Came::Other,
        },
        Err(lost) => Came::Lost(lost),
    }
}

// The request in a frame.
fn request_in(alloc: Global, version: Version, frame: &str) -> Option<Request> {
    let text = frame.as_bytes().get(4..)?;
    Request::read(alloc, version, text).ok()
}

// A wire with this input, which comes in pieces of this size, and whose call with this number fails.
fn wire(alloc: Global, input: &[u8], piece: usize, failing: u64) -> Option<MemoryWire> {
    let input = Vec::from_slice(alloc, input).ok()?;
    let mut wire = MemoryWire::new(alloc, input, piece.max(1), 1024).ok()?;
    wire.fail_call(failing);
    Some(wire)
}

fn over(alloc: Global, wire: &mut MemoryWire, request: &Request, version: Version) -> Came {
    came_of(call_over(alloc, wire, request, version))
}

// The result for the request in this frame, and how many of the frame's bytes were written.
fn called(
    alloc: Global,
    version: Version,
    frame: &str,
    input: &[u8],
    piece: usize,
    failing: u64,
) -> Option<(Came, usize)> {
    let request = request_in(alloc, version, frame)?;
    let mut wire = wire(alloc, input, piece, failing)?;
    let came = over(alloc, &mut wire, &request, version);
    let written = wire.written();
    if frame.as_bytes().starts_with(written) {
        Some((came, written.len()))
    } else {
        None
    }
}

// The results of two calls over one wire, which has both replies from the start.
fn called_twice(alloc: Global) -> Option<(Came, Came)> {
    let replies = "\0\0\0\x16{\"id\":1,\"ok\":{},\"v\":1}\x02\0\0\x16{\"id\":9,\"ok\":{},\"v\":2}";
    let asked = "\x02\0\0\x30{\"call\":\"ListContainers\",\"id\":9,\"uid\":\"u1\",\"v\":2}";
    let first = request_in(alloc, Version::V1, RUN_POD)?;
    let second = request_in(alloc, Version::V2, asked)?;
    let mut wire = wire(alloc, replies.as_bytes(), 1000, 0)?;
    Some((
        over(alloc, &mut wire, &first, Version::V1),
        over(alloc, &mut wire, &second, Version::V2),
    ))
}

#[test]
fn calls(rt: HostRuntime) {
    // 52 bytes go out in three writes, 26 come in three reads: each fails once.
    let cases = [
        (0, Came::Done, 52),
        (1, Came::Lost(Lost::WriteFailed(0)), 0),
        (2, Came::Lost(Lost::WriteFailed(20)), 20),
        (3, Came::Lost(Lost::WriteFailed(40)), 40),
        (4, Came::Lost(Lost::ReadFailed), 52),
        (5, Came::Lost(Lost::ReadFailed), 52),
        (6, Came::Lost(Lost::ReadFailed), 52),
        (7, Came::Done, 52),
    ];
    for (failing, came, count) in cases {
        let found = called(
            rt.alloc(),
            Version::V1,
            RUN_POD,
            DONE.as_bytes(),
            20,
            failing,
        );
        assert!(rt; found == Some((came, count)), "call {failing} failing");
    }

    // A reply is a frame of the request's version with its number.
    let bad = Came::Lost(Lost::BadFrame);
    let wrong = Came::Lost(Lost::WrongNumber);
    let ended = Came::Lost(Lost::Ended);
    let cases = [
        (DONE, Came::Done),
        ("\0\0\0\x1a{\"id\":1,\"refused\":9,\"v\":1}", Came::Other),
        ("\0\0\0\x16{\"id\":2,\"ok\":{},\"v\":1}", wrong),
        ("\0\0\0\x1a{\"id\":2,\"refused\":9,\"v\":1}", wrong),
        ("\x02\0\0\x16{\"id\":1,\"ok\":{},\"v\":2}", bad),
        ("\x02\0\0\x16{\"id\":2,\"ok\":{},\"v\":2}", bad),
        ("\0\0\0\x16{\"id\":1,\"ok\":{},\"v\":2}", bad),
        ("\0\0\0\x02{}", bad),
        ("\0\0\0\0", bad),
        ("\0\x10\0\x01", bad),
        ("\x03\0\0\x01", bad),
        ("\x02\0\0\0", bad),
        ("\0\x10\0\0{}", ended),
        ("\x03\0\0", ended),
    ];
    for (input, came) in cases {
        for piece in [1, 20, 1000] {
            let found = called(rt.alloc(), Version::V1, RUN_POD, input.as_bytes(), piece, 0);
            assert!(rt; found == Some((came, 52)), "{input:?} in pieces of {piece}");
        }
    }
    let done = DONE.as_bytes();
    for cut in 0..done.len() {
        let found = called(rt.alloc(), Version::V1, RUN_POD, &done[..cut], 20, 0);
        assert!(rt; found == Some((ended, 52)), "cut at {cut}");
    }

    let newer = "\x02\0\0\x30{\"call\":\"RunPodSandbox\",\"id\":1,\"uid\":\"u1\",\"v\":2}";
    let reply = "\x02\0\0\x16{\"id\":1,\"ok\":{},\"v\":2}";
    let found = called(rt.alloc(), Version::V2, newer, reply.as_bytes(), 20, 0);
    assert!(rt; found == Some((Came::Done, 52)));
    let found = called(rt.alloc(), Version::V2, newer, done, 20, 0);
    assert!(rt; found == Some((bad, 52)));

    // No byte after a reply is read: the next call finds its own.
    assert!(rt; called_twice(rt.alloc()) == Some((Came::Done, Came::Done)));
}

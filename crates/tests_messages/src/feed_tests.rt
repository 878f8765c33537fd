use cri_frames::{Feed, FeedFault, frame_of};
use cri_msgs::{MAX_TEXT, Version};
use std::alloc::{AllocError, Global};

// Requests and replies, each after its frame's four bytes.
const FRAMES: [&str; 9] = [
    "\0\0\0\x30{\"call\":\"RunPodSandbox\",\"id\":1,\"uid\":\"u1\",\"v\":1}",
    "\0\0\0\x16{\"id\":1,\"ok\":{},\"v\":1}",
    "\0\0\0\x4c{\"attempt\":0,\"call\":\"ContainerStatus\",\"id\":2,\"name\":\"main\",\"uid\":\"u1\",\
     \"v\":1}",
    "\0\0\0\x4c{\"id\":2,\"ok\":{\"denied\":0,\"exit\":null,\"performed\":0,\"state\":\"CREATED\"},\"v\":1}",
    "\0\0\0\x02{}",
    "\x02\0\0\x30{\"call\":\"RunPodSandbox\",\"id\":1,\"uid\":\"u1\",\"v\":2}",
    "\x02\0\0\x16{\"id\":1,\"ok\":{},\"v\":2}",
    "\x02\0\0\x34{\"call\":\"ContainerStatuses\",\"id\":9,\"uid\":\"u1\",\"v\":2}",
    "\x02\0\0\x75{\"id\":9,\"ok\":{\"statuses\":[{\"attempt\":0,\"denied\":0,\"exit\":null,\
     \"name\":\"main\",\"performed\":0,\"state\":\"RUNNING\"}]},\"v\":2}",
];

// Pushes a piece, and again if an allocation fails, which leaves the feed as it was.
fn push(feed: &mut Feed, piece: &[u8]) -> Result<(), FeedFault> {
    match feed.push(piece) {
        Err(FeedFault::Memory) => feed.push(piece),
        pushed => pushed,
    }
}

// Adds a frame's bytes as they were pushed.
fn add(taken: &mut Vec<u8>, version: Version, text: &[u8]) -> Result<(), AllocError> {
    let length = text.len() as u64;
    taken.push(match version {
        Version::V1 => 0,
        Version::V2 => 2,
    })?;
    taken.extend_from_slice(&length.to_be_bytes()[5..])?;
    taken.extend_from_slice(text)
}

fn take_all(feed: &mut Feed, taken: &mut Vec<u8>) -> Result<(), AllocError> {
    for _ in 0..1_000 {
        match feed.take() {
            Some((version, text)) => add(taken, version, text.as_slice())?,
            None => return Ok(()),
        }
    }
    Ok(())
}

// Pushes a piece and adds the frames that are whole then.
fn pass(feed: &mut Feed, piece: &[u8], taken: &mut Vec<u8>) -> bool {
    push(feed, piece).is_ok() && take_all(feed, taken).is_ok()
}

fn all_frames(alloc: Global) -> Result<Vec<u8>, AllocError> {
    let mut stream = Vec::new(alloc);
    for frame in FRAMES {
        stream.extend_from_slice(frame.as_bytes())?;
    }
    Ok(stream)
}

// Whether a stream in pieces of this size is taken as it is.
fn is_passed(alloc: Global, stream: &[u8], size: usize) -> bool {
    let mut feed = Feed::new(alloc);
    let mut taken = Vec::new(alloc);
    for piece in stream.chunks(size.max(1)) {
        if !pass(&mut feed, piece, &mut taken) {
            return false;
        }
    }
    taken.as_slice() == stream
}

// Whether a frame that is cut there is taken with its second part, and nothing before.
fn is_taken_whole(alloc: Global, frame: &[u8], cut: usize) -> bool {
    let (front, back) = frame.split_at(cut.min(frame.len()));
    let mut feed = Feed::new(alloc);
    let mut early = Vec::new(alloc);
    let mut taken = Vec::new(alloc);
    pass(&mut feed, front, &mut early)
        && pass(&mut feed, back, &mut taken)
        && early.is_empty()
        && taken.as_slice() == frame
}

// After a frame: the results of pushing three bytes, the fourth, and none; and whether just the frame is
// taken then.
fn answers(alloc: Global, head: u32) -> (bool, bool, bool, bool) {
    let bytes = head.to_be_bytes();
    let mut feed = Feed::new(alloc);
    let mut taken = Vec::new(alloc);
    let before = push(&mut feed, "\0\0\0\x02{}".as_bytes());
    let third = push(&mut feed, &bytes[..3]);
    let fourth = push(&mut feed, &bytes[3..]);
    let again = push(&mut feed, &[]);
    let is_taken = take_all(&mut feed, &mut taken).is_ok();
    (
        before.is_ok() && third.is_ok(),
        fourth == Err(FeedFault::BadLength),
        again == Err(FeedFault::BadLength),
        is_taken && taken.as_slice() == "\0\0\0\x02{}".as_bytes(),
    )
}

// Whether a frame of the greatest length is passed on, and its head.
fn longest(alloc: Global) -> Option<(bool, u32)> {
    let text = vec![in alloc; b'x'; MAX_TEXT].ok()?;
    let frame = frame_of(alloc, Version::V2, text.as_slice()).ok()?;
    let head = frame.first_chunk::<4>()?;
    Some((
        is_passed(alloc, frame.as_slice(), 4096),
        u32::from_be_bytes(*head),
    ))
}

// One function, as each test is proved with all that it calls.
#[test]
fn streams(rt: HostRuntime) {
    let stream = all_frames(rt.alloc()).expect(&rt, "memory");
    for size in [1, 2, 3, 5, 48, 52, 100, 1000] {
        assert!(rt;
            is_passed(rt.alloc(), stream.as_slice(), size),
            "pieces of {size}"
        );
    }
    for frame in FRAMES {
        for cut in 0..frame.len() {
            assert!(rt;
                is_taken_whole(rt.alloc(), frame.as_bytes(), cut),
                "cut at {cut}"
            );
        }
    }
    let cases = [
        (0x0010_0001, true),
        (0x0300_0001, true),
        (0x0200_0000, true),
        (0x0210_0001, true),
        (0x0000_0000, true),
        (0x0100_0001, true),
        (0xffff_ffff, true),
        (0x00ff_ffff, true),
        (0x0010_0000, false),
        (0x0210_0000, false),
        (0x0000_0001, false),
        (0x0200_0001, false),
    ];
    for (head, is_bad) in cases {
        let found = answers(rt.alloc(), head);
        assert!(rt; found == (true, is_bad, is_bad, true), "{head:08x}");
    }
    assert!(rt; longest(rt.alloc()) == Some((true, 0x0210_0000)));
}

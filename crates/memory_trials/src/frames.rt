//! Frames from a stream, and calls over a wire.
ghost use Rattle.std.specs.Prelude.{◌≡◌, ◌≤◌, length};

use crate::requests::request_of;
use cri_frames::{Feed, FeedFault, Lost, call_over};
use cri_msgs::{Answer, Reply, Request, Version};
use node_io::{Wire, WireFault};
use std::alloc::Global;
use trials::{CallResult, Trial, TrialResult, try_call};

/// Tries the call of this name, if it is one of this module's.
pub(crate) fn run_trial(rt: &HostRuntime, name: &str) -> Option<TrialResult> {
    let alloc = rt.alloc();
    match name {
        "Feed::push" => Some(try_call(rt, Feeds::new(alloc))),
        "Feed::take" => Some(try_call(rt, Takes::new(alloc))),
        "call_over" => Some(try_call(rt, Calls::new(alloc))),
        _ => None,
    }
}

const RUN: &str = "{\"call\":\"RunPodSandbox\",\"id\":1,\"uid\":\"u1\",\"v\":2}";

/// What a feed has before: a whole frame, and the beginning of one.
const BEFORE: &str = "\x02\0\0\x02{}\x02\0\0\x07one";

/// What is pushed: the rest of that frame, two frames more, and the beginning of another.
const PIECE: &str = "\x20two\x02\0\0\x05three\0\0\0\x04four\x02\0\0\x09fiv";

/// The texts of all of these.
const TEXTS: [&str; 4] = ["{}", "one two", "three", "four"];

/// `Feed::push`.
#[derive(Drop)]
struct Feeds {
    feed: Feed,
}

impl Feeds {
    fn new(alloc: Global) -> Option<Feeds> {
        let mut feed = Feed::new(alloc);
        feed.push(BEFORE.as_bytes()).ok()?;
        Some(Feeds { feed })
    }
}

/// Whether these texts, and no more, are taken from the feed.
fn gives(feed: &mut Feed, texts: &[&str]) -> bool {
    for text in texts {
        match feed.take() {
            Some((_, found)) => {
                if found.as_slice() != text.as_bytes() {
                    return false;
                }
            }
            None => return false,
        }
    }
    feed.take().is_none() && !feed.has_failed()
}

impl Trial for Feeds {
    type Answer = Result<(), FeedFault>;

    fn call(&mut self) -> Result<(), FeedFault> {
        self.feed.push(PIECE.as_bytes())
    }

    fn check(&mut self, answer: &Result<(), FeedFault>) -> CallResult {
        match answer {
            Ok(()) => CallResult::right_if(gives(&mut self.feed, &TEXTS)),
            Err(FeedFault::Memory) => CallResult::Memory,
            Err(FeedFault::BadLength) => CallResult::Wrong,
        }
    }

    // The feed's contents show after the next push.
    fn is_unchanged(&mut self) -> bool {
        !self.feed.has_failed()
    }
}

/// `Feed::take`, which takes no memory.
#[derive(Drop)]
struct Takes {
    feed: Feed,
}

impl Takes {
    fn new(alloc: Global) -> Option<Takes> {
        let mut feed = Feed::new(alloc);
        feed.push(BEFORE.as_bytes()).ok()?;
        feed.push(PIECE.as_bytes()).ok()?;
        Some(Takes { feed })
    }
}

impl Trial for Takes {
    type Answer = bool;

    fn call(&mut self) -> bool {
        gives(&mut self.feed, &TEXTS)
    }

    fn check(&mut self, answer: &bool) -> CallResult {
        CallResult::right_if(*answer)
    }
}

/// The reply to `RUN`.
const DONE: &str = "\x02\0\0\x16{\"id\":1,\"ok\":{},\"v\":2}";

/// A wire that takes whatever is written, and returns a reply for each request. Allocates nothing.
#[derive(Clone, Copy)]
struct Line {
    taken: usize,
}

/// Moves bytes from the front of `from` to the front of `buf`, and returns how many.
fn give(from: &[u8], buf: &mut [u8]) -> usize
    ensures within { result ≤ length buf.new }
    ensures room { length buf.new ≡ length buf.old }
{
    let count = buf.len().min(from.len());
    buf[..count].copy_from_slice(&from[..count]);
    count
}

impl Wire for Line {
    ghost failed = { λ _. 0 };

    fn read(&mut self, buf: &mut [u8]) -> Result<usize, WireFault> {
        let count = give(DONE.as_bytes().get(self.taken..).unwrap_or(&[]), buf);
        self.taken = self.taken.saturating_add(count);
        Ok(count)
    }

    fn write(&mut self, bytes: &[u8]) -> Result<usize, WireFault> {
        Ok(bytes.len())
    }

    fn failures(&self) -> u64 {
        0
    }
}

/// `call_over`. A wire on which a call was lost is not used again, so each call has its own.
#[derive(Drop)]
struct Calls {
    alloc: Global,
    request: Request,
}

impl Calls {
    fn new(alloc: Global) -> Option<Calls> {
        let request = request_of(alloc, RUN)?;
        Some(Calls { alloc, request })
    }
}

impl Trial for Calls {
    type Answer = Result<Reply, Lost>;

    fn call(&mut self) -> Result<Reply, Lost> {
        let mut line = Line { taken: 0 };
        call_over(self.alloc, &mut line, &self.request, Version::V2)
    }

    fn check(&mut self, answer: &Result<Reply, Lost>) -> CallResult {
        match answer {
            Ok(reply) => CallResult::right_if(
                reply.id == 1 && matches!(&reply.answer, Answer::Done),
            ),
            Err(Lost::Memory) => CallResult::Memory,
            Err(_) => CallResult::Wrong,
        }
    }
}

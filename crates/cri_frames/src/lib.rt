//! Frames: how messages cross a socket, in whatever pieces their bytes come.
//!
//! # What is proved
//!
//! - A stream in any pieces is split into exactly its frames, in order, and has no others: `Feed::push` (ok,
//!   good), `take` (text, first, none, same), `streams_split_one_way` (some, only).
//! - A bad length is reported only if there is one, and then for good: `Feed::push` (bad_length, fails,
//!   failed), `bad_heads_are_as_stated`.
//! - A push that is out of memory changes nothing: `Feed::push` (memory).
//! - The frame of a text: `frame_of`.
//! - A call over a wire whose model has its bytes writes exactly its request's frame, and reads exactly one
//!   frame, the reply with its number. Otherwise the cause states what was written and read: `call_over`
//!   (written, read, number, sent, taken).
//! - A wire's fault is reported only if it failed: `call_over` (failed, counted).
//! - The texts of faults: `Display` of `FeedFault`, `Lost`.
//!
//! Only tested: that each write offers, and each read asks for, all that is left, and that the time of a
//! stream is linear in its length.
#![tactic(auto)]

mod calls;
mod faults;
mod feed;
mod frames;
mod heads;
mod laws;
mod moving;
mod receiving;
mod splitting;

pub use calls::call_over;
pub use faults::{FeedFault, Lost};
pub use feed::Feed;
pub use frames::frame_of;
pub use laws::{bad_heads_are_as_stated, streams_split_one_way};
pub use moving::write_all;

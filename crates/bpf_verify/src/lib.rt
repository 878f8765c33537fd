//! The verifier of seccomp filters: accepts exactly the sound ones, seccomp(2).
//!
//! A `Filter` is sound code, and `verify` alone makes one of a list of instructions; `filter_of` reads the
//! list first. `specs/Sound.antt` defines sound code, over all walks through it; `specs/Faults.antt` which
//! fault comes first, and `specs/Refused.antt` which comes first in bytes.
//!
//! # What is proved
//!
//! - The verifier accepts exactly the sound code, over all walks: `verify` (sound).
//! - It reports the first fault, in both directions: `verify` (first, told).
//! - It returns the list: `verify` (same, back).
//! - A filter's bytes are read and verified with the same promises: `filter_of` (text, sound, refused,
//!   accepts, first).
//! - The faults of bytes are reported even if memory runs out: `filter_of` (told).
//! - Some walk has as many places as the number returned, and no walk has more: `longest` of a `Filter`.
//! - Walks go forward, and a walk through sound code never leaves it: `walks_stay_inside`.
//! - The length, the instructions and the copy of a filter: `Filter::len`, `insns`, `try_clone`.
//! - The texts of faults: `Display` of `Fault`, `Refusal`.
#![tactic(auto)]

mod fault;
mod filter;
mod laws;
mod longest;
mod place;
mod refusal;
mod verifier;
mod words;

pub use fault::Fault;
pub use filter::Filter;
pub use laws::walks_stay_inside;
pub use refusal::{Refusal, filter_of};
pub use verifier::verify;

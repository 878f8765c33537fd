//! Stacks of seccomp filters, and their joint verdict on a call: seccomp(2).
//!
//! The model of a `Stack` is the list of its filters' code, oldest first, and the room for more.
//! `specs/Stack.antt` defines what the values of several filters mean.
//!
//! # What is proved
//!
//! - A stack's verdict is that of the last value among those of first rank: `judge`.
//! - A stack has exactly one verdict on every call: `stacks_judge_every_call` (every, one).
//! - A push is refused exactly above the limit, and returns the filter: `Stack::push` (ok, err, back,
//!   too_many, refused).
//! - A push takes no memory if room was made: `Stack::push` (spared, room, kept), `reserve` (same, ok, err,
//!   kept, refused), `has_place`.
//! - Added filters never let a call pass that the stack alone stops: `added_filters_widen_nothing` (rank,
//!   performs).
//! - The filters of a stack, all sound: `filters` (same, sound).
//! - The text of a fault: `Display` of `StackFault`.
#![tactic(auto)]

mod judging;
mod laws;
mod stack;

pub use laws::{added_filters_widen_nothing, constants_are_as_stated, stacks_judge_every_call};
pub use stack::{MAX_STACK_INSNS, Stack, StackFault};

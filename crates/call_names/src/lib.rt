//! Finds where code compares the number of a call, so that its name can be shown with it, and shows calls by
//! name: struct seccomp_data of seccomp(2), whose word at offset 0 is the number.
//!
//! `specs/Tests.antt` defines which comparisons are of the number, and `specs/Text.antt` and `specs/Words.antt`
//! the texts.
//!
//! # What is proved
//!
//! - An instruction is reported to compare the call's number with a constant only if it is `jeq`, `jgt` or
//!   `jge` with a constant, a walk reaches it, and A holds the word at offset 0 of the data on every walk
//!   that does: `number_tests`.
//! - Calls are shown by number or name, and whole in the words of a command line: `Display` of `CallWord`,
//!   `CallWords` and `Argument`. In JSON they have members: `Display` of `CallMembers`.
//!
//! Only tested: that each such comparison is reported.
#![tactic(auto)]

mod comparing;
mod naming;
mod words;

pub use comparing::number_tests;
pub use naming::{CallWord, Naming};
pub use words::{Argument, CallMembers, CallWords};

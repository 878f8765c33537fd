//! The record of a container as one line of JSON (RFC 8259): which container it is, how it ended, and which
//! calls it made, each with its verdict, its count, and the place of its first occurrence.
//!
//! `specs/Summary.antt` defines the calls of a record, and `specs/RecordText.antt` the bytes of its line.
//!
//! # What is proved
//!
//! - The line of a container's record, byte by byte. Each number, architecture and verdict is listed once, in
//!   the order of their first calls, with its count in the record and its first place. Nothing else is
//!   listed. The line has the denied calls, or all: `record_line`, `summary`.
//! - Escaped texts and the members of a line: `quoted`, `Display` of `CallMembers`, `VerdictMembers`.
#![tactic(auto)]

mod line;
mod tallies;

pub use line::{CallMembers, VerdictMembers, quoted, record_line};
pub use tallies::{CallKind, RecordCalls, Tally, summary};

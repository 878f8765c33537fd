//! The calls on which two filters or profiles differ, as `seccheck compare --all` prints them: one line, or
//! one JSON object (RFC 8259), for each number.
//!
//! `filter_differences` finds the differences. A line has the calls that are meant, what each side returns on
//! one of them, and this call in the words of `run`. If a side is a profile, the part of the profile that
//! decides is added, as `explain` prints it.
//!
//! # What is proved
//!
//! - A profile's filter returns on every call what the profile means: `Compiled::new`.
//! - Each finding has its line, in order. The part of a profile in it is the one that decides the call, with
//!   the printed value: `lines`.
//! - The text and the objects of lines, byte by byte: `all_lines`, `all_objects`, `Display` of `LineText`,
//!   `LineObject`, `PartName`, `SideAnswer`.
#![tactic(auto)]

mod line;
mod objects;
mod sides;
mod telling;
mod texts;

pub use line::{Line, SideAnswer};
pub use objects::{LineObject, all_objects};
pub use sides::{Compiled, Side};
pub use telling::lines;
pub use texts::{LineText, PartName, all_lines};

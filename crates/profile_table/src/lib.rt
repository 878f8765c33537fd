//! How a seccomp profile treats each system call, as `seccheck table` prints it: OCI runtime-spec 1.1,
//! config-linux, seccomp, and the calls of x86-64.
//!
//! `specs/Rows.antt` defines the row of a call, and `specs/Text.antt` the printed lines of a table.
//! `specs/Objects.antt` has its JSON objects (RFC 8259).
//!
//! # What is proved
//!
//! - There is one row for each of the known calls, in order: `rows` (each).
//! - A row's entry, or the default, decides each call with its number if no entry with conditions applies
//!   before, as `explain` returns it: `rows` (real).
//! - The text and the objects of a table, byte by byte: `table_lines`, `table_objects`. A row is in
//!   exactly one line: that of its decider, or its own if entries with conditions may decide.
//! - Parts of these lines, which other pages have too: `names_text`, `named`, `is_before`, `Display` of `Words`,
//!   `CondWord` and `Count`.
#![tactic(auto)]

mod conditions;
mod objects;
mod row;
mod texts;
mod treating;

pub use conditions::Words;
pub use objects::table_objects;
pub use row::Row;
pub use texts::{CondWord, Count, is_before, named, names_text, table_lines};
pub use treating::rows;

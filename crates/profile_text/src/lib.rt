//! Profiles as text: the `linux.seccomp` object of the OCI runtime specification 1.1, written as compact JSON
//! whose text `oci_profile::read` reads as the same profile.
//!
//! `specs/Written.antt` defines how a profile is written, and `specs/Writable.antt` which profiles can be.
//!
//! # What is proved
//!
//! - The text of a profile reads as the profile, for every profile that can be written: `write` (reads,
//!   text).
//! - In such a profile each number is one of the known calls, and an entry that is stricter than the default has a number.
//!   Others, and texts that are too large to be read, are reported: `write` (no_name, large).
//! - A profile that was read can be written, and so can RuntimeDefault: `what_is_read_can_be_written`,
//!   `runtime_default_can_be_written`. The text of RuntimeDefault: `default_text`.
//! - Entries whose names are kept unchanged are written with the same promises: `write_named` (reads, text,
//!   named, large).
//! - Which of these entries are written, and which decisions are stricter: `is_taken`, `is_stricter`.
//! - The text of a fault: `Display` of `WriteFault`.
#![tactic(auto)]

mod default_profile;
mod faults;
mod laws;
mod named;
mod object;
mod texts;
mod trees;
mod writable;
mod writer;

pub use default_profile::default_text;
pub use faults::WriteFault;
pub use laws::{runtime_default_can_be_written, what_is_read_can_be_written};
pub use named::{NamedEntry, is_stricter, is_taken, write_named};
pub use texts::Texts;
pub use writer::write;

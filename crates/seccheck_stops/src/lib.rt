//! What a command of `seccheck` ends with: its output, or the reason why it stops before its work is done.
//!
//! Every command's crate uses these. The texts of a stop, its note on a file and its object of JSON are in
//! `specs/`.
//!
//! # What is proved
//!
//! - The text of each stop, with what a word is that is no call: `Display` of `Stop`, `Refused`. Its object of JSON,
//!   with the place of a fault and the value there: `object_line`.
//! - The line on a refused file, byte by byte, with the note on the bytes that were read and their hint:
//!   `note_line`.
//! - The stop of a refused file has its path, its bytes and the fault. Running out of memory is reported as that,
//!   wherever it happens: `refused_stop`, `stop_at`.
//! - The status of each stop, and whether it is an answer: `Stop::status`, `is_answer`.
//! - The status of an output: `Output::plain`, `found`, `with_aside`, `with_faults`. The answer of a stop:
//!   `Output::of_stop`, `after`.
//! - A file of more than `MAX_FILE_BYTES` is not read: `bytes_at` (within). `-` opens standard input: `opened`.
//! - The profile in a file is the one of the bytes, and a template is reported beside it: `profile_at`,
//!   `profile_of`, `template_line`. The lines on a manifest: `manifest_lines`.
//!
//! Only tested: that a note has the instruction at the fault, and that a filter is the file's.
#![tactic(auto)]

mod answer_object;
mod bad_words;
mod call_fault;
mod form;
mod inputs;
mod notes;
mod output;
mod refused;
mod stop;

pub use answer_object::{object_line, write_object};
pub use bad_words::WordFault;
pub use form::Form;
pub use inputs::{
    ProfileFile, bytes_at, filter_at, manifest_lines, opened, profile_at, profile_of, template_line,
};
pub use notes::{FileLine, note_line, print_note};
pub use output::Output;
pub use refused::{Refused, RefusedFile, refused_stop};
pub use stop::{Stop, stop_at};

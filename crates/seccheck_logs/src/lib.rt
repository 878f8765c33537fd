//! The commands of `seccheck` that read logs: `learn` makes a profile from their calls, and `explain --audit`
//! finds the entries that denied them. Files are read in pieces, and only a summary of their calls is kept.
//!
//! # What is proved
//!
//! - The line that is printed reads as a profile that allows the calls of the noted sightings, as they are
//!   wanted, and has the base's value on all others: `profile_line`.
//! - The program ends, and no index, sum or cast fails, whatever the files have.
//!
//! Only tested: which files are read, that each line reaches the summary, what is reported, and the words of
//! `--default` (`tests/learn`). The counts of an audit and the entries are proved in `denied_calls`.
#![tactic(auto)]

mod audit_answer;
mod defaults;
mod found;
mod learner;
mod lines;
mod log_file;
mod printed;
mod reports;

pub use audit_answer::audit_output;
pub use learner::{LearnOptions, learn_output};

//! The command line of `seccheck`: its commands and options as clap's, and the calls, attempts, capabilities and
//! architectures that its words write.
//!
//! # What is proved
//!
//! - The call that a command line writes, by number or name, over clap's matches, or the first word that is
//!   refused, and what it should have written: `call_at`. The calls that are known by name: `calls_at`.
//! - The attempt of `play`, the budget of `compare`, and the word of a required argument: `attempt_at`,
//!   `budget_at`, `word_at`.
//! - The whole name of the capability that a word names: `cap_named`.
//! - The name in templates of the architecture that a word names, or writes as a number: `template_arch`.
//!
//! Only tested: the texts of `--help`, and the command lines that clap refuses (`tests/filters`,
//! `tests/profiles`).
#![tactic(auto)]

mod architectures;
mod call_words;
mod capabilities;
mod words;

pub use architectures::template_arch;
pub use call_words::BadCallWord;
pub use capabilities::cap_named;
pub use words::{attempt_at, budget_at, call_at, calls_at, command, word_at};

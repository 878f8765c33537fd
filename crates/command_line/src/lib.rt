//! Command lines of the programs: how numbers are read, and the options of `scriptd`, `nodeagent` and
//! `scriptctl`. clap decides which words a line may have; `specs/` defines their meaning, by the matches in
//! clap's definition of a simple command.
//!
//! # What is proved
//!
//! - The number that each word of a command line spells: `number_of`, `word_of`, `word_or`, `number_or`,
//!   `number_within`.
//! - The meaning of the lines of `scriptd`, `scriptctl` and `nodeagent`, over the matches that clap's
//!   definition of a simple command has for their words. A line is taken if clap's definition takes its
//!   words, and else refused with one of the kinds that it names: `scriptd_line`, `scriptctl_line`,
//!   `nodeagent_line` (taken, line, fault).
//! - A word is reported as not a number in its range, or as not going with the others: `scriptd_line`,
//!   `nodeagent_line` (used).
//!
//! Only tested: clap's words.
#![tactic(auto)]

mod arguments;
mod fault;
mod matched;
mod nodeagent;
mod number;
mod scriptctl;
mod scriptd;
mod written;

pub use arguments::VERSION;
pub use fault::{LineFault, Misfit};
pub use nodeagent::{NodeagentLine, Numbers, nodeagent_line};
pub use number::{number_of, word_of};
pub use scriptctl::{PodCommand, ScriptctlLine, scriptctl_line};
pub use scriptd::{ScriptdLine, scriptd_line};
pub use written::{number_or, number_within, word_or};

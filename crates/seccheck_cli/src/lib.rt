//! The work of `seccheck`: compiles, lints, resolves, explains, learns and writes profiles, judges calls by
//! filters, shows and compares filters, plays scripts under them, picks the profiles of pods, adds up what was
//! denied, and writes pages about profiles.
//!
//! The functions are generic over the runtime and over the writers for standard output and standard
//! error. `seccheck_words` reads the command line. Answers come from `seccheck_output`, `seccheck_containers`,
//! `explain` and the crates of profiles. A `Stop` of `seccheck_stops` is the reason why the program ends before
//! its work is done.
//!
//! # What is proved
//!
//! - RuntimeDefault as it is printed reads as RuntimeDefault.
//! - The file that is read as a profile when two are compared: `is_profile`, `same_or_stop`.
//! - The capabilities that words name, by their whole names, or the first word that names none: `caps_of`.
//! - The settings of a template that words write, or the word that is refused: `settings_of` (caps, told).
//! - The budget of `compare` that a word writes, or the default: `compare_options` (budget), `default_budget`.
//! - The lines or objects of `lint` about a manifest, and their status: `manifest_output` (text, status). Only
//!   what looks like a manifest is linted as one: `refused_output`.
//! - The line on a budget that is used up: `budget_note`, `lines_note`.
//! - Where the program ends without a word: `is_silent`. Why a word of a call ends it: `call_stop`. Whether
//!   standard input is named more than once: `reads_twice`.
//! - The bytes of a filter's file, also as Base64: `file_bytes`.
//!
//! Only tested: files; that what is printed reaches the writers; that a template's profile and the names left
//! out are those of `profile_template`.
#![tactic(auto)]

mod compared;
mod file;
mod linting;
mod manifests;
mod profiles;
mod progress;
mod reporting;
mod resolving;
mod seccheck;
mod settings;
mod written;

pub use seccheck::{seccheck_run, seccheck_run_on};
pub use seccheck_output::{Judged, Outcome, judge, play};

//! Laws of every run of a runtime, whoever sends its requests.
//!
//! # What is proved
//!
//! `every_run` (run, link) states the laws of every run, of any requests, steps and kills:
//!
//! - A call is performed exactly when a step attempted it, and the filters of its cell's start, and those
//!   that it added before, together allow it. It is never performed when those of the start deny it.
//! - An attempt is made and started at most once, and ends with one code.
//! - For a removed uid nothing is performed.
//! - An exit code that is reported is true.
#![tactic(auto)]

mod laws;

pub use laws::every_run;

//! The machine that runs seccomp filters: classic BPF over a call's data, seccomp(2).
//!
//! `specs/Machine.antt` defines a step, in a semantics in which a state may be stuck, and `specs/Runs.antt` a
//! run. Sound code never gets stuck, so `run` tests nothing.
//!
//! # What is proved
//!
//! - The value and the exact number of steps of a run: `run` (run).
//! - A run never gets stuck: `run` (never_stuck).
//! - A run takes no more steps than the filter has instructions: `run` (bounded).
//! - Nor does it take more steps than the longest walk has places: `run` (longest).
//! - A call has only one run: `runs_are_determined`, `sound_code_runs`.
#![tactic(auto)]

mod laws;
mod machine;
mod step;

pub use laws::{runs_are_determined, sound_code_runs};
pub use machine::{Ran, run};

//! Trials of calls whose requests for memory can be refused: a trial is a call, the state before it, and the
//! wanted result and state. Programs for tests make them and print the results.
#![tactic(auto)]

mod samples;
mod trial;

pub use samples::{PROFILE, SCRIPT, files};
pub use trial::{CallResult, Trial, TrialResult, try_call};

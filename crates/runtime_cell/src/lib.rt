//! The cell of a container: plays the script that represents the container's program under its stack of
//! seccomp filters, one step at a time, and keeps its record.
//!
//! A call is performed exactly when the filters that were installed at the cell's start, and those that its
//! script added before, together allow it. `specs/Outcome.antt` defines the outcome of a script,
//! `specs/Cell.antt` what the type of a cell ensures, and `specs/Laws.antt` what holds for every cell.
//!
//! # What is proved
//!
//! - A cell's record, and what follows with the filters that were added, are at all times its script's one
//!   outcome. In this outcome a call is performed exactly when the filters of the start, and those added
//!   before, together allow it: `Cell::created`, `playing`, `step` (step, onward, making), `record` (value,
//!   follows, sound, confined), `outcomes_are_determined` (some, one), `cells_follow_their_scripts`,
//!   `calls_are_judged_by_all_filters` (taken, added).
//! - The record is the whole outcome once the script ended by itself. After a kill, the exit code is the
//!   kill's: `exit` (code, follows), `kill`.
//! - An end is final: `cells_only_grow`.
//! - Nothing is performed that the start stack alone denies: `calls_are_judged_by_all_filters` (start_binds).
//! - The newest filter of the start returns the kept profile's values: `record` (confined).
//! - Steps, starts and kills take no memory: `step`, `start`, `kill`.
//! - The parts of a cell, and the call that installs a filter: `label`, `profile`, `state`, `counts`,
//!   `added`, `install_call`.
#![tactic(auto)]

mod acts;
mod calls;
mod cell;
mod copies;
mod label;
mod laws;
mod record;

pub use calls::{ENOMEM, JudgedCall, KILLED, SECCOMP, SET_MODE_FILTER, install_call};
pub use cell::{Cell, Did, State};
pub use label::{Label, Text};
pub use laws::{
    calls_are_judged_by_all_filters, cells_follow_their_scripts, cells_only_grow,
    constants_are_as_stated, outcomes_are_determined,
};
pub use record::Counts;

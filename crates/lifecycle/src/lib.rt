//! How past runs of a container decide what comes next: the pod lifecycle of the Kubernetes 1.27
//! documentation.
//!
//! Nothing here reads a clock. Moments are whole seconds, passed as arguments, and no sum of them exceeds the
//! greatest one. Lists of runs are oldest first.
//!
//! # What is proved
//!
//! - Whether a container may be started again, from which moment, the state of a container and the phase of a
//!   pod follow their definitions exactly, over whole lists of past runs: `may_restart`, `ready_at`, `phase`,
//!   `Track::state`, `ended_code`, `started`, `was_started`, `is_finished`, `is_succeeded`, `is_failed`.
//! - Only the number of past runs, the last run and the row are kept, and no memory is taken: `Runs::new`,
//!   `count`, `last`, `ready_at`, `PastRun::new`, `lasted`.
//! - A run is refused exactly if no other can be counted: `push` (ok, err, room), `is_full`.
//! - The back-off counts from the latest run of ten minutes on: `back_off_counts_from_the_last_long_run`.
//! - An init container that succeeded is never started again: `finished_init_stays_finished`,
//!   `init_containers_alone_succeed`.
//! - The constants, and the names of phases and states: `constants_are_as_stated`, `Display` of `Phase`,
//!   `ContainerState`.
#![tactic(auto)]

mod back_off;
mod history;
mod laws;
mod past_run;
mod phases;
mod policy;
mod rules;
mod runs;
mod state;
mod track;

pub use back_off::ready_at;
pub use history::History;
pub use laws::{
    back_off_counts_from_the_last_long_run, constants_are_as_stated, finished_init_stays_finished,
    init_containers_alone_succeed,
};
pub use past_run::PastRun;
pub use phases::Phase;
pub use policy::{RestartPolicy, may_restart};
pub use rules::phase;
pub use runs::{MAX_RUNS, Runs};
pub use state::ContainerState;
pub use track::{Stage, Track};

//! The world of one node: its agent, its runtime, and every message between them, as one machine of events,
//! with the laws of all of its runs.
//!
//! `specs/World.antt` defines a step, and `specs/Laws.antt` the laws of every run. Requests may be served
//! again and in any order, replies may come late or never, files may fail, and cells may be stepped at any
//! time.
//!
//! # What is proved
//!
//! - The joint machine is one node's agent and its runtime, with the bag of all requests ever sent and all
//!   replies ever given. Each possible event is a step of every world that the kept state stands for:
//!   `World::new`, `step` (step, same).
//! - An impossible event is reported with its cause and changes nothing: `step` (cause), `Display` of
//!   `WorldFault`.
//! - A `World` stands for the end of some run: `node`, `runtime` (value, reached), `sent`, `given`.
//! - In every run, the laws state what is performed, by which filters and from which manifest:
//!   `laws::every_run` (run, link).
//! - An attempt is made once and started once, after its back-off and the init containers. Runs are numbered
//!   by their attempts, and have the codes of the cells. Nothing is performed after a removal. A pod has one
//!   worker: `laws::every_run`.
//!
//! Only tested: 100 drawn lists of 1,000 events, checked by plain code over what was seen (`tests_world`),
//! and that there is memory.
#![tactic(auto)]

mod events;
mod exchanges;
mod faults;
pub mod laws;
mod machine;

pub use events::{Act, WorldEvent};
pub use exchanges::Exchange;
pub use faults::WorldFault;
pub use machine::World;

//! What worker 0 of `nodeagent` does besides advancing the time: it admits and deletes the pods of a folder,
//! prints changes, reports lost calls and lost pods, and removes the pods at the end of a run.
//!
//! # What is proved
//!
//! - Each event that it asks for is one of worker 0: `AgentTasks` as `CoordinatorTasks`.
//! - The constants: `constants_are_as_stated`.
//!
//! Decisions are made in crates below: `pod_folder` decides which pods a folder wants, and `agent_parts` which
//! reports are made, what they print, and which pods are removed. The rest is locks, clocks and a descriptor.
//!
//! Only tested: the folder's looks, the reports and the removal (`tests/daemons`, `tests/pods`).
#![tactic(auto)]

mod folders;
mod laws;
mod limits;
mod reader;
mod removal;
mod tasks;
mod troubles;

pub use folders::{FolderReader, PodsFolder};
pub use laws::constants_are_as_stated;
pub use limits::{SLICE, TASK_LOOK};
pub use tasks::AgentTasks;
pub use troubles::Troubles;

//! The runtime: sandboxes and the cells of their containers, accessed by the calls of CRI v1 that this
//! project has.
//!
//! # What is proved
//!
//! - A registry and the lists of its sandboxes' cells agree at all times: `Runtime::new`.
//! - Each request is one step of the runtime that they represent: `serve` (number, serves).
//! - A step or a kill of the cell with an id is one step as well: `step`, `kill`.
//! - The cell with an id, and the ids: `cell`, `next_id`, `uid_of`.
#![tactic(auto)]

mod calls;
mod lists;
mod runtime;

pub use calls::uid_of;
pub use creation::{CompiledProfile, Contents, FileAnswer, FileAnswers, ReadAs};
pub use registry::{
    Cells, MAX_CELLS, MAX_KEYS, MAX_UIDS, Registry, STOPPED, Stage, TERMINATED,
    constants_are_as_stated,
};
pub use runtime::Runtime;

//! A runtime's knowledge of its sandboxes, and the effect of each call of CRI v1 that this project has on one
//! of them: the uids that were named, the attempts at containers that were made, the cells by their ids.
//!
//! # What is proved
//!
//! - Each request acts as the table of calls states, on the sandbox that it names and on no other:
//!   `serve_lent` (number, row, spares).
//! - Calls that start, stop or remove, and statuses, take no memory, and a refusal changes nothing:
//!   `serve_lent` (row, keeps).
//! - Whatever was removed leaves only removed uids. The cells that a request removes are handed out:
//!   `serve_lent` (gone).
//! - An answer about the cells of an existing sandbox, made from these alone, is the table's: `tell_cells`.
//! - A new registry is empty: `Registry::new` (empty, bound, agrees).
//! - Each cell of a list has a container's name, and the list has no more cells than its limit: `Cells::new`,
//!   `as_slice` (value, few, named).
//! - A step or a kill of one cell moves it alone, and keeps the ids: `step`, `kill_id` (moves, ids), `get`.
//! - The states of uids and ids, and a ready RuntimeDefault: `make_ready`, `stage`, `is_full`, `home`,
//!   `next_id`.
//! - The constants are as stated: `laws::constants_are_as_stated`.
#![tactic(auto)]

mod cells;
mod containers;
mod homes;
mod known;
pub mod laws;
mod limits;
mod listing;
mod registry;
mod removed;
mod stage;
mod uids;
mod used;

pub use cells::Cells;
pub use laws::constants_are_as_stated;
pub use limits::{MAX_CELLS, MAX_KEYS, MAX_UIDS, STOPPED, TERMINATED};
pub use listing::tell_cells;
pub use registry::Registry;
pub use removed::RemovedCells;
pub use stage::Stage;

//! One history of a runtime that threads share: its registry is under one lock, and the cells of each sandbox
//! are under a lock of their own. Each event is added to the history under a lock of what it changes, and
//! each caller sees a run, to which the laws of every run apply. The registry's lock also covers the ids of
//! the cells that may run.
//!
//! # What is proved
//!
//! - A runtime whose registry and lists of cells have locks of their own has one history: `Begun::new`,
//!   `of_node`, `Callers::client`.
//! - A request served with the registry, and with the list of its sandbox if there is one, is one event of
//!   it: `Registered::serve` (number, grows, started, may_run, uid, removed, stays, others), `serve_absent`,
//!   `wake`, `refuse`.
//! - A listing by a list alone is one event, and so is each step of a cell: `Listed::step` (uid, some, none,
//!   moves), `tell`.
//! - All that a caller has seen is a run, of a node with the runtime's filter, and the laws of every run
//!   apply to it: `laws_of`.
//! - Nothing happens if there is no cell with the id: `Listed::step` (none).
//! - Each running cell is there, and is among the ids kept with the registry. A start adds its cell. A cell
//!   is taken out only if it has ended, is gone, or is not in the list of its own sandbox: `look`, `forget`,
//!   `lose`, `Registered::serve` (started, may_run, removed, stays).
//! - A lock returns the value of its uid and takes no other: `KeyedLock::taken`, `fill`, `take`, `try_take`,
//!   `put_back`.
#![tactic(auto)]

mod callers;
mod event;
mod keyed;
mod laws;
mod parts;
mod room;
mod starts;
mod tokens;

pub use callers::{Begun, Callers};
pub use event::{Event, Seen};
pub use keyed::{Blank, Keyed, KeyedLock, Loan};
pub use laws::laws_of;
pub use parts::{Client, History, Listed, Registered};
pub use room::{Asked, Node};

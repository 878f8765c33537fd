//! The workers of an agent: threads that share a node's book, call a runtime, and record the results.
//!
//! [`work`] is what each worker does, over any [`Peer`] that answers its requests. [`crew`] starts workers,
//! advances the time beside them as worker 0, and returns the receipts for all that was done. Nothing under
//! the book's lock touches a file or a socket. `specs/Work.antt` defines the receipts of a worker.
//!
//! # What is proved
//!
//! - A worker's receipts rise in number and are its own. A report follows its claim directly. It has a reply,
//!   or a loss, only if the peer may answer the claim's request so: `work` (parts, work), `Peer::call`.
//! - An event of worker 0 that became an entry has its receipt last, and the reason is returned if the node
//!   refused it: `Coordinator::new` (parts, receipts), `record` (parts, done, err).
//! - No receipt is lost: the tally of a crew has all parts of the ledger. So it has as many receipts as the
//!   last part of the history has entries: `crew`, `into_tally`.
//! - These calls state what stops a node when its workers have nothing to do, when the machine's clock is
//!   read again, and what the virtual clock does next: `idle_reason`, `virtual_idle_reason`, `next_look`,
//!   `next_of`, which are private.
//! - The reason why a claim failed follows from the event that ended it and from the kept state of its pod.
//!   Each entry adds its line or reason: `observe`, `observe_end`, which are private.
//!
//! Only tested: that calls are in flight at once; that a worker without work makes no entries; that the time
//! advances when nothing else can happen; that a crew of 64 settles a full node; which cause ends it.
#![tactic(auto)]

mod coordinator;
mod crews;
mod idle;
mod laws;
mod observer;
mod pace;
mod shared;
mod tasks;
mod worker;
mod worker_share;

pub use coordinator::Coordinator;
pub use crews::{CrewEnd, crew};
pub use laws::constants_are_as_stated;
pub use observer::{Changes, MAX_CHANGES, Observed};
pub use pace::{Counterpart, Ended, Pace};
pub use shared::{BesideBook, DescribeNode, Shared};
pub use tasks::{CoordinatorTasks, NoTasks};
pub use worker::{Always, Gate, Peer, work};

//! Serves a runtime's connections and steps its cells, in any number of threads.
//!
//! [`serve_wire`] serves one connection over any wire, with any files and any host; a [`SharedRuntime`] is a
//! runtime that threads share, with a lock around what is known of all uids and one around each sandbox's
//! cells.
//!
//! # What is proved
//!
//! - The files of a request are read by its own paths and no others. Their contents, or the reasons why they
//!   were not read, are handed on, with the calls that their readers know: `gather`, `gather_with` (script,
//!   profile).
//! - Over a wire whose model has its bytes, each frame, in order, gets one frame of its version. It is the
//!   host's reply to its request and to the results of its files, or InvalidArgument with its number:
//!   `serve_wire` (talk, failed, counted), `Host::serve`, `read`, `Reader::read`.
//! - All these replies are written if the input ended or a length is bad, else a prefix of them: `serve_wire`
//!   (talk).
//! - In a runtime that threads share, each reply is one event of its history, which is a run of a node with
//!   the filter that the runtime was given. The caller sees the history up to that event:
//!   `SharedRuntime::new`, `client`, `serve` (number, grows), `Host` of `SharedHost`.
//! - Exactly the existing sandboxes have a list, each the list of its uid.
//! - A round visits cells of the runner's share in the order of their ids. It passes over no cell that runs
//!   when the round looks for the next one. Each visit is one step of its cell under its sandbox's lock,
//!   unless the cell does not run, and nothing else happens. So each cell of the share that runs during the
//!   whole round does a step. The round returns whether a cell went on: `step_round`.
//! - A text is read as its request, by any thread: `Reader::read`.
//! - The constants are as stated: `constants_are_as_stated`.
//!
//! Only tested: that a sandbox's lock delays no other sandbox, that neither a file nor a long script delays
//! another connection, and when removed cells free their memory.
#![tactic(auto)]

mod answering;
mod connection;
mod desk;
mod due;
mod ending;
mod gathering;
mod laws;
mod lists;
mod notifier;
mod reader;
mod reading;
mod rounds;
mod sandbox;
mod service;
mod shared;

pub use connection::serve_wire;
pub use ending::Ending;
pub use gathering::{gather, gather_with};
pub use laws::constants_are_as_stated;
pub use notifier::Notifier;
pub use reader::{LARGE_TEXT, Reader};
pub use rounds::{Open, StepGate};
pub use runtime_history::{Begun, Callers, Client, Node, laws_of};
pub use service::{Host, Service};
pub use shared::{SharedHost, SharedRuntime};

//! Runs pods: `nodeagent_run` admits the pods of manifests and has a crew of workers call a runtime for them
//! over its socket.
//!
//! # What is proved
//!
//! - A reply of its peers has the number of the request: `Peer` of the programs, and of `LoopPeer` in
//!   agent_trials.
//! - The socket and the version of each peer, and the number of peers: `peers`, which is private.
//!
//! Only tested: the programs `scriptd` and `nodeagent` (`tests/daemons`, `tests/pods`). The tests cover:
//!
//! - The tables of worked examples with 1 to 64 workers, whichever read, write or file fails once.
//! - The table of a node with 110 pods of 16 containers and 64 workers, with no fault, and with one of every
//!   97 reads and writes failing.
//! - The table for 110 pods of one container and 64 workers, whichever of the first 200 reads and writes
//!   fails.
//! - Every status and fault of the command lines.
//! - The socket and its mode, and connections that are silent, cut off or too many.
//! - The frames of all ten calls of a pod's life, byte for byte.
#![tactic(auto)]

mod admission;
mod counterpart;
mod dialing;
mod laws;
mod leftovers;
mod limits;
mod line_writers;
mod nodeagent;
mod outside;
mod peers;
mod working;

pub use laws::constants_are_as_stated;
pub use nodeagent::nodeagent_run;

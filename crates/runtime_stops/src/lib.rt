//! Why a program that serves a runtime, or asks one, ends before its work is done: the text and the status.
//!
//! # What is proved
//!
//! - The text and the status, except for clap's words: `ServerStop::status`, `Display` of `StopLine`,
//!   `file_stop`, `From` of `ServerStop`.
//! - Why no socket can be made, from the error it is made from: `socket_stop`, `From` of `SocketFault`.
#![tactic(auto)]

mod socket_fault;
mod stops;

pub use socket_fault::{MAX_NAME, SocketFault};
pub use stops::{ServerStop, StopLine, file_stop, socket_stop};

//! Serves a runtime over a socket. The program `scriptd` does nothing else.
//!
//! A [`RuntimeThreads`] is a runtime that threads share, with the runners that step its containers; a
//! [`RuntimeServer`] has these and a socket, whose connections are served in threads of their own.
//! `telling` has the log line of each call, and a [`LineWriter`] writes it. Why a program ends before its work
//! is done is in `runtime_stops`.
//!
//! # What is proved
//!
//! - An empty path and one above 107 bytes are refused, and so is a lock's file that is not a regular one:
//!   `look_at_path`, `look_at_lock`.
//! - A fault of accepting connections is reported when it changes, and not again: `Accepting::note`.
//! - At most 128 connections have a place, each its own, and none gets one after the close: `Open::enter`,
//!   which is private.
//! - The node's own filter is that of its file's bytes; a refused file has a fault, and the hint on its
//!   bytes: `baseline_of`, which is private.
//! - A runtime's first line: `listening_line`, `name_behind`.
//! - Each reply of a host of the runtime, and of a connection, is one event of the runtime's history, which
//!   grows by others' events and then by this one: `Host` of `RuntimeHost`.
//! - A connection's scripts and profiles are read below the folders that the line names, each its own:
//!   `service_for`, `config_of`, which are private.
//! - The first fault of a text that refuses a container is reported, with its place and a hint: `script_fault`,
//!   `profile_fault`, which are private.
//! - Which answers of a runtime are reported: `Tells::is_told`, which is private.
//! - A line is added after all that wait, or is left out and counted: `LineQueue::add`, which is private.
//! - The line on a template that is given as a profile, and which profiles are remembered: `profile_line`,
//!   `SeenProfiles::is_known`, `remember`, which are private.
//! - A removed cell is recorded unless it had ended by itself: `has_ended_alone`, which is private.
//! - The constants are as stated: `constants_are_as_stated`.
//!
//! Only tested: `scriptd`'s socket and its mode, connections that are silent, cut off or too many. Only tests
//! show that each cell that ended or was removed has one line in the file of records, and that no line is
//! torn or lost at rotation (`tests/daemons`).
#![tactic(auto)]

mod accepting;
mod connections;
mod diagnosis;
mod inputs;
mod laws;
mod line_queue;
mod line_writer;
mod path_lock;
mod places;
mod recording;
mod records_file;
mod scriptd;
mod server;
mod sockets;
mod telling;
mod templates;
mod threads;

pub use connections::{Connections, MAX_CONNECTIONS, NoPlace};
pub use inputs::{baseline_at, bytes_at, look_at_folders};
pub use laws::constants_are_as_stated;
pub use line_queue::MAX_WAITING;
pub use line_writer::{LineWriter, Outlet, READER_PATIENCE, Stream};
pub use recording::{Recorder, recorder_for};
pub use scriptd::scriptd_run;
pub use server::{Reports, RuntimeServer, ServerConfig, Tells, accept_all};
pub use sockets::look_at_path;
pub use telling::{answered, asked};
pub use threads::{RuntimeHost, RuntimeThreads, start_runners};

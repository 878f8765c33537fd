//! The functions of the programs and of a worker, in one crate: `seccheck_run`, `scriptd_run`,
//! `nodeagent_run`, the readers of their command lines, `work`, and `table`.
//!
//! Each is defined in a crate below, where its contract is. A program builds that crate alone.
#![tactic(auto)]

pub use agent_parts::table;
pub use agent_program::nodeagent_run;
pub use command_line::{nodeagent_line, scriptd_line};
pub use runtime_server::scriptd_run;
pub use seccheck_cli::seccheck_run;
pub use worker_crew::{Gate, Peer, work};

//! Makes calls about pods to a runtime over its socket, in the runtime's own frames. The program `scriptctl`
//! does nothing else.
//!
//! # What is proved
//!
//! - The call of each command of `scriptctl`: `call_of`.
//! - The text of each answer to it, as words and as JSON: `head`, `lines_of`.
//!
//! Only tested: the program's connections, refusals and statuses (`tests/daemons`).
#![tactic(auto)]

mod answers;
mod asking;
mod scriptctl;
mod stops;

pub use answers::{STOP_GRACE, call_of, head, lines_of};
pub use scriptctl::scriptctl_run;

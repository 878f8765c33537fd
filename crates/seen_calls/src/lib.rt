//! The calls in lines of logs: of `strace`, of a kernel's audit, of records of containers, and of lists of
//! names.
//!
//! Each line is read by itself. `specs/Lines.antt` defines the numbers that a line may have,
//! `specs/Records.antt` the calls of a record, and `specs/Faults.antt` the texts of faults.
//!
//! # What is proved
//!
//! - A call that is read, or resumed, has a number below the end of the known calls: `read_line` (of_table).
//! - A number is known exactly if one of the known calls has it: `known` (value, within).
//! - The calls of a record are read in order, performed or denied, or the first fault is reported:
//!   `record_calls`.
//! - The name and the text of each fault: `LineFault::name`, `Display` of `LineFault`.
//! - No index, sum or cast fails, whatever the line has.
//!
//! Only tested: the lines of strace and of audits, the names of lists, and which lines are passed over
//! (`tests/learn`).
#![tactic(auto)]

mod arguments;
mod audit;
mod faults;
mod line;
mod names;
mod records;
mod strace;
mod words;

pub use audit::{AuditedCall, audited_call};
pub use faults::LineFault;
pub use line::{Line, read_line};
pub use names::known;
pub use records::{ListedCall, record_calls};

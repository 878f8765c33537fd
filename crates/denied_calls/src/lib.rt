//! Which calls were denied, by the records of containers, which are lines of JSON (RFC 8259), or by a kernel's
//! audit. Calls are added up for each container or for each call, and sorted, the most denied first.
//!
//! `specs/Reading.antt` defines the calls of a line, `specs/Sightings.antt` and `specs/Audited.antt` the sums, and
//! `specs/Orders.antt` the orders.
//!
//! # What is proved
//!
//! - A line has the denied calls of a record, or the reason why it has none: `read_line`.
//! - Each container, call and verdict has one row, with the sum of its counts. Each call and verdict has one
//!   total, with the sum and the number of containers. Rows and totals are sorted by count, then by container
//!   and call: `in_order`, `rows`, `totals` (same, each, sorted).
//! - Which parts of a profile return a call's verdict, or its action: `deciders`.
//! - Each call of an audit is counted once, under its number, architecture and action, and each of these kinds
//!   has one row, sorted by count: `AuditedCounts::add`, `AuditedCounts::rows`.
//! - The table and the JSON objects, byte by byte: `aligned`, `row_line`, `total_line`, `by_cell`,
//!   `row_object`, `total_object`, `by_member`, `audited_line`, `audited_object`.
#![tactic(auto)]

mod adding;
mod audited;
mod deciding;
mod faults;
mod lines;
mod objects;
mod reading;
mod shown;
mod sighting;
mod table;
mod totalling;

pub use adding::{Row, rows};
pub use audited::{
    AuditedCounts, AuditedKind, AuditedRow, audited_head, audited_line, audited_object,
};
pub use deciding::{DeniedCall, Returned, deciders};
pub use faults::LineFault;
pub use lines::{by_cell, row_head, row_line, total_head, total_line};
pub use objects::{by_member, row_object, total_object};
pub use reading::read_line;
pub use sighting::{Sighting, in_order};
pub use table::aligned;
pub use totalling::{Total, totals};

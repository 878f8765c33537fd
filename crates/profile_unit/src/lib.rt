//! A profile as the filter of calls of a unit of systemd, by `SystemCallFilter=` of systemd.exec(5): a list of
//! allowed calls, or one of denied calls. It knows no arguments.
//!
//! `specs/Units.antt` defines how such a list decides a call, and `specs/UnitText.antt` its lines.
//!
//! # What is proved
//!
//! - The list decides each call of x86-64 as the profile does: `unit_of` (means).
//! - Its actions are those that a unit can have: `unit_of` (fits).
//! - A profile is refused for a cause: an entry with conditions, a default action or a call's action that no
//!   list has, or no call beside the default: `unit_of` (condition, default_action, call_action, no_calls).
//! - The lines, byte by byte: `unit_text`. The text of a fault: `Display` of `ShownFault`.
//!
//! Only tried: what systemd does with these lines (`examples/real/systemd.sh`).
#![tactic(auto)]

mod faults;
mod lines;
mod unit;

pub use faults::{ShownFault, UnitFault};
pub use lines::unit_text;
pub use unit::{NamedCall, Unit, unit_of};

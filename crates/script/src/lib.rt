//! Scripts: what a container of this project does, step by step, read from JSON.
//!
//! A step makes a system call, installs a filter, or ends the script with a code. `specs/Script.antt` defines
//! which trees are which scripts, and `specs/Reading.antt` which fault is found first, and where.
//!
//! # What is proved
//!
//! - The reader accepts exactly the scripts: `read`, `read_placed_with` (found, only).
//! - Others are refused with the first fault and its place, in both directions: `read`, `read_placed_with`
//!   (first, told).
//! - A step installs only sound filters: `Script::steps` (value, bounded, sound).
//! - The length and the codes of a script: `len`, `is_empty`, `Codes::as_slice`.
//! - The text of a fault: `Display` of `ScriptFault`.
#![tactic(auto)]

mod faults;
mod fields;
mod install;
mod laws;
mod placed;
mod reader;
mod scripts;

pub use faults::ScriptFault;
pub use laws::constants_are_as_stated;
pub use placed::ScriptFaultAt;
pub use reader::{read, read_placed_with};
pub use scripts::{Codes, MAX_STEPS, Script, Step};

//! Seccomp profiles of containers: the `linux.seccomp` object of the OCI runtime specification 1.1.
//!
//! `specs/Meaning.antt` defines a profile's meaning for a call; `Profile::value_on` computes it by going over
//! the entries. `specs/Profile.antt` defines which trees are which profiles, and `specs/Reading.antt` which
//! fault is found first.
//!
//! # What is proved
//!
//! - The reader accepts exactly the texts that are a profile, by the calls that are known: `read`, `read_placed`,
//!   `read_placed_with` (found, only, no_fault).
//! - Other texts are refused with the first fault, and `read_placed` adds its place: `read`, `read_placed`
//!   (first).
//! - The length of a text is checked before memory is taken: `read`, `read_placed` (large).
//! - The meaning of a profile at every call: `Profile::value_on`, `Entry::names`.
//! - RuntimeDefault, entry by entry: `runtime_default`, `runtime_default_is_light`.
//! - A copy is the same profile: `Profile::try_clone`.
//! - The verdict, the value and the rank of a decision: `Decision::verdict`, `value`, `rank`, `Errno::new`.
//! - Lists keep their rules by type: `Numbers`, `Conds`, `Entries` (fit).
//! - The text of a fault: `Display` of `ProfileFault`.
//!
//! Only tested: the time of reading.
#![tactic(auto)]

mod actions;
mod args;
mod conditions;
mod copies;
mod decision;
mod default_profile;
mod faults;
mod laws;
mod meaning;
mod placed;
mod profile;
mod reader;

pub use actions::{given_errno, named_action};
pub use args::conds;
pub use conditions::{Cond, Conds, Op};
pub use decision::{Decision, Errno};
pub use default_profile::runtime_default;
pub use faults::ProfileFault;
pub use laws::{constants_are_as_stated, runtime_default_is_light};
pub use meaning::X32_BIT;
pub use placed::ProfileFaultAt;
pub use profile::{Entries, Entry, Numbers, Profile};
pub use reader::{MAX_PROFILE_BYTES, read, read_placed, read_placed_with};

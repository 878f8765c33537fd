//! What decides a system call under a profile, and which entries are passed over before it: OCI runtime-spec
//! 1.1, config-linux, seccomp, where the first entry that names the number and whose conditions all hold
//! decides.
//!
//! `specs/Explained.antt` defines explanations, `specs/Text.antt` their printed lines, and
//! `specs/Objects.antt` their JSON objects.
//!
//! # What is proved
//!
//! - Another architecture, the bit of x32, an entry or the default decides a call. The entry is the first one
//!   that names the number and whose conditions all hold: `explain` (decides).
//! - The decision's value is the profile's meaning, so the compiled filter returns it: `explain` (means).
//! - Each earlier entry that names the number is listed, in order, with its first condition that fails:
//!   `explain` (passed).
//! - The lines and objects that are printed: `explanation_lines`, `explanation_objects`, `Display` of
//!   `PassedOver`, `Decider`, `Decided`, `DecidedMembers`.
#![tactic(auto)]

mod conditions;
mod explainer;
mod explanation;
mod lines;
mod objects;

pub use conditions::applies;
pub use explainer::explain;
pub use explanation::{Decider, Explanation, PassedOver};
pub use lines::{Decided, explanation_lines};
pub use objects::{DecidedMembers, explanation_objects};

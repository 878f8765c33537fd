//! The answers of `seccheck` about containers: what they were denied, from records of a runtime, and what comes of
//! the containers of a manifest.
//!
//! The lines and the objects of JSON are those of `denied_calls` and `seccheck_output`, by their contracts.
//!
//! # What is proved
//!
//! - A container of `play --pod` is judged by the node's own filter and that of its profile, in this order:
//!   `stack_of`, which is private.
//!
//! Only tested: which files are read, and that each part reaches the output (`tests/denied`).
#![tactic(auto)]

mod denying;
mod pod_playing;
mod used_profiles;

pub use denying::{DeniedOptions, denied_lines, denied_output};
pub use pod_playing::{PodOptions, pod_output};

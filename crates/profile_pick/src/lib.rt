//! Which seccomp profile a container of a pod gets: Kubernetes 1.27, "Restrict a Container's Syscalls with
//! seccomp" and the kubelet's `seccompDefault`.
//!
//! `specs/Choice.antt` defines the choice. Nothing here takes memory.
//!
//! # What is proved
//!
//! - A privileged container has no profile. Another has its own, else the pod's, else the node's default:
//!   `pick`.
#![tactic(auto)]

mod choice;

pub use choice::{Choice, pick};

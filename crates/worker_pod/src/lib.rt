//! One pod's part of a node's agent: the next request, the moment from which it is due, and the effect of a
//! claim's end. Pod lifecycle of Kubernetes 1.27, over the calls of CRI v1.
//!
//! Nothing here reads a clock or sends anything. The kept state of a pod follows from the whole list of its
//! ended claims (`specs/Past.antt`), and the next request from that state (`specs/Next.antt`).
//!
//! # What is proved
//!
//! - The kept state of a pod is determined by the whole list of its ended claims: `PodState::new` (start,
//!   past, begun).
//! - A deletion: `delete` (deleted, past), `gone`.
//! - The next request and its due moment are exact. A request is due exactly from the reported moment: `due`,
//!   `next` (next, none), `due_is_when_next_is`.
//! - If nothing is due, no memory is taken: `next` (none).
//! - The effect of a claim's end is exact: `ended` (ok, past).
//! - The end of a claim takes no memory, and begins at most one more run of each container: `ended` (free,
//!   begun).
//! - It is refused only if an exit is recorded and more runs of a container began than can be counted. A
//!   refusal changes nothing: `ended` (err, abandoned, full).
//! - An attempt follows the manifest (name, image, profile), and is made only once the init containers in
//!   front have succeeded. Attempt k + 1 is made only after attempt k's end, if another may be made, and not
//!   before its back-off: `creations_follow`, `calls_are_of_the_pod`.
//! - Each kept run was reported by a reply to a claim of its attempt: `runs_were_told`.
//! - Of the containers that are due, the one that was worked on longest ago is next: `longest_waits_first`,
//!   `worked`.
//! - Each container has a track: `containers_have_tracks`, `view` (pod, tracks, phase), `Outcome::try_clone`.
//! - All of it holds whether statuses are asked for one by one or by pod.
#![tactic(auto)]

mod action;
mod calls;
mod container_actions;
mod laws;
mod pod;
mod sandbox;
mod settings;
mod tracks;
mod turns;
mod update;

pub use laws::{
    attempts_end_at_the_last, calls_are_of_the_pod, constants_are_as_stated,
    containers_have_tracks, creations_are_numbered, creations_follow, due_is_when_next_is,
    longest_waits_first, runs_are_numbered, runs_were_told,
};
pub use pod::{PodState, PodView};
pub use settings::{Outcome, Settings};

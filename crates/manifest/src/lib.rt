//! Manifests of pods: the parts of a Kubernetes 1.27 `v1` `Pod` that this project runs.
//!
//! A text that was checked to be a name, a uid or a path has a type of its own, so it is checked once.
//! `specs/Pod.antt` defines which trees are which pods, and `specs/Reading.antt` which fault is found first.
//!
//! # What is proved
//!
//! - The reader accepts exactly the texts that are a pod's manifest: `read`, `read_placed` (found, only,
//!   no_fault).
//! - Others are refused with the first fault and its place: `read`, `read_placed` (first).
//! - A text checked to be a name, a uid or a path has a type of its own: `Uid::new`, `PodName::new`,
//!   `Label::new`, `DescendingPath::new` (value, told), with `as_str`, `==` and `try_clone`, `is_uid`,
//!   `is_pod_name`, `is_label`, `is_descending`.
//! - A pod has 1 to 16 containers, no two with the same name, and at least one that is not an init container:
//!   `Containers::new`, `as_slice`, `inits`, `try_clone` (fit).
//! - Copies and comparisons: `Pod::try_clone`, `same` of `Pod`, `Container`, `Containers`, `SeccompProfile`.
//! - The text of a fault: `Display` of `PodFault`.
#![tactic(auto)]

mod containers;
mod contexts;
mod faults;
mod fields;
mod heads;
mod labels;
mod laws;
mod lent;
mod paths;
mod placed;
mod pod_names;
mod pods;
mod profiles;
mod reader;
mod rules;
mod uids;

pub use containers::{Container, Containers, MAX_CONTAINERS};
pub use faults::PodFault;
pub use labels::Label;
pub use laws::constants_are_as_stated;
pub use paths::DescendingPath;
pub use placed::PodFaultAt;
pub use pod_names::PodName;
pub use pods::Pod;
pub use profiles::SeccompProfile;
pub use reader::{read, read_placed};
pub use rules::{is_descending, is_label, is_pod_name, is_uid};
pub use uids::Uid;

//! Manifests that come and go as files of a folder: which of their pods to admit and to delete, and which uid
//! a pod gets if its manifest sets none. All of it is this project's own.
//!
//! # What is proved
//!
//! - A listing is whole only if it reached its end and no entry failed: `names_in`.
//! - What a look found of each file is what was read there, or what is known of a file in the same state.
//!   What is known after a look is what it found: `Looking`.
//! - A pod is deleted only if the last whole look lacked its file or read another pod in it, or the runtime
//!   has lost the pod, in every run: `a_pod_leaves_only_with_its_file`.
//! - A pod is admitted only for a file that is there and has no pod on the node. Nothing is due if nothing is
//!   asked. What was asked last is admitted, deleted or refused, and nothing else changes: `Folder`.
//! - Whether a manifest has the uid of its pod, and the uid if it has none: `gives_uid`, `uid_for`.
//!
//! Only tested: the system's folder (`SystemFolder`), in `tests/daemons/pods_folder.case` and
//! `pods_faults.case`.
#![tactic(auto)]

mod asking;
mod folder;
mod given;
mod laws;
mod looking;
mod looks;
mod names;
mod naming;
mod placed;
mod reading;
mod system;
mod uids;

pub use asking::{Asked, Due};
pub use folder::{Folder, OnNode};
pub use given::gives_uid;
pub use laws::{a_pod_leaves_only_with_its_file, constants_are_as_stated};
pub use looking::{Look, Looking, MAX_FILES, Report};
pub use looks::{Content, FoundFile, Manifest, Stamp};
pub use names::{Entries, Entry, names_in};
pub use naming::{Count, Naming};
pub use placed::PlacedPod;
pub use reading::{FolderFiles, ManifestReader, Reading};
pub use system::{SystemEntries, SystemFolder};
pub use uids::uid_for;

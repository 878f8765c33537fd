//! Watches a node's pods from event to event: lines for the phases and states that changed, why each
//! container waits, and which answers show that a pod is lost. The names are those of Kubernetes 1.27, pod
//! lifecycle; the lines and the reasons are this project's own.
//!
//! # What is proved
//!
//! - A seen pod has its phase, and each container's state and restarts: `PodSeen::of` (uid, phase,
//!   containers).
//! - Changes are printed as a line for the phase, and as one for each container whose state, restarts or
//!   counts changed, as words or as JSON: `pod_changes`, `gone_line`.
//! - The counts of a container's calls are those of its latest status, and a new attempt has none. They are
//!   written as words or as members of an object: `Counts::note` (ok, err), `forget`, `counts_of`,
//!   `add_counts`.
//! - The failed calls are kept by the definition. The newest comes first, one for each container and for each
//!   pod as a whole, with its count, and with the moment since which it failed in the same way:
//!   `Reasons::note` (ok, err, only), `forget`.
//! - A reason is the newest one about the container: `reason_for`.
//! - Each container that is not over has one reason to wait, or runs, by the definition. One that is over has
//!   none: `reason_of` (reason, over, waits, runs), `PodWaits::of`.
//! - The lines that report reasons that appeared, changed and disappeared: `wait_changes`.
//! - The answers, each to its call, that show that a pod is lost: `loss_of`, `Display` of `Loss`,
//!   `call_name`, `container_of`, `uid_of`.
//!
//! Only tested: that each change is reported.
#![tactic(auto)]

mod calls;
mod changes;
mod counts;
mod forms;
mod losses;
mod reasons;
mod seen;
mod wait_texts;
mod waits;

pub use calls::{call_name, container_of, uid_of};
pub use changes::{gone_line, pod_changes};
pub use counts::{CallCounts, Counted, Counts, add_counts};
pub use forms::Form;
pub use losses::{Loss, loss_of};
pub use reasons::{Reason, Reasons, Trouble};
pub use seen::{ContainerSeen, PodSeen};
pub use wait_texts::wait_changes;
pub use waits::{ContainerWait, PodWaits, WaitReason, reason_of};

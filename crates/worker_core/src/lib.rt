//! The agent of a node: it admits pods, gives their requests to workers, and learns from what they report.
//! A machine of events, without threads, sockets or clocks.
//!
//! What is kept of a pod is determined by the whole list of its ended claims. `specs/Nodes.antt` defines a
//! node, and the effect of an event on it, and `specs/Laws.antt` the laws of every run.
//!
//! # What is proved
//!
//! - The kept state stands for nodes, a node being all uids ever admitted and its pods with the whole lists
//!   of their ended claims: `Node::new` (kept, empty).
//! - Each event is one step of every such node, with one answer: `apply` (kept, step).
//! - A refusal changes nothing. Refusals come in this order: known uid, full, memory, or not yours before
//!   nothing. Only an admission and a given claim may run out of memory, and only if something would change.
//!   A report or an abandon by a worker that holds a pod always ends its claim: `apply` (step),
//!   `Answer::is_memory`.
//! - `answer` predicts each answer and changes nothing: `answer` (kept, answer).
//! - The next due moment is the least one, from now on, at which a request is due for a pod that nobody
//!   holds: `next_due` (kept, least).
//! - The pods and claims: `held`, `claim_of` (kept, claim), `pod` (there, few, pod, tracks, phase),
//!   `AgentEvent::is_claim`, `Node::is_busy`.
//! - Copies and comparisons of `AgentEvent`, `Reported`, `Answer`: `try_clone`, `same`.
//! - In every run a pod is held by at most one worker, and a worker holds at most one pod. A uid is admitted
//!   once, and a number is used once: `laws::every_run` (run, link).
//! - The worker gets the pod that waited longest of those that are due, and nothing only if none is due:
//!   `laws::every_run`.
//! - Each attempt follows the manifest, and is made for a pod that is not deleted, once the init containers
//!   in front have succeeded. Attempt k + 1 needs a run of attempt k that a reply to a claim of it reported,
//!   that allows another attempt and whose back-off is over. The run at each place is that of the attempt of
//!   this number: `laws::every_run`.
//! - Each claim that ended was given to a worker that reported its end, and is about its pod. A pod leaves
//!   only if the removal of its sandbox was answered: `laws::every_run`.
//! - Numbers, constants and texts: `NodeRefusal::number`, `Display` of `NodeRefusal`,
//!   `laws::constants_are_as_stated`.
#![tactic(auto)]

mod answers;
mod claims;
mod events;
mod known;
pub mod laws;
mod limits;
mod node;
mod order;
mod pods;
mod slots;
mod turns;

pub use answers::{Answer, NodeRefusal};
pub use events::{AgentEvent, Reported};
pub use limits::{MAX_PODS, MAX_UIDS};
pub use node::Node;

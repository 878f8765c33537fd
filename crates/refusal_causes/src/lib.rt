//! Why a runtime refused requests: the text of each cause, until the sender of the request takes it.
//!
//! A reply has only the number of its refusal. A runtime in the same process as its agent notes here which
//! file was the cause, where in it, and the value there, and the agent uses that text as the reason why a
//! container waits.
//!
//! # What is proved
//!
//! - A noted cause comes first, and the oldest one beyond `MAX_CAUSES` is dropped. If memory runs out nothing
//!   changes: `Causes::note` (ok, err).
//! - A cause is returned only for its own request: the number, the uid and the container's name agree. It is
//!   the newest cause of that request, and is returned once: `Causes::take` (text, rest).
#![tactic(auto)]

mod cause_text;
mod causes;

pub use cause_text::CauseText;
pub use causes::{Cause, Causes, MAX_CAUSES};

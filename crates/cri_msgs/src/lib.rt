//! The messages that agent and runtime exchange: the calls of CRI v1 that this project has, and their
//! answers, as JSON texts.
//!
//! The types enforce the rules of the format: no value has an invalid uid, name or path, there is an exit
//! code only if a container has exited, and a list has at most [`MAX_LISTED`] entries. `specs/Requests.antt`
//! and `specs/Replies.antt` define which text is which message, and `specs/Written.antt` how a message is
//! written.
//!
//! # What is proved
//!
//! - The reader accepts exactly the texts that are requests and replies of their frame's version, and reports
//!   the number of any other text: `Request::read`, `Reply::read` (found, only, refused).
//! - The text that is written is compact JSON, members in the order of their keys. It fits into a frame and
//!   reads as the message: `write` of both (text, reads, some, short).
//! - Uids, names, paths, exit codes and lists keep their rules by type: `Listing`, `Statuses` (value, few).
//! - Copies and equality: `try_clone`, `same`.
//! - Containers are ordered by name and attempt: `Ord` of `ContainerMetadata`.
//! - Which exit codes a reply reports: `Answer::exit_told` (told, silent).
//! - Numbers, kinds and texts: `Refusal::number`, `Version::number`, `State::kind`, `Display` of
//!   `MessageFault`, `constants_are_as_stated`.
#![tactic(auto)]

mod calls;
mod faults;
mod fields;
mod keys;
mod laws;
mod lists;
mod names;
mod object;
mod refusals;
mod replies;
mod reply_reader;
mod reply_writer;
mod request_reader;
mod request_writer;
mod states;
mod tells;
mod version;

pub use calls::{Call, Request};
pub use faults::MessageFault;
pub use keys::{ContainerMetadata, Key};
pub use laws::constants_are_as_stated;
pub use lists::{ListedContainer, ListedStatus, Listing, MAX_LISTED, Statuses};
pub use refusals::Refusal;
pub use replies::{Answer, Reply};
pub use states::{ContainerState, State, Status};
pub use version::{MAX_TEXT, Version};

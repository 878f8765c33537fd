//! What a refused file is, where its bytes show that: a filter in the place of a profile, a configuration of
//! a container, several documents, and others.
//!
//! A program prints a hint after the fault of the file. `specs/Hints.antt` defines which bytes each hint
//! suits, and in which order hints are tried.
//!
//! # What is proved
//!
//! - The hint is the first in its order that suits the bytes, and there is none only if none suits:
//!   `hint_of_text`, `hint_of_filter`.
//! - The text of a hint: `Display` of `Hint` and `HintAfter`.
//!
//! A refused allocation is an error, whatever the bytes are.
#![tactic(auto)]

mod documents;
mod filters;
mod hint;
mod hints;
mod starts;
mod suits;
mod trees;

pub use hint::{Hint, HintAfter, Wanted};
pub use hints::{hint_of_filter, hint_of_text};

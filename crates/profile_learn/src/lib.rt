//! A profile from the calls that were seen: each of them is allowed, and a base decides all others.
//!
//! `specs/Sightings.antt` defines what sightings show of a call, `specs/Kept.antt` the summary of them, and
//! `specs/Allowed.antt` the decisions of the profile.
//!
//! # What is proved
//!
//! - [`Learned::new`] is the summary of no sightings: `empty`.
//! - [`Learned::note`] adds one sighting: the summary of a list becomes that of the list with the sighting at
//!   its end: `noted`.
//! - [`Learned::is_seen`] returns whether a call was seen, for each list of sightings with this summary:
//!   `seen`.
//! - [`Learned::is_unclear`] returns whether a call was seen without a value of its small argument, for each
//!   list of sightings with this summary: `unclear`.
//! - [`profile_of`] returns a profile that allows a call of x86-64 if the call was seen, under `args` with a
//!   value that was seen, or if it is one of the needed calls and these are wanted. On every other call the
//!   profile has the value of the base: `means`.
//! - [`small_argument`] returns which argument of a call is compared under `args`: its clause. The numbers
//!   are those of the table: `small_arguments_are_as_named`.
#![tactic(auto)]

mod laws;
mod learned;
mod learner;
mod needed;
mod sighting;
mod values;

pub use laws::small_arguments_are_as_named;
pub use learned::Learned;
pub use learner::{Wanted, profile_of};
pub use sighting::{Sighting, small_argument};

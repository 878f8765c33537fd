//! What a name is that the call table lacks: seccomp profiles of engines name calls of other architectures and
//! of newer kernels, and people misspell names.
//!
//! `specs/Kinds.antt` defines the kinds, over the lists of `src/table.rt`; `specs/Near.antt` defines which
//! names are alike.
//!
//! # What is proved
//!
//! - The kind of a name, by the lists: `kind_of`.
//! - A suggested call is in the call table, its name is like the given one, and no call is suggested only if no
//!   name of the table is like it: `suggestion`.
//!
//! Only tested: the values of the lists.
#![tactic(auto)]

mod kind;
mod near;
mod table;

pub use kind::{AbsentName, kind_of};
pub use near::{suggestion, suggestions_are_calls};

//! Compares two seccomp filters on every call, or on every native one: classic BPF over a call's data,
//! seccomp(2).
//!
//! `specs/Agree.antt` defines the meaning of a result for two filters. `compare` follows paths through both,
//! each for a set of calls (`path.rt`, `walk.rt`, `step.rt`). It knows bounds and bits of each word of these
//! calls (`known.rt`, `range.rt`, `question.rt`, `bounded.rt`). If that is not enough, it learns one bit of
//! the calls at a time (`asking.rt`). So only arithmetic, an X that may be many numbers and the budget leave
//! a result undecided.
//!
//! # What is proved
//!
//! - Same is returned only if both filters have a run, to the same value, on every call of the scope:
//!   `compare`, `compare_watched`.
//! - Differs is returned with a call of the scope and two different values, those of the runs on it:
//!   `compare`, `compare_watched`.
//!
//! Undecided promises nothing. Only tests show that it is limited to an exceeded budget, arithmetic other
//! than masks and an X of more than twelve open bits, and that equal code is never undecided. Only tests show
//! that equal filters of other shapes are found the same, and that differences are found.
#![tactic(auto)]

mod asking;
mod bounded;
mod comparer;
mod comparison;
mod difference;
mod known;
mod laws;
mod path;
mod question;
mod range;
mod scope;
mod step;
mod value;
mod walk;
mod witness;
mod word;

pub use comparer::{Unwatched, Watch, compare, compare_watched};
pub use comparison::{Comparison, Doubt};
pub use scope::{Calls, Scope};

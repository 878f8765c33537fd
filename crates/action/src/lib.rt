//! The verdicts of seccomp filters on system calls: the actions of seccomp(2), and the 32-bit values that
//! encode them.
//!
//! Every value has a verdict; an unknown action counts as the strictest one. The tables are in
//! `specs/Verdict.antt`.
//!
//! # What is proved
//!
//! - Every value has its verdict: `Verdict::of_value`.
//! - A verdict has its value, from verdict to value and back: `value`, `verdicts_round_trip`,
//!   `values_round_trip`.
//! - The rank of a verdict: `rank`, `ranks_are_an_order`.
//! - A verdict decides whether the call is performed, and which errno is returned: `performs`, `errno`.
//! - The printed forms of verdicts and values: `Display` of `Verdict`, `ValueText`,
//!   `ValueMembers` and `ValueObject`.
//! - The errnos of errno(3) by name and by number: `errno_number`, `errno_name`, `Display` of `ShownErrno`.
//!
//! Only tested: that errnos have the numbers of this machine.
#![tactic(auto)]

mod action;
mod errnos;
mod laws;
mod shown;
#[cfg(test)]
mod tests;
mod verdict;

pub use action::Action;
pub use errnos::{ShownErrno, errno_name, errno_number};
pub use laws::{
    constants_are_as_stated, ranks_are_an_order, values_round_trip, verdicts_round_trip,
};
pub use shown::{ValueMembers, ValueObject, ValueText};
pub use verdict::{ENOSYS, MAX_ERRNO, Verdict};

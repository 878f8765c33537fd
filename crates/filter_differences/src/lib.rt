//! All the calls on which two seccomp filters differ, by number: classic BPF over a call's data, seccomp(2),
//! and the numbers of asm/unistd_64.h.
//!
//! A part is the calls of x86-64 with one number that has a name, with numbers that have none, or with
//! numbers above those of the known calls, the calls of x32, or those of other architectures (`specs/Parts.antt`).
//! `differences` compares the filters part by part. It returns a finding for each part on which they were not
//! found to be the same.
//!
//! # What is proved
//!
//! - Both filters return the same value on each call that is in no reported part: `differences` (complete).
//! - A reported difference is a call of its part and two different values, those of the runs on it:
//!   `differences` (real, parts).
//! - The parts are reported in order, and a number that has a name is a part of its own: `differences`
//!   (in_order, parts).
//! - No call is in two reported parts: `parts_are_apart`.
//!
//! A part without an answer is reported as such. Only tests show that this is limited to the cases in which
//! `bpf_compare::compare` finds no answer.
#![tactic(auto)]

mod by_part;
mod finding;
mod laws;
mod part;

pub use by_part::differences;
pub use finding::{Finding, Found};
pub use laws::parts_are_apart;
pub use part::Part;

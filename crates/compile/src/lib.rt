//! Compiles seccomp profiles to classic BPF filters: OCI runtime-spec 1.1, config-linux, seccomp.
//!
//! A filter's value is its profile's, `specs/Meaning.antt` of `oci_profile`, on every call. Code is built
//! from its end, so that places do not change while more is put in front (`code.rt`): first the decision of a
//! number's entries, then a tree over ranges of numbers that are treated alike (`tree.rt`), then the test of
//! the architecture (`compiler.rt`).
//!
//! Entries are rules of clauses over words of a call's data (`rules.rt`). A question about a word is asked,
//! and for each answer the rules it leaves are built in the same way (`build.rt`, `clause.rt`, `atom.rt`).
//! Any question is right; `choose.rt` looks for one that leads to few steps. Code longer or slower than
//! promised is cut back (`tree.rt`). In its place all rules are tested one after another (`plain.rt`), or the
//! numbers that one argument may equal are searched by halves (`search.rt`).
//!
//! # What is proved
//!
//! - The filter is sound: `compile` (sound).
//! - Its value is the profile's on every call, 64-bit conditions included: `compile` (means).
//! - It is no longer than the profile's weight: `compile` (weighed).
//! - TooLong is returned exactly if the weight is above 4,096: `compile` (long).
//! - If no entry has conditions, each call takes at most `5 + 2 d` steps. Here `d` is the number of binary
//!   digits of `2 w + 1`, and `w` the count of the named numbers: `compile` (few).
//! - Otherwise a call takes at most `10 + 2 d + 6 m` steps, with `m` the number of conditions of the entries
//!   that name its number: `compile` (bounded).
//! - If all of these conditions ask one argument for equality, it takes at most `10 + 2 d + 12 k` steps, with
//!   `k` the number of binary digits of `m`: `compile` (balanced).
//! - The text of a fault: `Display` of `CompileFault`.
//!
//! Only tested: the figures of RuntimeDefault. It has 60 instructions, and takes at most 13 steps over the
//! numbers 0 to 450 (9.4 in the mean), and 15 over its arguments.
#![tactic(auto)]

mod apart;
mod atom;
mod build;
mod choose;
mod clause;
mod code;
mod compiler;
mod fault;
mod order;
mod plain;
mod ranges;
mod remaining;
mod rules;
mod search;
mod tree;

pub use compiler::compile;
pub use fault::CompileFault;

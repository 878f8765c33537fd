//! The data of a system call as a seccomp filter reads it: `struct seccomp_data` of seccomp(2).
//!
//! `SysCall` has the fields, `to_bytes` returns their 64 bytes, and `word` and `word_of` read the 32-bit
//! words that an absolute load can reach. `specs/CallData.antt` defines the bytes and words.
//!
//! # What is proved
//!
//! - The 64 bytes of a call are those of `struct seccomp_data`: `to_bytes`.
//! - Each word is the little-endian number of four of these bytes: `word`, `word_of`.
//! - Each number of a call fits its field: `fields_fit`.
//! - The places of the fields: `words_of_fields`.
#![tactic(auto)]

mod laws;
mod sys_call;
#[cfg(test)]
mod tests;
mod words;

pub use laws::{constants_are_as_stated, fields_fit};
pub use sys_call::{NATIVE_ARCH, SysCall};
pub use words::{word_of, words_of_fields};

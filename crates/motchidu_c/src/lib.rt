//! Compiling, explaining, checking, running and comparing for C: the static library of `include/motchidu.h`.
//!
//! Each export calls the crates below and states their clauses again. A `Status` is what an export returns,
//! as a number; `specs/Status.antt` has the fault of each. A C caller must meet the header's requirements on
//! its pointers.
//!
//! # What is proved
//!
//! - A compiled filter is sound, and its value on every call is the profile's; it fills the first bytes of
//!   the room, and the others are unchanged: `motchidu_compile` and `motchidu_compile_at`: compiled. If there
//!   is no room, the length is that of such a filter: no_room.
//! - A text that is no profile is refused for its first fault, a profile that is too heavy as such, and any
//!   other is compiled, memory aside; the length of a text is checked in any case: first, heavy, accepts,
//!   large. Nothing else is written: kept, len_kept.
//! - The place of a profile's first fault is written whole, if there is room for it, and its length is set in
//!   any case: `motchidu_compile_at`: placed. No place is written for a profile, or if memory runs out:
//!   place_kept, place_len_kept, memory_place, memory_place_len.
//! - The same with the calls of the version of Linux that a number names: `motchidu_compile_with`. A number
//!   is UnknownVersion exactly if it names no version, and nothing is written then: version, kept, len_kept,
//!   version_place, version_place_len. Likewise for what follows: `motchidu_explain_with`,
//!   `motchidu_explain_name`, which finds the call by its name, `motchidu_resolve_with`, `motchidu_call_number_with`, `motchidu_call_name_with`.
//! - What decides a call under a profile is another architecture, the bit of x32, the first entry that names
//!   the call and whose conditions all hold, or the default; the value is the decision's, and the profile's
//!   on the call: `motchidu_explain`: explained. Refusals are those of a profile, and write nothing: first,
//!   accepts, large, decider_kept, entry_kept, value_kept.
//! - A resolved text reads as the template's plain profile for the capabilities of the mask, amd64 and the
//!   kernel: `motchidu_resolve`: resolved. Any other answer is the template's first fault, or TooLarge for a
//!   template that was read, or Memory: refused. Nothing else is written: kept, len_kept.
//! - A text that reads as RuntimeDefault is written, memory aside: `motchidu_default`: written, kept,
//!   len_kept.
//! - The name of a call of Linux 5.8 has exactly the call's number, and the number exactly that name; others
//!   are UnknownCall, and write nothing: `motchidu_call_number`: accepts, number, unknown, kept;
//!   `motchidu_call_name`: named, unknown, kept, len_kept.
//! - Exactly the sound filters are accepted; another is refused for its first fault, with its place, memory
//!   aside: `motchidu_verify` and `motchidu_longest`: sound, kept, refused, told, accepts, first. The longest
//!   way has that many instructions: `motchidu_longest`: longest, longest_kept.
//! - Values and steps are those of the run on each call: `motchidu_run_all`: ran. Lengths that differ are
//!   returned first. A refused filter has the status of `motchidu_verify`, and writes nothing: lengths,
//!   refused, told, accepts, first, values_kept, steps_kept.
//! - Two filters are Same only if they return the same value on each call of the scope, and are Differ only
//!   with such a call and both values: `motchidu_compare`: same, differ, sound. The first filter's refusals
//!   come first, and nothing else is written: refused, first_told, first_fault, second_told, second_fault,
//!   accepts, call_kept, values_kept.
//!
//! Only tested: that the header and the library agree, by `examples/c`; which doubt is returned for two filters
//! that are not compared to the end; that a plain profile is TooLarge only if it has too many bytes.
#![tactic(auto)]

mod call_name;
mod call_number;
mod calls;
mod capabilities;
mod comparing;
mod compiling;
mod compiling_at;
mod compiling_with;
mod default_profile;
mod explaining;
mod explaining_name;
mod exports;
mod refusal;
mod resolving;
mod room;
mod status;
mod versions;

pub use call_name::{motchidu_call_name, motchidu_call_name_with};
pub use call_number::{motchidu_call_number, motchidu_call_number_with};
pub use comparing::motchidu_compare;
pub use compiling::motchidu_compile;
pub use compiling_at::motchidu_compile_at;
pub use compiling_with::motchidu_compile_with;
pub use default_profile::motchidu_default;
pub use explaining::{motchidu_explain, motchidu_explain_with};
pub use explaining_name::motchidu_explain_name;
pub use exports::{motchidu_longest, motchidu_run_all, motchidu_verify};
pub use resolving::{motchidu_resolve, motchidu_resolve_with};
pub use status::Status;

//! The note on a refused text, for a person, after the name of its file: where in the text the fault is, the
//! fault's name, the value there, and what was wanted.
//!
//! Texts are profiles, manifests and scripts. All programs print the same lines, which `specs/` defines, and
//! show the names of files and of refusals in the same way.
//!
//! # What is proved
//!
//! - The note on a refused text has the fault's name, its place, and the value there as it is in the text's
//!   own tree: `profile_note`, `template_note`, `manifest_note`, `script_note`.
//! - The place and the value there as members of an object of JSON: `fault_members`.
//! - After a name that no known call has, the note shows the call that the name was probably meant to be, or
//!   that a newer table has it: `profile_note` and its like, by `specs/CallHints.antt`.
//! - For a text that is not JSON, the note shows whether it begins as YAML: `profile_note` and its like.
//! - What a text begins with, and what is white space of JSON: `begins_object`, `begins_list`, `is_space`.
//! - The name of a file, each character escaped: `ShownPath`.
//! - The name of each refusal: `refusal_name`.
//!
//! Only tested: the line and the column at which a text stops being JSON, and the words for what was wanted
//! at a place.
#![tactic(auto)]

mod call_hints;
mod members;
mod named;
mod notes;
mod paths;
mod places;
mod refusals;
mod starts;
mod texts;
mod wanted;

pub use members::fault_members;
pub use named::Named;
pub use notes::{left_out_note, manifest_note, profile_note, script_note, template_note};
pub use paths::ShownPath;
pub use refusals::refusal_name;
pub use starts::{begins_list, begins_object, is_space};

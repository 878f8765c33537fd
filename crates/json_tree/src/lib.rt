//! What the readers of JSON (RFC 8259) share: trees of `serde_json`, the type of a tree, and the required and
//! optional members of an object.
//!
//! An optional member that is null counts as left out; a required one then has the wrong type. Unknown
//! members are ignored. A whole number is one that `serde_json` reads as `u64`.
//!
//! # What is proved
//!
//! - A field is present unless null, and has its type, exactly in both directions: `read`, `member`, `has`,
//!   the kinds, `required_..`, `optional_..` (value).
//! - A missing field or a wrong type is reported even if memory runs out: the same calls (told).
#![tactic(auto)]

mod document;
mod faults;
mod kinds;
mod lists;
mod members;
mod optional;
mod required;
mod text_lists;

pub use document::read;
pub use faults::{FieldFault, TextFault};
pub use kinds::{list, object, text, value, whole, word};
pub use members::{has, member};
pub use optional::{
    optional_flag, optional_list, optional_object, optional_text, optional_whole, optional_wholes,
    optional_word,
};
pub use required::{
    required_list, required_object, required_text, required_value, required_whole, required_wholes,
    required_word,
};
pub use text_lists::{optional_text_list, required_text_list};

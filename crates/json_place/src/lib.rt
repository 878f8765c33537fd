//! Places in a JSON text (RFC 8259), and how the value at a place is shown.
//!
//! A place is a path from the root, such as `syscalls[1].names[2]`. It takes no memory.
//!
//! # What is proved
//!
//! - A place is the steps to it, outermost first, and takes no memory. It keeps the six outermost steps:
//!   `Place::within`, `steps`, `is_root`.
//! - The text of a place: `Display` of `Place`, `Quoted`.
//! - A field's fault is at the field, or at the first item of another type: `required_..`, `optional_..`.
//! - The value at a place: `stands_at`.
//! - A text is shown escaped, in 64 bytes of whole characters, with a cut marked: `Shown::of`, `Display` of
//!   `Shown`.
//!
//! Only tested: the text of numbers that are negative or not whole, which `serde_json` writes.
#![tactic(auto)]

mod fields;
mod lists;
mod place;
mod quoted;
mod shown;

pub use fields::{
    FieldFaultAt, optional_flag, optional_list, optional_object, optional_text, optional_whole,
    optional_word, required_list, required_object, required_text, required_value, required_whole,
};
pub use lists::{optional_text_list, required_text_list, required_wholes};
pub use place::{MAX_STEPS, Place, Step};
pub use quoted::{Escaped, MAX_SHOWN, Quoted};
pub use shown::{Shown, stands_at};

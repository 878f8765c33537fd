//! The answers of `seccheck`: about a filter, a call, two filters, a script and a pod, as lines of text or as
//! JSON objects (RFC 8259), one per line.
//!
//! `specs/` defines each answer's bytes. `judging` runs a filter on a call, and `playing` plays the cell of a
//! script to its end; neither prints anything.
//!
//! # What is proved
//!
//! - The headline's first clause, whole: `judge` (sound, run, ends, reads, acts).
//! - A played script has its outcome: every judged call, performed or not, and the code: `play`,
//!   `Outcome::entries`, `code`.
//! - The text of what is judged, shown, compared, played and picked, byte by byte: `Display` of `Judged`,
//!   `Difference`, `ShownValue`, `reason`, `same_line`, `accepted_line`, `compiled_line`, `longest_line`,
//!   `judged_line`, `code_lines`, `outcome_lines`, `picked_lines`.
//! - Its JSON objects, byte by byte: `Display` of `DifferenceObject`, `accepted_object`,
//!   `compiled_object`, `longest_object`, `judged_object`, `same_object`, `record_objects`, `code_objects`,
//!   `picked_objects`.
#![tactic(auto)]

mod compared;
mod judging;
mod line;
mod list_objects;
mod objects;
mod picked;
mod playing;
mod pod_play;
mod show;

pub use compared::{Difference, ShownValue, reason, same_line};
pub use judging::{Judged, judge};
pub use line::{accepted_line, compiled_line, judged_line, longest_line, outcome_lines};
pub use list_objects::{code_objects, picked_objects, record_objects};
pub use objects::{
    DifferenceObject, accepted_object, compiled_object, judged_object, longest_object, same_object,
};
pub use picked::picked_lines;
pub use playing::{Outcome, play};
pub use pod_play::{DeniedCall, decided_by, denied_line, denied_object, ended_line, ended_object};
pub use show::code_lines;

//! Finds what is suspicious in a valid seccomp profile: parts of its text that decide nothing, entries
//! without which it means the same, and entries that engines read differently. OCI runtime-spec 1.1,
//! config-linux, seccomp.
//!
//! `specs/Passed.antt` and `specs/Matters.antt` define the findings about a text; `specs/Findings.antt`,
//! `specs/Entries.antt` and `specs/Engines.antt` those about a profile; `specs/Kinds.antt` kinds and severities, `specs/Choice.antt`
//! which findings are printed, `specs/Text.antt` the lines, and `specs/Objects.antt` the objects of JSON. An
//! entry is judged by comparing filters, made of only the entries that share a call with it (`entries.rt`).
//!
//! # What is proved
//!
//! - Members, names and architectures of a text that decide nothing are found exactly by the definition, in
//!   order, but no name of a newer call that gets what its entry returns: `passed_in`.
//! - Whether an entry is needed: `standing`. An entry reported to decide no call decides none, whatever its
//!   decision is. Without an entry reported as redundant, the profile means the same at every call. An entry
//!   reported as needed has a call that the profile decides differently without it.
//! - All findings are true: `findings`. An entry that engines are reported to read differently decides the
//!   call that is shown, and the model of engines has another value there. A second value is shown if the
//!   model leaves the order of entries open. Two entries reported to overlap both apply to the call that is
//!   shown, and decide it differently, and no entry without conditions decides it for engines.
//! - No finding is left out: `findings`. An entry that is not reported is needed, engines read it alike, and
//!   it overlaps with no later entry, or it is reported as not found out, not looked at or not compared.
//! - The errno of calls newer than the table, exactly: `newer_calls`.
//! - The kind of each finding, and how severe each kind is: `kind_of_passed`, `kind_of_found`, `severity_of`.
//!   Whether a warning or an error is among the findings: `is_bad`, `is_bad_kind`.
//! - The printed lines and the JSON objects, byte by byte: `lint_lines`, `lint_objects`, `finding_object`,
//!   `Display` of `ShownPassed`, `ShownFinding`, `Holder`.
//!
//! Only tested: how seldom an entry is reported as not known, and that runc and libseccomp behave like the
//! model.
#![tactic(auto)]

mod advised;
mod choice;
mod copies;
mod engines;
mod entries;
mod finder;
mod finding;
mod kinds;
mod lines;
mod matters;
mod members;
mod names;
mod objects;
mod passed;
mod sameness;
mod stands;
mod text;
mod witness;
mod words;

pub use choice::{Choice, grave_count, has_newer_names, is_allowed, is_bad, is_bad_kind};
pub use entries::standing;
pub use finder::{all_findings, findings, newer_calls, once};
pub use finding::{EngineValues, Finding};
pub use kinds::{FindingKind, Severity, add_kinds, kind_of_found, kind_of_passed, severity_of};
pub use lines::lint_lines;
pub use matters::passed_in;
pub use objects::{finding_object, lint_objects};
pub use passed::{Holder, Passed};
pub use stands::Standing;
pub use words::{ShownFinding, ShownPassed};

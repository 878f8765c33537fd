//! A report about a seccomp profile: one page of HTML (HTML Living Standard) with a drawing (SVG 2), without
//! script, font or picture, and with nothing to be loaded.
//!
//! `specs/Page.antt` defines the page, `specs/Grid.antt`, `specs/Ways.antt` and `specs/Tallies.antt` the cells
//! of the calls, `specs/Changes.antt` the differences from an old profile, `specs/Entries.antt` and
//! `specs/Notes.antt` the entries with their findings, `specs/Denials.antt` the denied calls, and
//! `specs/Escaped.antt` how a page escapes texts.
//!
//! # What is proved
//!
//! - The page has one cell for each of the known calls, in order. The cell has the decision of the call's row,
//!   which is what `explain` returns: `page` (by `profile_table::rows`).
//! - The page, byte by byte, around its drawing: `page`, `changes_html`, `denials_html`, `Display` of `Html`.
//! - No text adds markup, whatever its characters are and wherever it is cut: `texts_are_no_markup`.
//!
//! Only tested: the drawing of the filter, and that a page has fewer than 300,000 bytes.
#![tactic(auto)]

mod changes;
mod denials;
mod document;
mod drawing;
mod entries;
mod escaping;
mod grid;
mod laws;
mod more;
mod notes;
mod style;
mod tallies;
mod tree;
mod ways;
mod words;

pub use changes::{SHOWN_CHANGES, changes_html};
pub use denials::{SHOWN_DENIALS, denials_html};
pub use document::{Parts, Report, page};
pub use drawing::{no_tree_html, tree_html};
pub use entries::{SHOWN_NAMES, SHOWN_NOTES, SHOWN_OTHERS};
pub use escaping::Html;
pub use laws::texts_are_no_markup;
pub use style::STYLE;
pub use tree::MAX_QUESTIONS;
pub use ways::{FEW_ASKED, SHOWN_OF_FEW, SHOWN_OF_MANY};
pub use words::SHOWN_ENTRIES;

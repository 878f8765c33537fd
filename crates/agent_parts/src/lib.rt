//! Parts of `nodeagent` that never wait: its settings from the command line, why it ends, the table and the
//! state of its pods, its log, its reports on calls, lost pods and a folder's files, the pods that it removes
//! at its end, and the uids that it keeps in its file.
//!
//! # What is proved
//!
//! - The table of a node is a function of what the node keeps. It has for each pod, in order of admission,
//!   its uid and phase, and for each of its containers, init ones first, name, state, code and restarts. It
//!   is printed as words or as JSON, with the given reasons why containers wait: `table`, `told_table`.
//! - The status of `--settle` is 0 exactly if each pod of the printed table is Succeeded or Failed, and 1
//!   with `--fail` if one is Failed: `table_end` (text, end), `NodeEnd::status`.
//! - The end and the text of a stopped program, except for clap's words: `AgentStop::status`, `Display` of
//!   `AgentStop`.
//! - The words that report a lost call: `Display` of `LostCall`.
//! - The first fault of a refused manifest's text, with its place: `pod_of`.
//! - When it is reported that the runtime can't be reached, that it is reached again, and that something
//!   happens again: `reach_of`, `is_unreached`, `report_of`, `Repeats::note` (told, after).
//! - The text of the file of `--state`, which is written before a uid counts as kept: `KeptUids`.
//! - The settings, the clock and the version of the line: `settings_of`, `pace_of`, `version_of`,
//!   `config_of`.
//! - The name of a run, and the status and the text of its end: `run_name`, `run_end`.
//! - The time between two looks into a folder of pods: `rest_after`.
//! - The lines on what of a manifest has no effect: `advice_lines`.
//! - The lines and constants: `working_line`, `FolderLines::reading`, `constants_are_as_stated`.
#![tactic(auto)]

mod advice;
mod folder_lines;
mod inputs;
mod laws;
mod limits;
mod looks;
mod lost;
mod node_ends;
mod reach;
mod removal;
mod repeats;
mod run_ends;
mod settings;
mod state;
mod state_file;
mod stops;
mod tables;
mod telling;
mod troubles;

pub use advice::advice_lines;
pub use folder_lines::FolderLines;
pub use inputs::{NamedPod, pod_at, pod_of};
pub use laws::constants_are_as_stated;
pub use limits::{LONGEST_REST, LOOK_SHARE, POLL, REMOVAL, SETTLE_UNTIL, SHORTEST_REST};
pub use looks::{for_node, rest_after};
pub use lost::{LostCall, Why};
pub use node_ends::{NodeEnd, TableEnd, TableWriter, table_end};
pub use reach::{Reach, ReachReport, is_unreached, reach_of, report_of};
pub use removal::Removal;
pub use repeats::{REPORT_REST, Repeats};
pub use run_ends::{RunEnd, note_of, run_end};
pub use settings::{
    config_of, form_of, limit_of, observed_of, pace_of, run_name, settings_of, version_of,
};
pub use state::{KeptUids, Store};
pub use state_file::StateFile;
pub use stops::AgentStop;
pub use tables::{table, told_table};
pub use telling::{call_line, working_line};
pub use troubles::{CallTroubles, LostPod, loss_line, reach_line, refused_line};

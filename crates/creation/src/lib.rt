//! What a container is made from: the results of reading its files, its script, its profile with its filter,
//! and the stack under which it starts.
//!
//! # What is proved
//!
//! - A container is made from its request's image and profile, and from the results of its files, under the
//!   baseline and its profile, with the id that is given. Otherwise it is refused with the cause:
//!   `built_cell` (made, refused).
//! - Results read and compiled before are those of the bytes, and change no answer: `FileAnswers::prepared`,
//!   `KeptTexts::lend`, `Contents::new`, `as_slice`.
//! - A RuntimeDefault that is ready has the meaning of that profile: the types `Contents`, `KeptText` and
//!   `ReadyDefault`.
//!
//! Only tested: that scripts and profiles are prepared before the locks, and which texts are kept, and how
//! long (`tests_runner`).
#![tactic(auto)]

mod building;
mod files;
mod kept;
mod ready;
mod texts;

pub use building::built_cell;
pub use files::{Contents, FileAnswer, FileAnswers};
pub use kept::{KeptTexts, MAX_KEPT_BYTES, MAX_KEPT_PROFILES, MAX_KEPT_SCRIPTS, NewTexts};
pub use ready::ReadyDefault;
pub use texts::{CompiledProfile, ReadAs};

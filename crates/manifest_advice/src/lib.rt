//! What of a manifest has no effect, although it was probably meant to have one: members that differ from those
//! of a Pod by the case of their letters, and the annotations that profiles had before Kubernetes 1.27.
//!
//! The API server reads the members of a Pod by their exact names, and so do `manifest`'s readers: another
//! member is ignored. `specs/Advice.antt` defines which members and annotations are meant.
//!
//! # What is proved
//!
//! - The advice on a manifest's tree is exactly that of the definition, in its order: `advice_in`.
//! - The words of each, byte by byte: `Display` of `Advice`, `AdvicePlace`, `AdviceWords`, `Holder`,
//!   `advice_texts`.
//! - The constants are as stated: `constants_are_as_stated`.
#![tactic(auto)]

mod advice;
mod holder;
mod laws;
mod members;
mod texts;
mod walk;

pub use advice::{Advice, AdvicePlace, AdviceWords};
pub use holder::{Holder, Listing};
pub use laws::constants_are_as_stated;
pub use texts::advice_texts;
pub use walk::advice_in;

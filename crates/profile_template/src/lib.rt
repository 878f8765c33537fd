//! Templates of seccomp profiles, as Docker, podman and containerd keep them: OCI's `linux.seccomp` with
//! conditions on entries, which depend on a container's capabilities, an architecture and a kernel version.
//!
//! `specs/Settings.antt` defines when the conditions of an entry are met, and `specs/Reading.antt` which
//! fault of a template is found first. `profile_text` writes the result as a plain profile.
//!
//! # What is proved
//!
//! - A text is read as a template, for given settings, exactly by its definition. Others are refused with the
//!   first fault and its place, memory aside: `read`.
//! - The written text reads as the profile with exactly the entries whose conditions the settings meet, in
//!   their order, without the names that are left out: `Template::write`.
//! - Which names are left out: `left_out`.
//! - The settings' versions and architectures: `Version::of`, `is_at_least`, `seccomp_arch`.
//! - The text of a fault: `Display` of `TemplateFault`.
#![tactic(auto)]

mod architectures;
mod conditions;
mod decisions;
mod faults;
mod left_out;
mod names;
mod placed;
mod reader;
mod settings;
mod signs;
mod template;
mod version;

pub use architectures::seccomp_arch;
pub use faults::TemplateFault;
pub use left_out::LeftOut;
pub use placed::TemplateFaultAt;
pub use reader::read;
pub use settings::Settings;
pub use signs::{TemplateSign, template_sign};
pub use template::Template;
pub use version::Version;

//! Writes files: [`replace`] writes one completely or leaves it as it was, and [`open_closed`] keeps the
//! numbers of the standard streams from other files.
//!
//! [`put_whole`] is `replace` over any [`Disk`]: the order of its steps, and what each fault leaves.
//!
//! # What is proved
//!
//! - Over any disk with a model of its contents, a written file has exactly its bytes. After a fault it has
//!   its old contents: `put_whole` (written, kept), `Disk::write_new`, `rename`, `remove`.
//! - Every other path keeps its contents, except for one name beside the file that was free: `put_whole`
//!   (others).
//! - A disk in memory that fails at the n-th call keeps these promises: `MemoryDisk::read`, `put`.
//!
//! Only tested: the contents of the system's files, about which `replace` claims nothing; links, permissions
//! and devices; that the new file is removed after a fault (its tests); `open_closed`.
#![tactic(auto)]

mod disk;
#[cfg(test)]
mod disk_tests;
mod memory_disk;
mod replacing;
mod standard_streams;
mod system_disk;
mod whole_file;

pub use disk::{Disk, NewFault};
pub use memory_disk::MemoryDisk;
pub use replacing::replace;
pub use standard_streams::open_closed;
pub use whole_file::{NAMES, put_whole};

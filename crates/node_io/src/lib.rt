//! What a node reads and writes: files, and wires to a peer, each as a trait with a count of the failures
//! of its device.
//!
//! A device's fault is reported only if that count rose in the call. The models of in-memory devices have
//! their contents, so that contracts built on them can be about bytes; those of real devices don't.
//!
//! # What is proved
//!
//! - A device's fault is reported only if its count of failures rose in that call: `Files::read` (failed,
//!   counted), `Wire::read` and `write` (failed, counted), `failures`.
//! - If a device's model has its contents, a file's bytes are those at its path, no more than the limit.
//!   NotFound and TooLarge are returned only if true: `Files::read` (bytes, within, not_found, too_large,
//!   kept).
//! - A wire moves its bytes in order, and none at a failure: `Wire::read` (within, room, input, output),
//!   `write` (within, output, input, some).
//! - Files and wires in memory do exactly what is requested. A wire in memory fails if it is made to or is
//!   full, and never otherwise: `MemoryFiles::read` (fault, memory, after), `MemoryWire::read` (fails, err,
//!   count, moved, ok), `write` (fails, err, count, ok), `written`.
//! - Below a folder, the opened path is the folder, `/` and the path. A path that is empty, begins at the
//!   root or has a part `..` leads nowhere: `SystemFiles::read` (outside, folder, and `opened` within it),
//!   `read_file` (within), `read_stream` (within).
//! - The causes and texts of faults: `Cause::of`, `Display` of `FileFault`, `WireFault`, `Cause`,
//!   `CausedFault`.
//!
//! Only tested: the results of the system's files and sockets. These are files at the limit and one above, a
//! folder, a device, a missing file, a socket whose peer is gone, and which error the system returns
//! (`tests/filters/causes.case`).
#![tactic(auto)]

mod causes;
mod faults;
mod files;
mod laws;
mod memory_files;
mod memory_wire;
mod reading;
mod stream_wire;
mod system_files;
mod wire;

pub use causes::Cause;
pub use faults::{CausedFault, FileFault};
pub use files::{Files, MAX_FILE_BYTES};
pub use laws::constants_are_as_stated;
pub use memory_files::{MemoryFiles, StoredFile};
pub use memory_wire::MemoryWire;
pub use stream_wire::StreamWire;
pub use system_files::{SystemFiles, look_at_folder, read_file, read_stream};
pub use wire::{Wire, WireFault};

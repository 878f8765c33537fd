//! The needs of a look: a folder's files, and the reader of their texts.
ghost use Rattle.std.specs.Prelude.{◌≡◌, ℕ, IfOk, List, None, Option, Some};
ghost use Rattle.node_io.specs.Held.{Held, Tells};
ghost use Rattle.pod_folder.specs.Looking.{ReadsAs};
ghost use Rattle.pod_folder.specs.declared.looks.Manifest.{Manifest};

use crate::looks::{Manifest, Stamp};
use manifest::Uid;
use node_io::CausedFault;
use std::alloc::AllocError;

/// The files of a folder, by name.
pub trait FolderFiles {
    // The bytes under each name, if they are known.
    ghost held: { Self → Option Held } = { λ _. None };

    /// The state of the file of this name, or why it can't be read.
    fn stamp(&mut self, name: &str) -> Result<Stamp, CausedFault>
        ensures { held self.new ≡ held self.old };

    /// The bytes of the file of this name.
    fn read(&mut self, name: &str) -> Result<Vec<u8>, CausedFault>
        ensures bytes { IfOk result (λ bytes.
            Tells (held self.old) name.now (λ found. found ≡ Some bytes.items)) }
        ensures kept { held self.new ≡ held self.old };
}

/// The result of reading a text.
#[derive(Debug, Drop)]
pub enum Reading {
    /// A manifest.
    Pod(Manifest),
    /// It is refused; the line has the reason.
    Refused(String),
}

/// Reads the texts of manifests, and knows which pods are on the node.
pub trait ManifestReader {
    // The manifests that a text may be read as.
    ghost reads: { List ℕ → Manifest → Type 0 };

    /// Reads the text of the file of this name.
    fn read(&self, name: &str, bytes: &[u8]) -> Result<Reading, AllocError>
        ensures { IfOk result (ReadsAs reads bytes.now) };

    /// Whether a pod of this uid is on the node.
    fn is_on_node(&self, uid: &Uid) -> bool;
}

ghost use Rattle.std.specs.Prelude.{◌≡◌, None, Some, IfErr, OnOk, OnErr};
ghost use Rattle.std.specs.declared.option.Option.{Option};
ghost use Rattle.node_io.specs.Held.{Held};
ghost use Rattle.host_io.specs.Places.{IsAt, KeepsAll, KeepsOthers, Moves};

use node_io::CausedFault;

/// Why a new file was not written.
#[derive(Clone, Copy, Debug, PartialEq, Eq)]
pub enum NewFault {
    /// Something is at the path.
    Taken,
    /// The file could not be made.
    Unmade(CausedFault),
    /// The file is there, with some of its bytes.
    Unfinished(CausedFault),
}

/// A disk that files are written to. The clauses state what a failed call leaves.
pub trait Disk {
    // The disk's contents, if they are known.
    ghost held: { Self → Option Held } = { λ _. None };

    /// Makes a file with these bytes at a path where nothing is.
    fn write_new(&mut self, path: &str, bytes: &[u8]) -> Result<(), NewFault>
        ensures written { OnOk result (IsAt (held self.new) path.now (Some bytes.now)) }

        // A file is made only where none was.
        ensures free { OnOk result (IsAt (held self.old) path.now None) }
        ensures unfinished { IfErr result (λ fault. (why : CausedFault) → fault ≡ NewFault.Unfinished why
            → IsAt (held self.old) path.now None) }
        ensures taken { result ≡ Err NewFault.Taken → KeepsAll (held self.old) (held self.new) }
        ensures unmade { IfErr result (λ fault. (why : CausedFault) → fault ≡ NewFault.Unmade why
            → KeepsAll (held self.old) (held self.new)) }
        ensures others { KeepsOthers path.now (held self.old) (held self.new) };

    /// Moves a file to another path, and replaces what is there in the same step.
    fn rename(&mut self, from: &str, to: &str) -> Result<(), CausedFault>
        ensures moved { OnOk result (Moves from.now to.now (held self.old) (held self.new)) }
        ensures kept { OnErr result (KeepsAll (held self.old) (held self.new)) };

    /// Removes a file.
    fn remove(&mut self, path: &str) -> Result<(), CausedFault>
        ensures removed { OnOk result (IsAt (held self.new) path.now None) }
        ensures kept { OnErr result (KeepsAll (held self.old) (held self.new)) }
        ensures others { KeepsOthers path.now (held self.old) (held self.new) };
}

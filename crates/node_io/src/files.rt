ghost use Rattle.std.specs.Prelude.{◌≡◌, ◌<◌, ◌≤◌, ℕ, None, Some, IfOk, IfErr, IsSomeAnd, length};
ghost use Rattle.std.specs.declared.option.Option.{Option};
ghost use Rattle.node_io.specs.Counts.{HasRisen};
ghost use Rattle.node_io.specs.Held.{Held, Tells};

use crate::faults::FileFault;

/// The greatest size in bytes of a file that is read completely.
pub const MAX_FILE_BYTES: u64 = 1_048_576;

/// Files that can be read completely, by path.
pub trait Files {
    // The contents of the files, if they are known.
    ghost held: { Self → Option Held } = { λ _. None };

    // How many failures of the device there were.
    ghost failed: { Self → ℕ };

    /// The bytes of the file with this path, if they are no more than the limit.
    fn read(&mut self, path: &str, limit: u64) -> Result<Vec<u8>, FileFault>
        ensures bytes { IfOk result (λ bytes.
            Tells (held self.old) path.now (λ found. found ≡ Some bytes.items)) }
        ensures within { IfOk result (λ bytes. length bytes.items ≤ limit) }
        ensures not_found { IfErr result (λ fault. fault ≡ FileFault.NotFound
            → Tells (held self.old) path.now (λ found. found ≡ None)) }
        ensures too_large { IfErr result (λ fault. fault ≡ FileFault.TooLarge
            → Tells (held self.old) path.now (λ found. IsSomeAnd found (λ bytes. limit < length bytes))) }

        // The device's fault is reported only if the device failed.
        ensures failed { IfErr result (λ fault. fault ≡ FileFault.Failed
            → HasRisen (failed self.old) (failed self.new)) }
        ensures counted { failed self.old ≤ failed self.new }
        ensures kept { held self.new ≡ held self.old };

    /// How many failures of the device there were. The count saturates.
    fn failures(&self) -> u64
        ensures { result ≡ failed self.now };
}

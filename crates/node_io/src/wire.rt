ghost use Rattle.std.specs.Prelude.{◌≡◌, ◌<◌, ◌≤◌, ℕ, List, None, IfOk, OnErr, OnOk, length};
ghost use Rattle.std.specs.declared.option.Option.{Option};
ghost use Rattle.std.specs.Io.KnownBytes.{Keeps, ReadConsumes, WriteAppends};
ghost use Rattle.node_io.specs.Counts.{HasRisen};

use std::fmt;
use thiserror::Error;

/// The device of a wire failed: the call moved no byte.
#[derive(Clone, Copy, Debug, PartialEq, Eq, Error)]
pub struct WireFault;

/// The fault's name.
impl fmt::Display for WireFault {
    ghost use Rattle.std.specs.Prelude.{Some, codes};

    ghost output = { λ _. Some (codes "Failed") };

    fn fmt<W: fmt::Write>(&self, f: &mut fmt::Formatter<W>) -> fmt::Result {
        f.write_str("Failed")
    }
}

/// A stream of bytes from a peer, and one to it. A call moves some bytes, or fails and moves none.
pub trait Wire {
    // The bytes left to read up to the end, if they are known.
    ghost input: { Self → Option (List ℕ) } = { λ _. None };

    // The bytes that were written, if they are known.
    ghost output: { Self → Option (List ℕ) } = { λ _. None };

    // How many failures of the device there were.
    ghost failed: { Self → ℕ };

    /// Reads some bytes into the front of `buf` and returns how many. If `buf` is not empty, 0 is the end.
    fn read(&mut self, buf: &mut [u8]) -> Result<usize, WireFault>
        ensures within { IfOk result (λ n. n ≤ length buf.new) }
        ensures room { length buf.new ≡ length buf.old }
        ensures input { ReadConsumes (input self.old) (input self.new) result buf.new }
        ensures output { Keeps (output self.old) (output self.new) }

        // A failure is reported only if the device failed.
        ensures failed { OnErr result (HasRisen (failed self.old) (failed self.new)) }
        ensures counted { failed self.old ≤ failed self.new };

    /// Writes some of the bytes, from the front, and returns how many: 0 only if there are none to write.
    fn write(&mut self, bytes: &[u8]) -> Result<usize, WireFault>
        ensures within { IfOk result (λ n. n ≤ length bytes.now) }
        ensures some { IfOk result (λ n. 0 < length bytes.now → 0 < n) }
        ensures output { WriteAppends (output self.old) (output self.new) result bytes.now }
        ensures input { Keeps (input self.old) (input self.new) }

        // A failure is reported only if the device failed.
        ensures failed { OnErr result (HasRisen (failed self.old) (failed self.new)) }
        ensures counted { failed self.old ≤ failed self.new };

    /// How many failures of the device there were. The count saturates.
    fn failures(&self) -> u64
        ensures { result ≡ failed self.now };
}

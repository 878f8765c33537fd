ghost use Rattle.std.specs.Prelude.{◌≡◌, ◌<◌, ◌≤◌, IfErr, OnErr, OnOk, length, take};
ghost use Rattle.std.specs.Io.KnownBytes.{Appends, Consumes, Keeps};
ghost use Rattle.node_io.specs.Counts.{HasRisen};
ghost use Rattle.cri_frames.specs.Steps.{Stops};

use node_io::Wire;

/// Why not all bytes were read.
#[derive(Clone, Copy)]
pub(crate) enum Stop {
    /// A read failed.
    Failed,
    /// The input ended.
    Ended,
}

/// Writes all bytes. Each write offers all that is left. If one fails, the error is how many bytes were
/// written before.
pub fn write_all<W: Wire>(wire: &mut W, bytes: &[u8]) -> Result<(), usize>
    ensures ok { OnOk result (Appends (W.output wire.old) (W.output wire.new) bytes.now) }
    ensures within { IfErr result (λ count. count < length bytes.now) }
    ensures some { IfErr result (λ count. Appends (W.output wire.old) (W.output wire.new)
        (take count bytes.now)) }
    ensures failed { OnErr result (HasRisen (W.failed wire.old) (W.failed wire.new)) }
    ensures counted { W.failed wire.old ≤ W.failed wire.new }
    ensures input { Keeps (W.input wire.old) (W.input wire.new) }
{
    let mut count = 0;
    while count < bytes.len() {
        match wire.write(&bytes[count..]) {
            Ok(more) => count += more,
            Err(_) => return Err(count),
        }
    }
    Ok(())
}

/// Reads until all of `buf` is filled.
pub(crate) fn read_all<W: Wire>(wire: &mut W, buf: &mut [u8]) -> Result<(), Stop>
    ensures ok { OnOk result (Consumes (W.input wire.old) (W.input wire.new) buf.new) }
    ensures stops { IfErr result (Stops (length buf.old) (W.input wire.old) (W.input wire.new)
        (W.failed wire.old) (W.failed wire.new)) }
    ensures counted { W.failed wire.old ≤ W.failed wire.new }
    ensures output { Keeps (W.output wire.old) (W.output wire.new) }
{
    let mut count = 0;
    while count < buf.len() {
        match wire.read(&mut buf[count..]) {
            Ok(0) => return Err(Stop::Ended),
            Ok(more) => count += more,
            Err(_) => return Err(Stop::Failed),
        }
    }
    Ok(())
}

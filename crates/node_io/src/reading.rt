ghost use Rattle.std.specs.Prelude.{◌≡◌, ◌≤◌, IfOk, length};
ghost use Rattle.node_io.specs.Held.{AreAll};

use crate::causes::Cause;
use crate::faults::{CausedFault, FileFault};
use std::alloc::Global;
use std::io::Read;

// How many bytes are read at once.
const PIECE: usize = 4096;

// All remaining bytes, if they are no more than the limit. An interrupted read counts as failed. Each read
// but the last returns at least one byte, so limit + 1 reads without an end show that there are too many.
pub(crate) fn read_all<S: Read>(
    alloc: Global,
    source: &mut S,
    limit: u64,
) -> Result<Vec<u8>, CausedFault>
    ensures all { IfOk result (λ bytes. AreAll (S.remaining source.old) bytes.items) }
    ensures within { IfOk result (λ bytes. length bytes.items ≤ limit) }
{
    let mut bytes = Vec::new(alloc);
    let mut piece = [0u8; PIECE];
    for _ in 0..=limit {
        let count = match source.read(&mut piece) {
            Ok(count) => count,
            Err(error) => return Err(CausedFault::failed(Cause::of(&error))),
        };
        if count == 0 {
            return Ok(bytes);
        }
        if count as u64 > limit - bytes.len() as u64 {
            return Err(CausedFault::from(FileFault::TooLarge));
        }
        bytes.extend_from_slice(&piece[..count])?;
    }
    Err(CausedFault::from(FileFault::TooLarge))
}

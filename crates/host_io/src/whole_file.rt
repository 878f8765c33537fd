//! Writes a file completely, or leaves it as it was.
ghost use Rattle.std.specs.Prelude.{◌≡◌, ◌++◌, Some, None, IfOk, IfErr, OnOk, OnErr, string_bytes, codes};
ghost use Rattle.host_io.specs.Places.{IsAt, IsFree, KeepsAll, KeepsAt, KeepsOthers, Spares, name_beside};

use crate::disk::{Disk, NewFault};
use node_io::{Cause, CausedFault};
use std::alloc::{AllocError, Global};

/// How many names beside a path are tried. Earlier runs may have left files at some of them.
pub const NAMES: u32 = 100;

// EEXIST of errno(3): each name beside the path is taken.
const EXISTS: u32 = 17;

/// Writes a file completely: its bytes go to a new file beside it, named PATH.new0 to PATH.new99, which then
/// replaces it. If anything fails, the file stays as it was, and so does everything else; only the new file
/// may be left, if it can't be removed either.
pub fn put_whole<D: Disk>(
    alloc: Global,
    disk: &mut D,
    path: &str,
    bytes: &[u8],
) -> Result<(), CausedFault>
    ensures written { OnOk result (IsAt (D.held disk.new) path.now (Some bytes.now)) }
    ensures kept { OnErr result (KeepsAt (D.held disk.old) (D.held disk.new) path.now) }
    ensures others { Spares path.now (D.held disk.old) (D.held disk.new) }
{
    let name = write_beside(alloc, disk, path, bytes)?;
    match disk.rename(name.as_str(), path) {
        Ok(()) => Ok(()),
        Err(fault) => {
            let _ = disk.remove(name.as_str());
            Err(fault)
        }
    }
}

// Writes the bytes to a new file beside the path, and returns its name.
fn write_beside<D: Disk>(
    alloc: Global,
    disk: &mut D,
    path: &str,
    bytes: &[u8],
) -> Result<String, CausedFault>
    ensures written { IfOk result (λ name. IsAt (D.held disk.new) (string_bytes name) (Some bytes.now)) }
    ensures free { IfOk result (λ name. IsFree path.now (string_bytes name) (D.held disk.old)) }
    ensures others { IfOk result (λ name. KeepsOthers (string_bytes name) (D.held disk.old) (D.held
        disk.new)) }
    ensures kept { OnErr result (KeepsAt (D.held disk.old) (D.held disk.new) path.now) }
    ensures spared { OnErr result (Spares path.now (D.held disk.old) (D.held disk.new)) }
{
    for number in 0..NAMES {
        let name = name_beside(alloc, path, number)?;
        match disk.write_new(name.as_str(), bytes) {
            Ok(()) => return Ok(name),
            Err(NewFault::Taken) => {}
            Err(NewFault::Unmade(fault)) => return Err(fault),
            Err(NewFault::Unfinished(fault)) => {
                let _ = disk.remove(name.as_str());
                return Err(fault);
            }
        }
    }
    Err(CausedFault::failed(Cause::Number(EXISTS)))
}

fn name_beside(alloc: Global, path: &str, number: u32) -> Result<String, AllocError>
    ensures { IfOk result (λ name. string_bytes name ≡ name_beside path.now number) }
{
    format!(in alloc; "{path}.new{number}")
}

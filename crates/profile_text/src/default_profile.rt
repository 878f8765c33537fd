ghost use Rattle.std.specs.Prelude.{◌≡◌, ◌<◌, IfOk, false, string_bytes};
ghost use Rattle.oci_profile.specs.Profile.{ReadsProfile};
ghost use Rattle.oci_profile.specs.RuntimeDefault.{runtime_default};

use crate::faults::WriteFault;
use crate::laws::runtime_default_can_be_written;
use crate::writer::write;
use oci_profile::runtime_default;
use std::alloc::{AllocError, Global};
use sys_table::CallTable;

/// The text of RuntimeDefault.
pub fn default_text(alloc: Global) -> Result<String, AllocError>
    ensures { IfOk result (λ text. ReadsProfile (string_bytes text) runtime_default) }
{
    runtime_default_can_be_written();
    let profile = runtime_default(alloc)?;
    match write(alloc, CallTable::Linux5_8, &profile) {
        Ok(text) => Ok(text),
        // It can be written, and is short.
        Err(WriteFault::NoName | WriteFault::TooLarge) => unreachable!(),
        Err(WriteFault::Memory) => Err(AllocError),
    }
}

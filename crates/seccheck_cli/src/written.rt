//! What is written for other programs: a filter's file, and a unit of systemd.
ghost use Rattle.std.specs.Prelude.{◌≡◌, IfOk};
ghost use Rattle.seccheck_cli.specs.Written.{file_bytes};

use base64::engine::general_purpose::STANDARD;
use fault_notes::ShownPath;
use profile_unit::{ShownFault, UnitFault, unit_of, unit_text};
use seccheck_stops::{Output, ProfileFile, Stop, profile_at};
use std::alloc::{AllocError, Global};
use std::rt;
use sys_table::CallTable;

/// The bytes of the file of a filter with this code.
pub(crate) fn file_bytes(
    alloc: Global,
    code: Vec<u8>,
    is_base64: bool,
) -> Result<Vec<u8>, AllocError>
    ensures { IfOk result (λ bytes. bytes.items ≡ file_bytes is_base64 code.items) }
{
    if !is_base64 {
        return Ok(code);
    }
    let mut line = STANDARD.encode(alloc, code.as_slice())?;
    line.push_str("\n")?;
    Ok(line.into_bytes())
}

/// The profile as the lines of a unit of systemd.
pub(crate) fn unit_output<'a, R: rt::Files + AllocGlobal>(
    rt: &R,
    calls: CallTable,
    path: &'a str,
) -> Result<Output, Stop<'a>> {
    let alloc = rt.alloc();
    let ProfileFile { profile, aside, .. } = profile_at(rt, calls, path)?;
    match unit_of(alloc, &profile) {
        Ok(unit) => Ok(Output::with_aside(unit_text(alloc, calls, &unit)?, aside)),
        Err(UnitFault::Memory) => Err(Stop::Memory),
        Err(fault) => Ok(refused(alloc, calls, path, fault)?.after(aside)?),
    }
}

/// The refusal of a profile that no unit has, and on standard error the reason.
fn refused(
    alloc: Global,
    calls: CallTable,
    path: &str,
    fault: UnitFault,
) -> Result<Output, AllocError> {
    let (name, path) = (fault.name(), ShownPath(path));
    let fault = ShownFault(calls, fault);
    Ok(Output {
        text: format!(in alloc; "refused {name}\n")?,
        code: None,
        aside: format!(in alloc; "seccheck: {path}: {fault}\n")?,
        status: 1,
    })
}

//! The files and folders that the command lines name.
ghost use Rattle.std.specs.Prelude.{IfErr, IfOk};
ghost use Rattle.bpf_verify.specs.Refused.{IsTextOf};
ghost use Rattle.runtime_server.specs.Inputs.{IsOfBaseline};

use bpf_code::CodeFault;
use bpf_verify::{Filter, Refusal, filter_of};
use node_io::{MAX_FILE_BYTES, look_at_folder, read_file};
use runtime_stops::{ServerStop, file_stop};
use std::alloc::Global;
use std::rt;
use wrong_files::hint_of_filter;

/// The bytes of a file.
pub fn bytes_at<'a, R: rt::Files + AllocGlobal>(
    rt: &R,
    path: &'a str,
) -> Result<Vec<u8>, ServerStop<'a>> {
    match read_file(rt, path, MAX_FILE_BYTES) {
        Ok(bytes) => Ok(bytes),
        Err(fault) => Err(file_stop(path, fault)),
    }
}

/// Checks that each of these paths is a folder.
pub fn look_at_folders<'a, R: rt::Files>(
    rt: &R,
    paths: [&'a str; 2],
) -> Result<(), ServerStop<'a>> {
    for path in paths {
        if let Err(fault) = look_at_folder(rt, path) {
            return Err(file_stop(path, fault));
        }
    }
    Ok(())
}

/// The node's own filter, if the line names one.
pub fn baseline_at<'a, R: rt::Files + AllocGlobal>(
    rt: &R,
    path: Option<&'a str>,
) -> Result<Option<Filter>, ServerStop<'a>> {
    let Some(path) = path else {
        return Ok(None);
    };
    let bytes = bytes_at(rt, path)?;
    Ok(Some(baseline_of(rt.alloc(), path, bytes.as_slice())?))
}

/// The filter of these bytes.
fn baseline_of<'a>(alloc: Global, path: &'a str, bytes: &[u8]) -> Result<Filter, ServerStop<'a>>
    ensures text { IfOk result (λ filter. IsTextOf bytes.now filter) }
    ensures refused { IfErr result (IsOfBaseline path.now bytes.now) }
{
    match filter_of(alloc, bytes) {
        Ok(filter) => Ok(filter),
        Err(Refusal::Code(CodeFault::Memory)) => Err(ServerStop::Memory),
        Err(refusal) => {
            let hint = hint_of_filter(alloc, bytes)?;
            Err(ServerStop::Baseline(path, refusal, hint))
        }
    }
}

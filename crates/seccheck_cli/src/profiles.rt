//! The answers about one profile: what decides a call, the decisions on all calls, RuntimeDefault's line.
ghost use Rattle.std.specs.Prelude.{IfOk, string_bytes};
ghost use Rattle.seccheck_cli.specs.ProfileLines.{IsDefaultLine};

use call_data::SysCall;
use explain::{explain, explanation_lines, explanation_objects};
use profile_table::{rows, table_lines, table_objects};
use profile_text::default_text;
use seccheck_stops::{Form, Output, ProfileFile, Stop, profile_at};
use std::alloc::{AllocError, Global};
use std::rt;
use sys_table::CallTable;

/// Which entry of the profile decides the call, and what is passed over before.
pub(crate) fn explain_output<'a, R: rt::Files + AllocGlobal>(
    rt: &R,
    calls: CallTable,
    path: &'a str,
    call: SysCall,
    form: Form,
) -> Result<Output, Stop<'a>> {
    let ProfileFile { profile, aside, .. } = profile_at(rt, calls, path)?;
    let explanation = explain(rt.alloc(), &profile, &call)?;
    let text = match form {
        Form::Text => explanation_lines(rt.alloc(), &explanation)?,
        Form::Json => explanation_objects(rt.alloc(), &explanation)?,
    };
    Ok(Output::with_aside(text, aside))
}

/// How the profile treats each of these calls.
pub(crate) fn table_output<'a, R: rt::Files + AllocGlobal>(
    rt: &R,
    calls: CallTable,
    path: &'a str,
    form: Form,
) -> Result<Output, Stop<'a>> {
    let alloc = rt.alloc();
    let ProfileFile { profile, aside, .. } = profile_at(rt, calls, path)?;
    let rows = rows(alloc, calls, &profile)?;
    let text = match form {
        Form::Text => table_lines(alloc, calls, &profile, rows.as_slice())?,
        Form::Json => table_objects(alloc, calls, &profile, rows.as_slice())?,
    };
    Ok(Output::with_aside(text, aside))
}

/// RuntimeDefault as a profile's text, in one line.
pub(crate) fn default_line(alloc: Global) -> Result<String, AllocError>
    ensures { IfOk result (λ line. IsDefaultLine (string_bytes line)) }
{
    let mut line = default_text(alloc)?;
    line.push_str("\n")?;
    Ok(line)
}

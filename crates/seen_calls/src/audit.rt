//! Lines of the kernel's audit on calls that a seccomp filter did not allow, as auditd and the kernel's log
//! have them.
ghost use Rattle.std.specs.Prelude.{IfOk, IfSome};
ghost use Rattle.seen_calls.specs.Lines.{IsOfTable, IsSmall};

use crate::faults::LineFault;
use crate::line::Line;
use crate::names::known;
use crate::words::{decimal, hexadecimal, number_of};
use call_data::NATIVE_ARCH;
use profile_learn::Sighting;
use sys_table::CallTable;

/// A call that a filter did not allow.
#[derive(Clone, Copy, Debug, PartialEq, Eq)]
pub struct AuditedCall {
    /// The number of the call in the table of its architecture.
    pub nr: u32,
    /// The architecture, an `AUDIT_ARCH_` value of `linux/audit.h`.
    pub arch: u32,
    /// The value of the filter, without its data.
    pub value: u32,
}

/// The call of a line of an audit, or none if the line is another one. These calls are known.
pub fn audited_call(calls: CallTable, line: &[u8]) -> Result<Option<AuditedCall>, LineFault> {
    match call_fields(line) {
        Some(fields) => Ok(Some(call_of(calls, fields)?)),
        None => Ok(None),
    }
}

fn call_of(calls: CallTable, fields: &[u8]) -> Result<AuditedCall, LineFault> {
    let (arch, number) = call_numbers(fields)?;
    let nr = u32::try_from(number).map_err(|_| LineFault::UnknownCall(calls))?;
    let arch = u32::try_from(arch).map_err(|_| LineFault::NotACall)?;
    let code = field(fields, b"code=").and_then(number_of);
    let value = code.ok_or(LineFault::NotACall)?;
    let value = u32::try_from(value).map_err(|_| LineFault::NotACall)?;
    Ok(AuditedCall { nr, arch, value })
}

/// What a line of an audit has. None if the line is none of an audit.
pub(crate) fn audit_line(calls: CallTable, line: &[u8]) -> Option<Result<Line, LineFault>>
    ensures of_table { IfSome result (λ read. IfOk read (IsOfTable calls)) }
    ensures small { IfSome result (λ read. IfOk read IsSmall) }
{
    audit_fields(line)?;
    match call_fields(line) {
        Some(fields) => Some(learned_call(calls, fields)),
        None => Some(Ok(Line::Nothing)),
    }
}

/// The fields of a line of an audit on a call.
fn call_fields(line: &[u8]) -> Option<&[u8]> {
    let fields = audit_fields(line)?;
    if fields.starts_with(b"SECCOMP ") || fields.starts_with(b"1326 ") {
        Some(fields)
    } else {
        None
    }
}

/// What follows `type=`, if neither a bracket nor a quote comes before it, as in a line of strace.
fn audit_fields(line: &[u8]) -> Option<&[u8]> {
    let mut rest = line;
    for _ in 0..line.len() {
        if let Some(fields) = rest.strip_prefix(b"type=") {
            return Some(fields);
        }
        match rest {
            [] | [b'(' | b'"', ..] => return None,
            [_, more @ ..] => rest = more,
        }
    }
    None
}

/// The call of these fields, if it is of this architecture and known.
fn learned_call(calls: CallTable, fields: &[u8]) -> Result<Line, LineFault>
    ensures of_table { IfOk result (IsOfTable calls) }
    ensures small { IfOk result IsSmall }
{
    let (arch, number) = call_numbers(fields)?;
    if arch != u64::from(NATIVE_ARCH) {
        return Err(LineFault::OtherArchitecture);
    }
    let number = known(
        calls,
        u32::try_from(number).map_err(|_| LineFault::UnknownCall(calls))?,
    )?;
    let value = None;
    Ok(Line::Call(Sighting { number, value }))
}

/// The architecture and the number of a call, by the first of its fields that is named `arch` and the first
/// that is named `syscall`.
fn call_numbers(fields: &[u8]) -> Result<(u64, u64), LineFault> {
    let arch = field(fields, b"arch=").and_then(hexadecimal);
    let number = field(fields, b"syscall=").and_then(decimal);
    match (arch, number) {
        (Some(arch), Some(number)) => Ok((arch, number)),
        _ => Err(LineFault::NotACall),
    }
}

/// The value of the first field with this name.
fn field<'l>(fields: &'l [u8], name: &[u8]) -> Option<&'l [u8]> {
    for word in fields.split(|byte| *byte == b' ') {
        if let Some(value) = word.strip_prefix(name) {
            return Some(value);
        }
    }
    None
}

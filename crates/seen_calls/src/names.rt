ghost use Rattle.std.specs.Prelude.{◌≡◌, ◌<◌, IfOk};
ghost use Rattle.sys_table.specs.SysTable.{limit_of, number_in};
ghost use Rattle.sys_table.specs.declared.table.TheConstants.{TABLE_LIMIT};
ghost use Rattle.seen_calls.specs.Lines.{in_table, known};

use crate::faults::LineFault;
use crate::words::hexadecimal;
use sys_table::{CallTable, names_and_numbers_agree};

/// The number, if one of these calls has it.
pub fn known(calls: CallTable, number: u32) -> Result<u32, LineFault>
    ensures value { result ≡ known calls number }
    ensures within { IfOk result (λ n. n < limit_of calls) }
    ensures small { IfOk result (λ n. n < TABLE_LIMIT) }
{
    names_and_numbers_agree();
    match calls.name(number) {
        Some(_) => Ok(number),
        None => Err(LineFault::UnknownCall(calls)),
    }
}

/// The number of the call with this name.
pub(crate) fn number_named(calls: CallTable, name: &str) -> Result<u32, LineFault>
    ensures value { result ≡ in_table calls (number_in calls name.now) }
    ensures within { IfOk result (λ n. n < limit_of calls) }
    ensures small { IfOk result (λ n. n < TABLE_LIMIT) }
{
    names_and_numbers_agree();
    match calls.number(name) {
        Some(number) => Ok(number),
        None => Err(LineFault::UnknownCall(calls)),
    }
}

/// The number of the call that strace prints so: by its name, or as `syscall_0x1b9` if strace has no name.
pub(crate) fn number_printed(calls: CallTable, name: &[u8]) -> Result<u32, LineFault>
    ensures within { IfOk result (λ n. n < limit_of calls) }
    ensures small { IfOk result (λ n. n < TABLE_LIMIT) }
{
    if let Some(digits) = name.strip_prefix(b"syscall_0x") {
        let number = hexadecimal(digits).ok_or(LineFault::NotACall)?;
        return known(
            calls,
            u32::try_from(number).map_err(|_| LineFault::UnknownCall(calls))?,
        );
    }
    match std::str::from_utf8(name) {
        Ok(name) => number_named(calls, name),
        Err(_) => Err(LineFault::NotACall),
    }
}

/// The name at the beginning of a text: small letters, digits and `_`, no digit first.
pub(crate) fn name_of(text: &[u8]) -> &[u8] {
    match text {
        [b'0'..=b'9', ..] => &text[..0],
        _ => match text.iter().position(|byte| !is_of_name(*byte)) {
            Some(end) => &text[..end],
            None => text,
        },
    }
}

fn is_of_name(byte: u8) -> bool {
    matches!(byte, b'a'..=b'z' | b'0'..=b'9' | b'_')
}

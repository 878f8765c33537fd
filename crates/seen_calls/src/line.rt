ghost use Rattle.std.specs.Prelude.{IfOk};
ghost use Rattle.seen_calls.specs.Lines.{IsOfTable, IsSmall};

use crate::audit::audit_line;
use crate::faults::LineFault;
use crate::names::{name_of, number_printed};
use crate::strace::strace_line;
use profile_learn::Sighting;
use sys_table::CallTable;

/// What a line of a log has.
#[derive(Clone, Copy, Debug, PartialEq, Eq)]
pub enum Line {
    /// No call: an empty line, a remark, a signal, an end, a line of strace's own, another line of an audit.
    Nothing,
    /// A call.
    Call(Sighting),
    /// The rest of a call with this number, which another line began.
    Resumed(u32),
    /// A record, whose calls `record_calls` returns.
    Record,
}

/// Reads a line, without its end. These calls are known.
pub fn read_line(calls: CallTable, line: &[u8]) -> Result<Line, LineFault>
    ensures of_table { IfOk result (IsOfTable calls) }
    ensures small { IfOk result IsSmall }
{
    let line = line.trim_ascii();
    match line {
        [] | [b'#', ..] => return Ok(Line::Nothing),
        [b'{', ..] => return Ok(Line::Record),
        _ => {}
    }
    if name_of(line).len() == line.len() {
        return named_line(calls, line);
    }
    match audit_line(calls, line) {
        Some(read) => read,
        None => strace_line(calls, line),
    }
}

/// The line of a list of names.
fn named_line(calls: CallTable, name: &[u8]) -> Result<Line, LineFault>
    ensures of_table { IfOk result (IsOfTable calls) }
    ensures small { IfOk result IsSmall }
{
    let number = number_printed(calls, name)?;
    let value = None;
    Ok(Line::Call(Sighting { number, value }))
}

//! Lines of `strace`, with or without a process, a time, an address and a number before the call.
ghost use Rattle.std.specs.Prelude.{◌≡◌, IfOk};
ghost use Rattle.seen_calls.specs.Lines.{IsOfTable, IsSmall};
ghost use Rattle.seen_calls.specs.declared.line.Line.TheVariants.{Nothing};

use crate::arguments::argument;
use crate::faults::LineFault;
use crate::line::Line;
use crate::names::{name_of, number_printed};
use profile_learn::{Sighting, small_argument};
use sys_table::CallTable;

// The most brackets before a call: a process, an address, a number and a time since the last call.
const MAX_FRONTS: usize = 8;

/// What a line of strace has.
pub(crate) fn strace_line(calls: CallTable, line: &[u8]) -> Result<Line, LineFault>
    ensures of_table { IfOk result (IsOfTable calls) }
    ensures small { IfOk result IsSmall }
{
    if line.starts_with(b"strace: ") || line.starts_with(b"[ Process ") {
        return own_line(line);
    }
    let rest = after_front(line);
    if rest.starts_with(b"--- ") || rest.starts_with(b"+++ ") || is_rest(rest) {
        return Ok(Line::Nothing);
    }
    match rest.strip_prefix(b"<... ") {
        Some(resumed) => resumed_line(calls, resumed),
        None => call_line(calls, rest),
    }
}

/// A line of strace's own. After one on another mode, the names are those of another table.
fn own_line(line: &[u8]) -> Result<Line, LineFault>
    ensures { IfOk result (λ line. line ≡ Nothing) }
{
    if has(line, b" runs in ") && !has(line, b" runs in 64 bit mode") {
        Err(LineFault::OtherArchitecture)
    } else {
        Ok(Line::Nothing)
    }
}

/// Whether a line has what follows a message of strace's own within a call's line: where strace
/// writes to its standard error, `vfork(strace: Process 59 attached`, and then ` <unfinished ...>` or
/// `) = 59`.
fn is_rest(line: &[u8]) -> bool {
    match line {
        [b'<', b'u', ..] | [b')', ..] | [b',', b' ', ..] | [b'=', b'>', ..] => is_whole(line),
        _ => false,
    }
}

/// The rest of a line after the process, the times, the address and the number.
fn after_front(line: &[u8]) -> &[u8] {
    let mut rest = line;
    for _ in 0..MAX_FRONTS {
        rest = after_clock(rest);
        match after_bracket(rest) {
            Some(more) => rest = more,
            None => return rest,
        }
    }
    rest
}

/// Behind numbers and times.
fn after_clock(line: &[u8]) -> &[u8] {
    match line.iter().position(|byte| !is_of_clock(*byte)) {
        Some(end) => &line[end..],
        None => &line[..0],
    }
}

fn is_of_clock(byte: u8) -> bool {
    matches!(byte, b'0'..=b'9' | b'.' | b':' | b' ')
}

/// Behind `[pid 59]`, `[  59]`, `[00007f1c8d7e3a4b]` or `(+     0.000123)`.
fn after_bracket(line: &[u8]) -> Option<&[u8]> {
    match line {
        [b'[', inner @ ..] | [b'(', b'+', inner @ ..] => {
            let end = inner.iter().position(|byte| !is_of_bracket(*byte))?;
            match inner.get(end..) {
                Some([b']' | b')', rest @ ..]) => Some(rest),
                _ => None,
            }
        }
        _ => None,
    }
}

fn is_of_bracket(byte: u8) -> bool {
    matches!(byte, b'0'..=b'9' | b'a'..=b'f' | b'x' | b'p' | b'i' | b'.' | b'?' | b' ')
}

/// `ioctl(1, TCGETS, {..}) = 0`, or the beginning of a call whose rest another line has.
fn call_line(calls: CallTable, line: &[u8]) -> Result<Line, LineFault>
    ensures of_table { IfOk result (IsOfTable calls) }
    ensures small { IfOk result IsSmall }
{
    let name = name_of(line);
    match line.strip_prefix(name) {
        Some([b'(', arguments @ ..]) if !name.is_empty() && is_whole(arguments) => {
            let number = number_printed(calls, name)?;
            let value = small_argument(number).and_then(|index| argument(arguments, index));
            Ok(Line::Call(Sighting { number, value }))
        }
        _ => Err(LineFault::NotACall),
    }
}

/// `read resumed>"abc", 3) = 3`.
fn resumed_line(calls: CallTable, line: &[u8]) -> Result<Line, LineFault>
    ensures of_table { IfOk result (IsOfTable calls) }
    ensures small { IfOk result IsSmall }
{
    let name = name_of(line);
    let rest = line.strip_prefix(name).unwrap_or(line);
    match rest.strip_prefix(b" resumed>") {
        Some(rest) if is_whole(rest) => Ok(Line::Resumed(number_printed(calls, name)?)),
        _ => Err(LineFault::NotACall),
    }
}

/// Whether the line has its end: what the call returned, or that another line has its rest. A line that was
/// cut off may be cut within the name of a call.
fn is_whole(rest: &[u8]) -> bool {
    rest.ends_with(b"<unfinished ...>")
        || rest.ends_with(b"<detached ...>")
        || has_result(rest)
        || rest.ends_with(b" attached") && has(rest, b"strace: Process ")
}

/// Where a result is looked for.
#[derive(Clone, Copy, PartialEq, Eq)]
enum Place {
    /// Not after a bracket.
    Within,
    /// After a bracket.
    Closed,
    /// After a bracket and spaces.
    Spaced,
    /// After a bracket, spaces and `=`.
    Equal,
}

/// Whether a bracket, spaces and `= ` follow each other somewhere.
fn has_result(rest: &[u8]) -> bool {
    let mut place = Place::Within;
    for byte in rest {
        place = match (*byte, place) {
            (b')', _) => Place::Closed,
            (b' ', Place::Equal) => return true,
            (b' ', Place::Closed | Place::Spaced) => Place::Spaced,
            (b'=', Place::Spaced) => Place::Equal,
            _ => Place::Within,
        };
    }
    false
}

/// Whether a line contains the part.
fn has(line: &[u8], part: &[u8]) -> bool {
    let mut rest = line;
    for _ in 0..line.len() {
        if rest.starts_with(part) {
            return true;
        }
        match rest {
            [] => return false,
            [_, more @ ..] => rest = more,
        }
    }
    false
}

//! The value of an argument in a line of strace, if the line has it as a number.
use crate::words::number_of;

/// The value of the first argument, or of the second one after a descriptor.
pub(crate) fn argument(arguments: &[u8], index: u8) -> Option<u64> {
    match index {
        0 => value_at(arguments),
        1 => value_at(after_descriptor(arguments)?),
        _ => None,
    }
}

/// What follows the first argument: `3, `, `AT_FDCWD, `, `3</dev/pts/0>, ` or
/// `3<TCP:[127.0.0.1:1->127.0.0.1:2]>, `.
fn after_descriptor(arguments: &[u8]) -> Option<&[u8]> {
    let end = arguments
        .iter()
        .position(|byte| matches!(*byte, b',' | b'<' | b')' | b' '))?;
    let rest = arguments.get(end..)?;
    match rest {
        [b'<', path @ ..] => after_path(path),
        _ => rest.strip_prefix(b", "),
    }
}

/// What follows the name of a descriptor's file. The name has no `>` except in `->`.
fn after_path(path: &[u8]) -> Option<&[u8]> {
    let mut last = b' ';
    for (place, byte) in path.iter().enumerate() {
        if *byte == b'>' && last != b'-' {
            let rest = path.get(place..)?;
            return rest
                .strip_prefix(b">, ")
                .or(rest.strip_prefix(b">(deleted), "));
        }
        last = *byte;
    }
    None
}

/// The number at the beginning of a text, if the argument is that number: `0x1, `, `0x5401)`,
/// `0x1 /* AF_UNIX */, `, `1 <unfinished ...>`.
fn value_at(text: &[u8]) -> Option<u64> {
    let end = text
        .iter()
        .position(|byte| matches!(*byte, b',' | b')' | b' '))?;
    let rest = text.get(end..)?;
    if rest.starts_with(b" ") && !rest.starts_with(b" /*") && !rest.starts_with(b" <unfinished") {
        return None;
    }
    number_of(text.get(..end)?)
}

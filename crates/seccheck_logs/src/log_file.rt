//! A log, which is read in pieces.
use crate::lines::{Begun, FoundLine};
use node_io::{Cause, CausedFault};
use seccheck_stops::{Stop, opened, stop_at};
use std::alloc::{AllocError, Global};
use std::fs::OpenFile;
use std::io::{ErrorKind, Read};
use std::{fs, rt};

// How many bytes are read at once.
const PIECE_BYTES: usize = 65_536;

/// Takes the lines of a log, one after another.
pub(crate) trait LineSink {
    /// Whether no more lines are wanted.
    fn is_done(&self) -> bool;

    /// Takes a line.
    fn add_line(
        &mut self,
        alloc: Global,
        at: &Position<'_>,
        line: FoundLine<'_>,
    ) -> Result<(), AllocError>;
}

/// A file that is read, and the number of the line.
#[derive(Clone, Copy)]
pub(crate) struct Position<'a> {
    pub path: &'a str,
    pub number: u64,
}

/// Hands the lines of a file to a sink, until it wants no more.
pub(crate) fn add_file<'a, R: rt::Files + AllocGlobal, S: LineSink>(
    rt: &R,
    path: &'a str,
    sink: &mut S,
) -> Result<(), Stop<'a>> {
    let at = |fault| stop_at(path, fault);
    let mut file = fs::open(rt, opened(path)).map_err(|error| at(CausedFault::from(error)))?;
    let about = file
        .metadata()
        .map_err(|error| at(CausedFault::from(error)))?;
    if about.is_dir() {
        return Err(at(CausedFault::failed(Cause::IsFolder)));
    }
    add_stream(rt.alloc(), path, &mut file, sink)
}

/// Hands over the lines of a stream, which is read in pieces.
fn add_stream<'a, F: Read, S: LineSink>(
    alloc: Global,
    path: &'a str,
    stream: &mut F,
    sink: &mut S,
) -> Result<(), Stop<'a>> {
    let mut piece = vec![in alloc; 0u8; PIECE_BYTES]?;
    let mut begun = Begun::new(alloc);
    let mut at = Position { path, number: 1 };
    for _ in 0..u64::MAX {
        let count = match stream.read(piece.as_mut_slice()) {
            Ok(count) => count,
            Err(error) if error.kind() == ErrorKind::Interrupted => continue,
            Err(error) => return Err(stop_at(path, CausedFault::from(error))),
        };
        if count == 0 || sink.is_done() {
            break;
        }
        add_piece(
            alloc,
            &mut at,
            &mut begun,
            piece.as_slice().get(..count).unwrap_or(&[]),
            sink,
        )?;
    }
    if !begun.is_empty() {
        sink.add_line(alloc, &at, begun.line())?;
    }
    Ok(())
}

/// Hands over the lines that end in a piece, and keeps the rest.
fn add_piece<S: LineSink>(
    alloc: Global,
    at: &mut Position<'_>,
    begun: &mut Begun,
    piece: &[u8],
    sink: &mut S,
) -> Result<(), AllocError> {
    let mut rest = piece;
    for _ in 0..piece.len() {
        let Some(end) = rest.iter().position(|byte| *byte == b'\n') else {
            break;
        };
        let (line, more) = rest.split_at(end);
        if begun.is_empty() {
            sink.add_line(alloc, at, FoundLine::Whole(line))?;
        } else {
            begun.add(line)?;
            sink.add_line(alloc, at, begun.line())?;
            begun.clear();
        }
        at.number = at.number.saturating_add(1);
        rest = more.get(1..).unwrap_or(&[]);
    }
    begun.add(rest)
}

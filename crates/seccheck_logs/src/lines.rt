//! The lines of a stream that is read in pieces.
use std::alloc::{AllocError, Global};

/// So many bytes of a line are kept at most.
pub(crate) const MAX_LINE_BYTES: usize = 1_048_576;

/// The beginning of a line whose end was not read yet.
#[derive(Drop)]
pub(crate) struct Begun {
    bytes: Vec<u8>,
    is_too_long: bool,
}

/// A line.
#[derive(Clone, Copy)]
pub(crate) enum FoundLine<'l> {
    Whole(&'l [u8]),
    /// Longer than a line may be, with its beginning.
    TooLong(&'l [u8]),
}

impl Begun {
    pub(crate) fn new(alloc: Global) -> Begun {
        Begun {
            bytes: Vec::new(alloc),
            is_too_long: false,
        }
    }

    /// Whether nothing of a line was read yet.
    pub(crate) fn is_empty(&self) -> bool {
        self.bytes.is_empty() && !self.is_too_long
    }

    /// Adds more of the line. What is beyond the longest line is not kept.
    pub(crate) fn add(&mut self, part: &[u8]) -> Result<(), AllocError> {
        let room = MAX_LINE_BYTES.saturating_sub(self.bytes.len());
        if part.len() > room {
            self.is_too_long = true;
            return Ok(());
        }
        self.bytes.extend_from_slice(part)
    }

    /// The line that ends here.
    pub(crate) fn line(&self) -> FoundLine<'_> {
        if self.is_too_long {
            FoundLine::TooLong(self.bytes.as_slice())
        } else {
            FoundLine::Whole(self.bytes.as_slice())
        }
    }

    /// Begins with the next line.
    pub(crate) fn clear(&mut self) {
        self.bytes.clear();
        self.is_too_long = false;
    }
}

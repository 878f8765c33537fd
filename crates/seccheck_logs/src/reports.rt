//! What is reported of lines that are left out.
use fault_notes::ShownPath;
use seen_calls::LineFault;
use std::alloc::{AllocError, Global};

// So many lines are reported, and the others counted.
const MAX_REPORTS: u64 = 20;

// So many bytes of a line are printed.
const MAX_SHOWN: usize = 60;

/// The reports so far.
#[derive(Drop)]
pub(crate) struct Reports {
    /// The lines for standard error.
    pub text: String,
    /// How many lines were left out.
    count: u64,
    /// Why the first of them was left out.
    pub first: Option<LineFault>,
}

impl Reports {
    pub(crate) fn new(alloc: Global) -> Reports {
        Reports {
            text: String::new(alloc),
            count: 0,
            first: None,
        }
    }

    /// Reports a line of a file, or counts it.
    pub(crate) fn add(
        &mut self,
        path: &str,
        number: u64,
        line: &[u8],
        fault: LineFault,
    ) -> Result<(), AllocError> {
        if self.first.is_none() {
            self.first = Some(fault);
        }
        self.count = self.count.saturating_add(1);
        if self.count > MAX_REPORTS {
            return Ok(());
        }
        let (path, shown) = (ShownPath(path), shown_part(line));
        writeln!(
            self.text,
            "seccheck: {path}: line {number}: {fault}: {shown}"
        )
    }

    /// How many lines were left out beside those that are reported.
    pub(crate) fn add_count(&mut self) -> Result<(), AllocError> {
        if self.count <= MAX_REPORTS {
            return Ok(());
        }
        let more = self.count - MAX_REPORTS;
        writeln!(self.text, "seccheck: {more} more lines were left out")
    }
}

/// The beginning of a line, up to a byte that is not a graphic character or a space of ASCII.
fn shown_part(line: &[u8]) -> &str {
    let line = line.trim_ascii();
    let end = line
        .iter()
        .take(MAX_SHOWN)
        .position(|byte| *byte < 0x20 || *byte > 0x7e);
    let end = end.unwrap_or(line.len().min(MAX_SHOWN));
    match line.get(..end) {
        Some(part) => std::str::from_utf8(part).unwrap_or(""),
        None => "",
    }
}

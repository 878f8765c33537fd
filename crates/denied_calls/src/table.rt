//! Cells in columns, each as wide as its widest cell.
ghost use Rattle.std.specs.Prelude.{◌≡◌, ◌++◌, IfOk, OnOk, map, replicate, slice_index_or, string_bytes};
ghost use Rattle.denied_calls.specs.Table.{cells_of, gap, len_at, line_text, table_text, widest};
ghost use Rattle.denied_calls.specs.Table.{widths_of};

use std::alloc::{AllocError, Global};

/// Lines of at most seven cells as a text. Two spaces part the columns, and nothing follows the last cell.
pub fn aligned(alloc: Global, lines: &[Vec<String>]) -> Result<String, AllocError>
    ensures { IfOk result (λ text. string_bytes text ≡ table_text (map cells_of lines.now)) }
{
    let widths = widths_of(lines);
    let mut text = String::new(alloc);
    for line in lines {
        add_line(&mut text, widths, line.as_slice())?;
    }
    Ok(text)
}

fn widths_of(lines: &[Vec<String>]) -> [usize; 7]
    ensures { result ≡ widths_of (map cells_of lines.now) }
{
    [
        widest(lines, 0),
        widest(lines, 1),
        widest(lines, 2),
        widest(lines, 3),
        widest(lines, 4),
        widest(lines, 5),
        widest(lines, 6),
    ]
}

/// How many bytes the longest cell of this column has.
fn widest(lines: &[Vec<String>], column: usize) -> usize
    ensures { result ≡ widest column (map cells_of lines.now) }
{
    let mut widest = 0;
    for line in lines {
        widest = widest.max(len_at(line.as_slice(), column));
    }
    widest
}

fn len_at(line: &[String], column: usize) -> usize
    ensures { result ≡ len_at column (map string_bytes line.now) }
{
    match line.get(column) {
        Some(cell) => cell.len(),
        None => 0,
    }
}

fn add_line(text: &mut String, widths: [usize; 7], line: &[String]) -> Result<(), AllocError>
    ensures { OnOk result (string_bytes text.new
        ≡ string_bytes text.old ++ line_text widths 0 (map string_bytes line.now)) }
{
    for (column, cell) in line.iter().enumerate() {
        let missing = width_at(widths, column).saturating_sub(cell.len());
        text.push_str(cell.as_str())?;
        add_gap(text, missing, column + 1 < line.len())?;
    }
    text.push_str("\n")
}

/// What parts a cell from the next, if there is a next.
fn add_gap(text: &mut String, missing: usize, is_more: bool) -> Result<(), AllocError>
    ensures { OnOk result (string_bytes text.new ≡ string_bytes text.old ++ gap missing is_more) }
{
    if !is_more {
        return Ok(());
    }
    add_spaces(text, missing)?;
    text.push_str("  ")
}

fn add_spaces(text: &mut String, count: usize) -> Result<(), AllocError>
    ensures { OnOk result (string_bytes text.new ≡ string_bytes text.old ++ replicate count 32) }
{
    for _ in 0..count {
        text.push_str(" ")?;
    }
    Ok(())
}

fn width_at(widths: [usize; 7], column: usize) -> usize
    ensures { result ≡ slice_index_or widths column 0 }
{
    match widths.get(column) {
        Some(width) => *width,
        None => 0,
    }
}

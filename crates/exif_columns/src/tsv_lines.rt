//! A line of cells separated by tabs.

ghost use Rattle.std.specs.Prelude.{◌≡◌, ◌++◌, ◌<◌, [], length, get_or, IfOk, OnOk};
ghost use Rattle.csv.specs.Records.{fields_of};
ghost use Rattle.exif_columns.specs.Lines.{escaped_byte, escaped_cell, gap_before, tsv_line};

use csv::ByteRecord;
use std::alloc::{AllocError, Global};

// Appends a byte of a cell: a tab, an end of line and a backslash as two characters.
fn push_escaped_byte(line: &mut Vec<u8>, byte: u8) -> Result<(), AllocError>
    ensures { OnOk result (line.new.items ≡ line.old.items ++ escaped_byte byte) }
{
    match byte {
        b'\t' => line.extend_from_slice(b"\\t"),
        b'\n' => line.extend_from_slice(b"\\n"),
        b'\r' => line.extend_from_slice(b"\\r"),
        b'\\' => line.extend_from_slice(b"\\\\"),
        _ => line.extend_from_slice(&[byte]),
    }
}

// Appends a cell.
fn push_escaped(line: &mut Vec<u8>, cell: &[u8]) -> Result<(), AllocError>
    ensures { OnOk result (line.new.items ≡ line.old.items ++ escaped_cell cell.now) }
{
    for byte in cell {
        push_escaped_byte(line, *byte)?;
    }
    Ok(())
}

// Appends what is before a cell: a tab, but for the first.
fn push_gap(line: &mut Vec<u8>, i: usize) -> Result<(), AllocError>
    ensures { OnOk result (line.new.items ≡ line.old.items ++ gap_before i) }
{
    if i == 0 {
        Ok(())
    } else {
        line.extend_from_slice(b"\t")
    }
}

// Appends one of the cells.
fn push_cell(line: &mut Vec<u8>, cells: &ByteRecord, i: usize) -> Result<(), AllocError>
    requires { i < length (fields_of cells.now) }
    ensures { OnOk result (line.new.items
        ≡ line.old.items ++ escaped_cell (get_or (fields_of cells.now) i [])) }
{
    match cells.get(i) {
        Some(cell) => push_escaped(line, cell),
        None => Ok(()),
    }
}

// The line of cells separated by tabs.
pub(crate) fn tsv_line(alloc: Global, cells: &ByteRecord) -> Result<Vec<u8>, AllocError>
    ensures { IfOk result (λ line. line.items ≡ tsv_line (fields_of cells.now)) }
{
    let mut line = Vec::new(alloc);
    for i in 0..cells.len() {
        push_gap(&mut line, i)?;
        push_cell(&mut line, cells, i)?;
    }
    line.extend_from_slice(b"\n")?;
    Ok(line)
}

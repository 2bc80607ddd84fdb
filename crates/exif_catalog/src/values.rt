//! The values of a picture's row.

ghost use Rattle.std.specs.Prelude.{◌≡◌, ℕ, List, ◌++◌, IfOk, OnOk, Some, map, option_map};
ghost use Rattle.std.specs.String.{string_bytes};
ghost use Rattle.exif_summary.specs.Columns.{cell_view};
ghost use Rattle.exif_catalog.specs.Values.{amount_value, column_value, columns_values, file_values, maybe_text, row_of, shown_value, stored};

use exif_catalog_file::text_of;
use exif_summary::{COLUMNS, Cell, Column, find_cell};
use exif_types::Exif;
use std::alloc::{AllocError, Global};
use std::fmt::Display;

/// What is known of a picture's file without its Exif data.
#[derive(Clone, Copy)]
pub struct PictureFile<'a> {
    /// Its path.
    pub path: &'a [u8],
    /// How many bytes it has.
    pub size: Option<u64>,
    /// When its bytes were changed, in seconds from 1970 on.
    pub modified: Option<u64>,
    /// The nanoseconds of that.
    pub modified_ns: Option<u64>,
    /// When its bytes or attributes were changed, in seconds from 1970 on.
    pub changed: Option<u64>,
    /// The nanoseconds of that.
    pub changed_ns: Option<u64>,
    /// The number of its file system.
    pub device: Option<u64>,
    /// Its number in that.
    pub inode: Option<u64>,
    /// The text of a hash of its bytes.
    pub hash: Option<&'a str>,
    /// The name of its format.
    pub format: Option<&'a str>,
    /// The media type of its format (RFC 6838).
    pub mime: Option<&'a str>,
}

/// A value of a column, as SQLite stores it (SQLite, "Datatypes In SQLite", section 2).
#[derive(Debug, Drop)]
pub enum SqlValue {
    /// Nothing is known.
    Null,
    /// A whole number.
    Integer(i64),
    /// The text of a decimal number. SQLite stores the number, rounded to its binary format.
    Real(String),
    /// A text.
    Text(String),
}

// A text, if there is one.
fn maybe_text(alloc: Global, text: Option<&str>) -> Result<SqlValue, AllocError>
    ensures { IfOk result (λ v. stored v ≡ maybe_text (option_map (λ t. t.now) text.entry)) }
{
    match text {
        Some(text) => Ok(SqlValue::Text(String::from_str(alloc, text)?)),
        None => Ok(SqlValue::Null),
    }
}

// A number, if there is one and it is one that SQLite has.
fn amount_value(amount: Option<u64>) -> SqlValue
    ensures { stored result ≡ amount_value amount }
{
    let Some(number) = amount else {
        return SqlValue::Null;
    };
    match i64::try_from(number) {
        Ok(number) => SqlValue::Integer(number),
        Err(_) => SqlValue::Null,
    }
}

// The text that is shown of a number.
fn shown_text<D: Display + Drop>(alloc: Global, number: D) -> Result<String, AllocError>
    ensures shown { (text : List ℕ) → D.output number ≡ Some text
        → IfOk result (λ t. string_bytes t ≡ text) }
{
    format!(in alloc; "{number}")
}

// What is stored of a cell.
fn cell_value(alloc: Global, cell: Cell<'_>) -> Result<SqlValue, AllocError>
    ensures { IfOk result (λ v. stored v ≡ shown_value (cell_view cell.entry)) }
{
    match cell {
        Cell::Number(number) => Ok(SqlValue::Integer(i64::from(number))),
        Cell::Decimal(number) => Ok(SqlValue::Real(shown_text(alloc, number)?)),
        Cell::Degrees(number) => Ok(SqlValue::Real(shown_text(alloc, number)?)),
        Cell::Height(number) => Ok(SqlValue::Real(shown_text(alloc, number)?)),
        Cell::Text(bytes) => Ok(SqlValue::Text(text_of(alloc, bytes)?)),
        Cell::Date(date) => Ok(SqlValue::Text(shown_text(alloc, date)?)),
    }
}

// What is stored in a column of a picture.
fn column_value(alloc: Global, exif: Option<&Exif>, column: Column) -> Result<SqlValue, AllocError>
    ensures { IfOk result (λ v. stored v
        ≡ column_value (option_map (λ e. e.now.fields) exif.entry) column) }
{
    let Some(exif) = exif else {
        return Ok(SqlValue::Null);
    };
    match find_cell(exif, column) {
        Some(cell) => cell_value(alloc, cell),
        None => Ok(SqlValue::Null),
    }
}

// Adds the values of all columns of a picture.
fn push_columns(
    alloc: Global,
    row: &mut Vec<SqlValue>,
    exif: Option<&Exif>,
) -> Result<(), AllocError>
    ensures { OnOk result (map stored row.new.items ≡ map stored row.old.items
        ++ columns_values (option_map (λ e. e.now.fields) exif.entry)) }
{
    for column in COLUMNS.as_slice() {
        let value = column_value(alloc, exif, *column)?;
        row.push(value)?;
    }
    Ok(())
}

// The values of a file.
fn file_row(alloc: Global, file: &PictureFile<'_>) -> Result<Vec<SqlValue>, AllocError>
    ensures { IfOk result (λ row. map stored row.items ≡ file_values file.now) }
{
    let path = text_of(alloc, file.path)?;
    let hash = maybe_text(alloc, file.hash)?;
    let format = maybe_text(alloc, file.format)?;
    let mime = maybe_text(alloc, file.mime)?;
    let row = vec![in alloc;
        SqlValue::Text(path),
        amount_value(file.size),
        amount_value(file.modified),
        amount_value(file.modified_ns),
        amount_value(file.changed),
        amount_value(file.changed_ns),
        amount_value(file.device),
        amount_value(file.inode),
        hash,
        format,
        mime,
    ]?;
    Ok(row)
}

/// The values of a picture's row, in the order of the table's columns: path, stamp, hash,
/// format and media type of the file, and what the picture says of each of
/// [`exif_summary::COLUMNS`]; NULL where it says nothing. A path or a text that is no UTF-8 is read
/// as Latin-1. The only error is out of memory.
pub fn row_values(
    alloc: Global,
    file: &PictureFile<'_>,
    exif: Option<&Exif>,
) -> Result<Vec<SqlValue>, AllocError>
    ensures { IfOk result (λ row. map stored row.items
        ≡ row_of file.now (option_map (λ e. e.now.fields) exif.entry)) }
{
    let mut row = file_row(alloc, file)?;
    push_columns(alloc, &mut row, exif)?;
    Ok(row)
}

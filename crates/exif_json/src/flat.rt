//! A flat JSON object of a picture: what its file is, and each column that it has.

ghost use Rattle.std.specs.Prelude.{◌≡◌, ℕ, List, IfOk, Some, option_map};
ghost use Rattle.std.specs.Str.{IsUtf8};
ghost use Rattle.json.specs.Json as J;
ghost use Rattle.json.specs.Json.{document};
ghost use Rattle.json.specs.Print.{print};
ghost use Rattle.json.specs.Tree.{json_tokens};
ghost use Rattle.exif_summary.specs.Columns.{cell_view, columns};
ghost use Rattle.exif_json.specs.Flat.{column_members, columns_members, fact_members, flat_json, format_members, mime_type, number_text, picture_members, shown_json, string_of};
ghost use Rattle.exif_json.specs.Prints.{Prints};
ghost use Rattle.exif_json.specs.Summaries.{maybe};
ghost use Rattle.exif_json.specs.Texts.{latin1};
ghost use Rattle.exif_json.specs.Trees.{parts_tokens, unsigned};

use crate::printer::Printer;
use crate::texts::set_latin1;
use exif::Exif;
use exif_formats::{Format, PictureFormat};
use exif_summary::{COLUMNS, Cell, Column, find_cell};
use json::{Writer, is_number};
use std::alloc::{AllocError, Global};
use std::fmt::{Display, Write};

/// What is known of a picture's file without its Exif data.
#[derive(Clone, Copy)]
pub struct FileFacts<'a> {
    /// Its path.
    pub path: &'a [u8],
    /// Its format.
    pub format: Option<PictureFormat>,
    /// How many bytes it has.
    pub size: Option<u64>,
    /// When it was modified, in seconds from 1970 on.
    pub modified: Option<u64>,
}

/// The media type of a format (RFC 6838).
pub fn mime_type(format: PictureFormat) -> &'static str
    ensures { result.now ≡ mime_type format }
{
    match format {
        PictureFormat::Container(Format::Tiff) => "image/tiff",
        PictureFormat::Container(Format::Jpeg) => "image/jpeg",
        PictureFormat::Container(Format::Heif) => "image/heif",
        PictureFormat::Container(Format::WebP) => "image/webp",
        PictureFormat::Png => "image/png",
        PictureFormat::JpegXl => "image/jxl",
        PictureFormat::Raf => "image/x-fuji-raf",
        PictureFormat::Orf => "image/x-olympus-orf",
        PictureFormat::Rw2 => "image/x-panasonic-rw2",
        PictureFormat::Cr3 => "image/x-canon-cr3",
    }
}

// Writes bytes as a string: each as the character of its number.
fn write_as_latin1(printer: &mut Printer, bytes: &[u8]) -> Result<(), AllocError>
    ensures { Prints result printer.old.out printer.new.out
        (json_tokens (J.string (latin1 bytes.now))) }
{
    set_latin1(&mut printer.text, bytes)?;
    printer.out.string(&printer.text)
}

// Writes a text as a string: as it is where it is UTF-8, else by Latin-1.
fn write_string(printer: &mut Printer, bytes: &[u8]) -> Result<(), AllocError>
    ensures { Prints result printer.old.out printer.new.out
        (json_tokens (J.string (string_of bytes.now))) }
{
    match std::str::from_utf8(bytes) {
        Ok(text) => printer.out.string(text),
        Err(_) => write_as_latin1(printer, bytes),
    }
}

// Writes a text as a number, if it is one, else as a string.
fn write_number_text(out: &mut Writer, text: &str) -> Result<(), AllocError>
    ensures { Prints result out.old out.new (json_tokens (number_text text.now)) }
{
    if is_number(text) {
        out.number(text)
    } else {
        out.string(text)
    }
}

// Writes what is shown of a number.
fn write_decimal<D: Display + Drop>(printer: &mut Printer, number: D) -> Result<(), AllocError>
    ensures prints { (text : List ℕ) → D.output number ≡ Some text
        → Prints result printer.old.out printer.new.out (json_tokens (number_text text)) }
{
    printer.text.clear();
    match write!(printer.text, "{number}") {
        Ok(()) => write_number_text(&mut printer.out, printer.text.as_str()),
        Err(_) => Err(AllocError),
    }
}

// Writes what a picture says of a column.
fn write_cell(printer: &mut Printer, cell: Cell<'_>) -> Result<(), AllocError>
    ensures { Prints result printer.old.out printer.new.out
        (json_tokens (shown_json (cell_view cell.entry))) }
{
    match cell {
        Cell::Number(number) => printer.out.u64(u64::from(number)),
        Cell::Decimal(number) => write_decimal(printer, number),
        Cell::Degrees(number) => write_decimal(printer, number),
        Cell::Height(number) => write_decimal(printer, number),
        Cell::Text(bytes) => write_string(printer, bytes),
        Cell::Date(date) => printer.shown(date),
    }
}

// Writes the member of a column, if the picture says something of it.
fn write_column(printer: &mut Printer, exif: &Exif, column: Column) -> Result<(), AllocError>
    ensures { Prints result printer.old.out printer.new.out
        (parts_tokens (column_members exif.now.fields column)) }
{
    match find_cell(exif, column) {
        Some(cell) => {
            printer.out.key(column.name())?;
            write_cell(printer, cell)
        }
        None => Ok(()),
    }
}

// Writes the members of all columns.
fn write_columns(printer: &mut Printer, exif: &Exif) -> Result<(), AllocError>
    ensures { Prints result printer.old.out printer.new.out
        (parts_tokens (columns_members exif.now.fields columns)) }
{
    for column in COLUMNS.as_slice() {
        write_column(printer, exif, *column)?;
    }
    Ok(())
}

// Writes a member of a number, if there is one.
fn write_amount(printer: &mut Printer, name: &str, amount: Option<u64>) -> Result<(), AllocError>
    ensures { Prints result printer.old.out printer.new.out
        (parts_tokens (maybe name.now unsigned amount)) }
{
    match amount {
        Some(number) => printer.number_member(name, number),
        None => Ok(()),
    }
}

// Writes the members of a format.
fn write_formats(printer: &mut Printer, format: Option<PictureFormat>) -> Result<(), AllocError>
    ensures { Prints result printer.old.out printer.new.out
        (parts_tokens (format_members format)) }
{
    match format {
        Some(format) => {
            printer.text_member("format", format.name())?;
            printer.text_member("mime", mime_type(format))
        }
        None => Ok(()),
    }
}

// Writes the members on a file.
fn write_facts(printer: &mut Printer, facts: &FileFacts<'_>) -> Result<(), AllocError>
    ensures { Prints result printer.old.out printer.new.out
        (parts_tokens (fact_members facts.now)) }
{
    printer.out.key("path")?;
    write_string(printer, facts.path)?;
    write_formats(printer, facts.format)?;
    write_amount(printer, "file_size", facts.size)?;
    write_amount(printer, "file_modified", facts.modified)
}

// Writes the members of a picture, if it has Exif data.
fn write_picture(printer: &mut Printer, exif: Option<&Exif>) -> Result<(), AllocError>
    ensures { Prints result printer.old.out printer.new.out
        (parts_tokens (picture_members (option_map (λ e. e.now.fields) exif.entry))) }
{
    match exif {
        Some(exif) => write_columns(printer, exif),
        None => Ok(()),
    }
}

// Writes the object.
fn write_flat(
    printer: &mut Printer,
    facts: &FileFacts<'_>,
    exif: Option<&Exif>,
) -> Result<(), AllocError>
    ensures { Prints result printer.old.out printer.new.out
        (json_tokens (flat_json facts.now (option_map (λ e. e.now.fields) exif.entry))) }
{
    printer.out.begin_object()?;
    write_facts(printer, facts)?;
    write_picture(printer, exif)?;
    printer.out.end_object()
}

/// The flat JSON object (RFC 8259) of a picture: its path, format, media type, size and time, and a
/// member for each column of which it says something ([`exif_summary::find_cell`]). Numbers are
/// numbers. Texts are strings, also the path: where they are no UTF-8, each byte is the character
/// of its number (Latin-1). The only error is out of memory.
pub fn flat_json(
    alloc: Global,
    facts: &FileFacts<'_>,
    exif: Option<&Exif>,
) -> Result<Vec<u8>, AllocError>
    ensures text { IfOk result (λ text. text.items ≡ print (json_tokens
        (flat_json facts.now (option_map (λ e. e.now.fields) exif.entry)))) }
    ensures reads_back { IfOk result (λ text. document text.items
        ≡ Some (flat_json facts.now (option_map (λ e. e.now.fields) exif.entry))) }
    ensures utf8 { IfOk result (λ text. IsUtf8 text.items) }
{
    let mut printer = Printer::new(alloc);
    write_flat(&mut printer, facts, exif)?;
    Ok(printer.finish())
}

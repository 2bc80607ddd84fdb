//! The lines of a table.

ghost use Rattle.std.specs.Prelude.{◌≡◌, [], ◌∷◌, IfOk, option_map};
ghost use Rattle.csv.specs.Records.{fields_of};
ghost use Rattle.exif_columns.specs.Cells.{cell_in, header_cells, picture_cells};
ghost use Rattle.exif_columns.specs.Lines.{line_of};
ghost use Rattle.exif_columns.specs.Rows.{Adds};
ghost use Rattle.exif_columns.specs.Texts.{text_of};
ghost use Rattle.exif_types.specs.TagTexts.{tag_text};

use crate::cells::{Form, cell_text};
use crate::csv_lines::csv_line;
use crate::texts::{push_shown, push_text};
use crate::tsv_lines::tsv_line;
use csv::ByteRecord;
use exif_types::{Exif, Tag};
use std::alloc::{AllocError, Global};

/// What is between the cells of a line.
#[derive(Clone, Copy, Debug, PartialEq, Eq)]
pub enum Separator {
    /// Commas (RFC 4180): a cell with a comma, a quote or an end of line is in quotes, and quotes
    /// in it are doubled.
    Comma,
    /// Tabs: a tab, a line feed, a carriage return and a backslash in a cell are written `\t`,
    /// `\n`, `\r` and `\\`.
    Tab,
}

// Adds the cell of a path.
fn push_path(cells: &mut ByteRecord, alloc: Global, path: &[u8]) -> Result<(), AllocError>
    ensures { Adds result cells.old cells.new (text_of path.now ∷ []) }
{
    let mut text = String::new(alloc);
    push_text(&mut text, path)?;
    cells.push_field(text.as_bytes())
}

// Adds the cell of a tag.
fn push_cell(
    cells: &mut ByteRecord,
    alloc: Global,
    exif: Option<&Exif>,
    tag: Tag,
    form: Form,
) -> Result<(), AllocError>
    ensures { Adds result cells.old cells.new
        (cell_in (option_map (λ e. e.now.fields) exif.entry) form tag ∷ []) }
{
    match exif {
        Some(exif) => {
            let text = cell_text(alloc, exif, tag, form)?;
            cells.push_field(text.as_bytes())
        }
        None => cells.push_field(b""),
    }
}

// Adds the name of a tag.
fn push_name(cells: &mut ByteRecord, alloc: Global, tag: Tag) -> Result<(), AllocError>
    ensures { Adds result cells.old cells.new (tag_text tag ∷ []) }
{
    let mut text = String::new(alloc);
    push_shown(&mut text, tag)?;
    cells.push_field(text.as_bytes())
}

// The line of cells.
fn line(alloc: Global, cells: &ByteRecord, separator: Separator) -> Result<Vec<u8>, AllocError>
    ensures { IfOk result (λ line. line.items ≡ line_of separator (fields_of cells.now)) }
{
    match separator {
        Separator::Comma => csv_line(alloc, cells),
        Separator::Tab => tsv_line(alloc, cells),
    }
}

/// The line of a picture: its path, and a cell for each tag, as [`cell_text`](crate::cell_text)
/// gives it; the cells are empty where the picture has no Exif data. A path that is not UTF-8 is
/// read as Latin-1. The line ends with a line feed. The only error is out of memory.
pub fn row(
    alloc: Global,
    path: &[u8],
    exif: Option<&Exif>,
    tags: &[Tag],
    form: Form,
    separator: Separator,
) -> Result<Vec<u8>, AllocError>
    ensures { IfOk result (λ line. line.items ≡ line_of separator
        (picture_cells path.now (option_map (λ e. e.now.fields) exif.entry) form tags.now)) }
{
    let mut cells = ByteRecord::new(alloc);
    push_path(&mut cells, alloc, path)?;
    for tag in tags {
        push_cell(&mut cells, alloc, exif, *tag, form)?;
    }
    line(alloc, &cells, separator)
}

/// The first line: `path`, and the names of the tags.
pub fn header(alloc: Global, tags: &[Tag], separator: Separator) -> Result<Vec<u8>, AllocError>
    ensures { IfOk result (λ line. line.items ≡ line_of separator (header_cells tags.now)) }
{
    let mut cells = ByteRecord::new(alloc);
    cells.push_field(b"path")?;
    for tag in tags {
        push_name(&mut cells, alloc, *tag)?;
    }
    line(alloc, &cells, separator)
}

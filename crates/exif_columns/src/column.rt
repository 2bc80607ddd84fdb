//! What a column shows, by its name.

ghost use Rattle.std.specs.Prelude.{◌≡◌, IfOk};
ghost use Rattle.exif_columns.specs.Columns.{answer_seen, column_of, columns_from, columns_in, columns_seen, dataset_column, is_value, path_column, shows_values, tag_column};
ghost use Rattle.exif_columns.specs.Names.{names_seen};

use crate::names::{names_in, tag_of_name};
use crate::prefixes::is_known_prefix;
use exif_iptc::{DatasetId, dataset_of_name};
use exif_types::Tag;
use std::alloc::{AllocError, Global};

/// What the cells of a column show.
#[derive(Debug, Drop)]
pub enum Column {
    /// The field of a tag.
    Tag(Tag),
    /// The XMP property with this path, or all items of the array with it.
    Xmp(String),
    /// The IPTC datasets with these numbers.
    Iptc(DatasetId),
}

/// The name of a column that is not known, and what it should be.
#[derive(Clone, Copy, Debug, PartialEq, Eq)]
pub enum UnknownColumn<'a> {
    /// A name without a colon is no tag.
    Tag(&'a str),
    /// What follows `iptc:` is no dataset.
    Dataset(&'a str),
    /// What precedes the colon is no usual prefix of a namespace of XMP: this is the whole name.
    Prefix(&'a str),
}

// The column of a tag.
fn tag_column<'a>(name: &'a str) -> Result<Column, UnknownColumn<'a>>
    ensures { answer_seen result ≡ tag_column name.entry.now }
{
    match tag_of_name(name) {
        Some(tag) => Ok(Column::Tag(tag)),
        None => Err(UnknownColumn::Tag(name)),
    }
}

// The column of an IPTC dataset.
fn dataset_column<'a>(name: &'a str) -> Result<Column, UnknownColumn<'a>>
    ensures { answer_seen result ≡ dataset_column name.entry.now }
{
    match dataset_of_name(name) {
        Some(id) => Ok(Column::Iptc(id)),
        None => Err(UnknownColumn::Dataset(name)),
    }
}

// The column of the path of an XMP property, which begins with this prefix.
fn path_column<'a>(
    alloc: Global,
    prefix: &str,
    path: &'a str,
) -> Result<Result<Column, UnknownColumn<'a>>, AllocError>
    ensures { IfOk result (λ column. answer_seen column ≡ path_column prefix.now path.entry.now) }
{
    if !is_known_prefix(prefix) {
        return Ok(Err(UnknownColumn::Prefix(path)));
    }
    let path = String::from_str(alloc, path)?;
    Ok(Ok(Column::Xmp(path)))
}

// The column of a name.
fn column_of<'a>(
    alloc: Global,
    name: &'a str,
) -> Result<Result<Column, UnknownColumn<'a>>, AllocError>
    ensures { IfOk result (λ column. answer_seen column ≡ column_of name.entry.now) }
{
    match name.split_once(':') {
        None => Ok(tag_column(name)),
        Some((prefix, rest)) => {
            if prefix == "iptc" {
                return Ok(dataset_column(rest));
            }
            path_column(alloc, prefix, name)
        }
    }
}

// The columns of names, or the first name that is not known.
fn columns_from<'a>(
    alloc: Global,
    names: &[&'a str],
) -> Result<Result<Vec<Column>, UnknownColumn<'a>>, AllocError>
    ensures { IfOk result (λ found.
        columns_seen found ≡ columns_from (names_seen names.entry.now)) }
{
    let mut columns = Vec::new(alloc);
    for name in names {
        match column_of(alloc, name)? {
            Ok(column) => columns.push(column)?,
            Err(unknown) => return Ok(Err(unknown)),
        }
    }
    Ok(Ok(columns))
}

/// The columns of a list of names with commas between them, or the first name in it that is not
/// known. The outer error is out of memory.
///
/// A name without a colon is a tag, as [`tag_of_name`] finds it. `iptc:` and the name of a dataset,
/// in letters of any case, is that dataset ([`exif_iptc::dataset_of_name`]). Any other name with a
/// colon is the path of an XMP property, as `xmp:Rating` or `mwg-rs:Regions/mwg-rs:RegionList[1]`,
/// which begins with one of the usual prefixes ([`exif_xml::usual_prefix`]).
pub fn columns_of<'a>(
    alloc: Global,
    list: &'a str,
) -> Result<Result<Vec<Column>, UnknownColumn<'a>>, AllocError>
    ensures { IfOk result (λ found. columns_seen found ≡ columns_in list.entry.now) }
{
    let names = names_in(alloc, list)?;
    columns_from(alloc, names.as_slice())
}

// Whether a column shows XMP properties or IPTC values.
fn is_value(column: &Column) -> bool
    ensures { result ≡ is_value column.now }
{
    match column {
        Column::Tag(_) => false,
        Column::Xmp(_) | Column::Iptc(_) => true,
    }
}

/// Whether one of these columns shows XMP properties or IPTC values.
pub fn shows_values(columns: &[Column]) -> bool
    ensures { result ≡ shows_values columns.now }
{
    columns.iter().any(|column| is_value(column))
}

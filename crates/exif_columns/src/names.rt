//! Tags by their names.

ghost use Rattle.std.specs.Prelude.{◌≡◌, IfOk, map};
ghost use Rattle.std.specs.List.{find, slice_split};
ghost use Rattle.std.specs.Option.{option_map};
ghost use Rattle.exif_table.specs.View.{row_view};
ghost use Rattle.exif_columns.specs.Names.{has_name, named_in, names_in, names_seen, or_else, tag_of_name, tags_from, tags_in, tags_seen};

use exif_table::rows::rows;
use exif_table::{Context, Row};
use exif_types::Tag;
use std::alloc::{AllocError, Global};

// The first row of a name.
fn row_named(rows: &'static [Row], name: &str) -> Option<&'static Row>
    ensures { option_map (λ row. row_view row.now) result
        ≡ find (has_name name.now) (map row_view rows.now) }
{
    for row in rows {
        if row.name.eq_ignore_ascii_case(name) {
            return Some(row);
        }
    }
    None
}

// The tag of a name in a context.
fn named_in(context: Context, name: &str) -> Option<Tag>
    ensures { result ≡ named_in context name.now }
{
    let row = row_named(rows(context), name)?;
    Some(Tag(context, row.number))
}

// The first tag, or else the second.
fn or_else(first: Option<Tag>, second: Option<Tag>) -> Option<Tag>
    ensures { result ≡ or_else first second }
{
    match first {
        Some(tag) => Some(tag),
        None => second,
    }
}

/// The tag of a name of the standard, in letters of any case; `None` where no tag has it. A name of
/// several contexts is that of the first of Tiff, Exif, Gps and Interop.
#[tactic(auto, unfolding(crate::specs::Names::tag_of_name))]
pub fn tag_of_name(name: &str) -> Option<Tag>
    ensures { result ≡ tag_of_name name.now }
{
    let later = or_else(
        named_in(Context::Gps, name),
        named_in(Context::Interop, name),
    );
    let others = or_else(named_in(Context::Exif, name), later);
    or_else(named_in(Context::Tiff, name), others)
}

/// The names in a list, between its commas.
pub(crate) fn names_in<'a>(alloc: Global, list: &'a str) -> Result<Vec<&'a str>, AllocError>
    ensures { IfOk result (λ names. names_seen names.items ≡ names_in list.entry.now) }
{
    list.split(',').collect(alloc)
}

// The tags of names, or the first name that is not known.
fn tags_from<'a>(alloc: Global, names: &[&'a str]) -> Result<Result<Vec<Tag>, &'a str>, AllocError>
    ensures { IfOk result (λ found. tags_seen found ≡ tags_from (names_seen names.entry.now)) }
{
    let mut tags = Vec::new(alloc);
    for name in names {
        match tag_of_name(name) {
            Some(tag) => tags.push(tag)?,
            None => return Ok(Err(name)),
        }
    }
    Ok(Ok(tags))
}

/// The tags of a list of names with commas between them, each as [`tag_of_name`] finds it, or the
/// first name in it that is not known. The outer error is out of memory.
///
/// `Model,FNumber` gives two tags in this order, and `Model,Modell` gives `Err("Modell")`. Spaces
/// are part of a name, and an empty list gives `Err("")`.
pub fn tags_of<'a>(alloc: Global, list: &'a str) -> Result<Result<Vec<Tag>, &'a str>, AllocError>
    ensures { IfOk result (λ found. tags_seen found ≡ tags_in list.entry.now) }
{
    let names = names_in(alloc, list)?;
    tags_from(alloc, names.as_slice())
}

//! What the flags of a command line choose.

ghost use Rattle.std.specs.Prelude.{◌≡◌};
ghost use Rattle.exif_files.specs.Names.{name_if};
ghost use Rattle.exif_session.specs.Flags.{cells_by, date_tag_by, dates_by, form_by, separator_by};

use crate::request::Form;
use exif_columns::{self as columns, Separator};
use exif_rename::DateTag;
use exif_setting::Dates;

/// Which dates `shift` moves: all, or those of the Exif directory only.
pub fn dates_by(exif_only: bool) -> Dates
    ensures { result ≡ dates_by exif_only }
{
    if exif_only { Dates::Exif } else { Dates::All }
}

/// How the cells of a table are written: as people read them, or raw.
pub fn cells_by(raw: bool) -> columns::Form
    ensures { result ≡ cells_by raw }
{
    if raw {
        columns::Form::Raw
    } else {
        columns::Form::Display
    }
}

/// What is between the cells of a table: commas, or tabs.
pub fn separator_by(tabs: bool) -> Separator
    ensures { result ≡ separator_by tabs }
{
    if tabs {
        Separator::Tab
    } else {
        Separator::Comma
    }
}

/// How an answer is written: as lines, or as JSON.
pub fn form_by(json: bool) -> Form
    ensures { result ≡ form_by json }
{
    if json { Form::Json } else { Form::Lines }
}

/// A name of no date that gives new names.
#[derive(Clone, Copy)]
pub struct UnknownDate;

/// The date that gives new names, if one is named.
pub fn date_tag_by(name: Option<&str>) -> Result<Option<DateTag>, UnknownDate>
    ensures { result ≡ date_tag_by (name_if name.entry) }
{
    match name {
        Some(name) => match DateTag::named(name) {
            Some(tag) => Ok(Some(tag)),
            None => Err(UnknownDate),
        },
        None => Ok(None),
    }
}

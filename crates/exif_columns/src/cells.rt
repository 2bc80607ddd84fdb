//! The cells of a row.

ghost use Rattle.std.specs.Prelude.{◌≡◌, ◌++◌, IfOk, OnOk};
ghost use Rattle.std.specs.String.{string_bytes};
ghost use Rattle.exif_columns.specs.Cells.{cell_of, field_text};

use crate::raw::push_value;
use crate::texts::push_shown;
use exif_types::{Exif, Field, In, Tag};
use std::alloc::{AllocError, Global};

/// How a cell shows a field.
#[derive(Clone, Copy, Debug, PartialEq, Eq)]
pub enum Form {
    /// As `mexaldor show` does, with the unit: `f/2.8`, `1/125 s`, `"Pinhole 2"`.
    Display,
    /// As numbers and texts, without a unit: `2.8`, `0.008`, `Pinhole 2`. Several have a space
    /// between each two. Fractions are decimals, cut after nine places; a fraction over 0 is
    /// empty. Bytes of type UNDEFINED are lower hexadecimal digits without spaces, floating point
    /// numbers their bits as hexadecimal digits behind `0x`, and a value of an unknown type is
    /// empty. A text that is not UTF-8 is read as Latin-1.
    Raw,
}

// Appends what a cell shows of a field.
fn push_field(text: &mut String, exif: &Exif, field: &Field, form: Form) -> Result<(), AllocError>
    ensures { OnOk result (string_bytes text.new
        ≡ string_bytes text.old ++ field_text exif.now.fields form field.now) }
{
    match form {
        Form::Display => push_shown(text, field.display_value().with_unit(exif)),
        Form::Raw => push_value(text, &field.value),
    }
}

/// The text of a field of the main image: of the last with the tag, as
/// [`get_field`](exif_types::Exif::get_field) finds it. It is empty where there is none. The only
/// error is out of memory.
pub fn cell_text(alloc: Global, exif: &Exif, tag: Tag, form: Form) -> Result<String, AllocError>
    ensures { IfOk result (λ text. string_bytes text ≡ cell_of exif.now.fields form tag) }
{
    let mut text = String::new(alloc);
    match exif.get_field(tag, In::PRIMARY) {
        Some(field) => push_field(&mut text, exif, field, form)?,
        None => {}
    }
    Ok(text)
}

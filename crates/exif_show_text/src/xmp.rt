//! The line of an XMP property.

ghost use Rattle.std.specs.Prelude.{◌≡◌, IfOk, string_bytes};
ghost use Rattle.exif_show_text.specs.XmpLines.{place_text, value_text, xmp_line};
ghost use Rattle.exif_xmp.specs.Properties.{bytes_view, property_view};

use exif_decisions::{Escaped, readable};
use exif_xmp::{Form, Property};
use std::alloc::{AllocError, Global};

// Where a property is, and the language of its text, if that is known.
fn place_text(alloc: Global, language: &Option<Vec<u8>>) -> Result<String, AllocError>
    ensures { IfOk result (λ text. string_bytes text ≡ place_text (bytes_view language.now)) }
{
    match language {
        Some(language) => {
            let language = readable(alloc, language.as_slice())?;
            let language = Escaped(language.as_str());
            format!(in alloc; "XMP, {language}")
        }
        None => String::from_str(alloc, "XMP"),
    }
}

// The text of a property, or that it has a form that is not read.
fn value_text(alloc: Global, form: Form, text: &[u8]) -> Result<String, AllocError>
    ensures { IfOk result (λ value. string_bytes value ≡ value_text form text.now) }
{
    match form {
        Form::Text => readable(alloc, text),
        Form::Unread => String::from_str(alloc, "(a form of RDF that is not read)"),
    }
}

/// The line of a property: its path, the language of its text, and the text, in which control
/// characters and bytes that are no UTF-8 are escaped. It takes the memory of the line.
pub fn xmp_line(alloc: Global, property: &Property) -> Result<String, AllocError>
    ensures { IfOk result
        (λ line. string_bytes line ≡ xmp_line (property_view property.now)) }
{
    let path = readable(alloc, property.path.as_slice())?;
    let place = place_text(alloc, &property.language)?;
    let value = value_text(alloc, property.form, property.text.as_slice())?;
    let path = Escaped(path.as_str());
    let value = Escaped(value.as_str());
    format!(in alloc; "{path} ({place}): {value}\n")
}

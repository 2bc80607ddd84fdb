//! Cells of XMP properties and of IPTC datasets.

ghost use Rattle.std.specs.Prelude.{◌≡◌, ◌++◌, [], false, map, string_bytes, IfOk, OnOk};
ghost use Rattle.exif_columns.specs.ValueCells.{between, content_text, is_dataset, is_wanted, iptc_behind, xmp_behind, xmp_cell};
ghost use Rattle.exif_columns.specs.Texts.{text_of};
ghost use Rattle.exif_iptc.specs.Values.{content_view, value_view};
ghost use Rattle.exif_xmp.specs.Properties.{property_view};

use crate::texts::{push_hex, push_shown, push_text};
use exif_iptc::{Content, DatasetId, Value, is_repeatable};
use exif_values::paths::texts_at;
use exif_xmp::Property;
use std::alloc::{AllocError, Global};

// Appends what is between two texts, where there is one already.
fn push_between(text: &mut String, started: bool) -> Result<(), AllocError>
    ensures { OnOk result (string_bytes text.new ≡ string_bytes text.old ++ between started) }
{
    if started {
        return text.push_str("; ");
    }
    Ok(())
}

// The texts of properties, one behind the other.
fn xmp_texts(alloc: Global, properties: &[Property]) -> Result<String, AllocError>
    ensures { IfOk result (λ text. string_bytes text
        ≡ xmp_behind [] false (map property_view properties.now)) }
{
    let mut text = String::new(alloc);
    let mut started = false;
    for property in properties {
        push_between(&mut text, started)?;
        push_text(&mut text, property.text.as_slice())?;
        started = true;
    }
    Ok(text)
}

/// The text of the property with a path, or the texts of the items of the array with it, with `; `
/// between two; of a language alternative one text ([`texts_at`]). It is empty where there is none.
pub fn xmp_cell(alloc: Global, properties: &[Property], path: &str) -> Result<String, AllocError>
    ensures { IfOk result (λ text. string_bytes text
        ≡ xmp_cell (map property_view properties.now) path.now) }
{
    let shown = texts_at(alloc, path.as_bytes(), properties)?;
    xmp_texts(alloc, shown)
}

// Appends what a dataset says: a text, a number, or bytes in hexadecimal.
fn push_content(text: &mut String, content: &Content) -> Result<(), AllocError>
    ensures { OnOk result (string_bytes text.new
        ≡ string_bytes text.old ++ content_text (content_view content.now)) }
{
    match content {
        Content::Text(value) => text.push_str(value.as_str()),
        Content::Number(number) => push_shown(text, *number),
        Content::Bytes(bytes) => push_hex(text, bytes.as_slice()),
    }
}

// Whether a value is one of a dataset.
fn is_dataset(id: DatasetId, value: &Value) -> bool
    ensures { result ≡ is_dataset id (value_view value.now) }
{
    value.dataset.record_number == id.record_number && value.dataset.number == id.number
}

// Whether a value is shown, where one was shown before or not.
fn is_wanted(id: DatasetId, started: bool, value: &Value) -> bool
    ensures { result ≡ is_wanted id started (value_view value.now) }
{
    is_dataset(id, value) && (!started || is_repeatable(id.record_number, id.number))
}

/// What a dataset says: a text, a number, or bytes as lower hexadecimal digits. A repeatable one
/// says all its values, with `; ` between two, any other the first. It is empty where there is none.
pub fn iptc_cell(alloc: Global, values: &[Value], id: DatasetId) -> Result<String, AllocError>
    ensures { IfOk result (λ text. string_bytes text
        ≡ iptc_behind id [] false (map value_view values.now)) }
{
    let mut text = String::new(alloc);
    let mut started = false;
    for value in values {
        if is_wanted(id, started, value) {
            push_between(&mut text, started)?;
            push_content(&mut text, &value.content)?;
            started = true;
        }
    }
    Ok(text)
}

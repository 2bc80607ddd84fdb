//! Texts and other data in Exif data, in which a location may be named.

ghost use Rattle.std.specs.Prelude.{◌≡◌, OnOk};
ghost use Rattle.exif_data_locations.specs.Texts.{field_why, is_shown, is_tag_among, show, show_one, shown_why, shows, shows_comment, texts_noted};

use crate::reason::Reason;
use crate::tags::{character_codes, other_tags, text_tags};
use exif_base::Items;
use exif_locations::words::begins_with_one;
use exif_types::{Context, Field, Tag, Value};
use std::alloc::AllocError;

// Whether a byte shows something.
fn is_shown(byte: u8) -> bool
    ensures { result ≡ is_shown byte }
{
    !(byte == 0 || byte == b' ')
}

// Whether bytes show something.
fn show(bytes: &[u8]) -> bool
    ensures { result ≡ show bytes.now }
{
    bytes.iter().any(|byte| is_shown(*byte))
}

// Whether one of some texts does.
fn show_one(texts: &[Items<u8>]) -> bool
    ensures { result ≡ show_one texts.now }
{
    for text in texts {
        if show(text) {
            return true;
        }
    }
    false
}

// Whether a comment shows something, behind its character code if it has one.
fn shows_comment(bytes: &[u8]) -> bool
    ensures { result ≡ shows_comment bytes.now }
{
    if !begins_with_one(character_codes(), bytes) {
        return show(bytes);
    }
    match bytes.get(8..) {
        Some(comment) => show(comment),
        None => false,
    }
}

// Whether a value shows something.
fn shows(value: &Value) -> bool
    ensures { result ≡ shows value.now }
{
    match value {
        Value::Ascii(texts) => show_one(texts),
        Value::Byte(numbers) => show(numbers),
        Value::Undefined(bytes, _) => shows_comment(bytes),
        _ => true,
    }
}

// Whether a tag of the chain or of the Exif directory has one of these numbers.
fn is_tag_among(numbers: &[u16], tag: Tag) -> bool
    ensures { result ≡ is_tag_among numbers.now tag }
{
    match tag.0 {
        Context::Tiff | Context::Exif => numbers.contains(&tag.1),
        Context::Gps | Context::Interop => false,
    }
}

// Why a field with a value that shows something may name a location.
fn shown_why(tag: Tag) -> Option<Reason>
    ensures { result ≡ shown_why tag }
{
    if is_tag_among(text_tags(), tag) {
        Some(Reason::Text(tag))
    } else if is_tag_among(other_tags(), tag) {
        Some(Reason::NotSearched(tag))
    } else {
        None
    }
}

// Why a field may name a location.
fn field_why(field: &Field) -> Option<Reason>
    ensures { result ≡ field_why field.now }
{
    let why = shown_why(field.tag)?;
    if shows(&field.value) { Some(why) } else { None }
}

/// Notes each field that shows something and is a text or holds data of its own.
pub fn note_texts(fields: &[Field], whys: &mut Vec<Reason>) -> Result<(), AllocError>
    ensures { OnOk result (whys.new.items ≡ texts_noted fields.now whys.old.items) }
{
    for field in fields {
        if let Some(why) = field_why(field) {
            whys.push(why)?;
        }
    }
    Ok(())
}

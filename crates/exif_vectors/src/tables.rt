//! What the tag table says, and the types of values.

use crate::calls::send;
use crate::cases::{Call, Case};
use exif::{Context, Error, Field, Sink, Tag, Value};
use exif_table::rows::rows;
use exif_table::{DefaultValue, Row, UnitPiece, find_row};
use std::alloc::{AllocError, Global};
use std::fmt::Display;

/// What the table or a value answers.
pub fn looked_up<W: Sink>(alloc: Global, case: &Case, out: &mut W) -> Result<(), Error> {
    let text = match case.tag {
        Some((tag, _ifd_num)) => text_of_tag(alloc, case.call, tag)?,
        None => type_text(alloc, case.fields.as_slice())?,
    };
    send(out, text.as_bytes())
}

fn text_of_tag(alloc: Global, call: Call, tag: Tag) -> Result<String, Error> {
    match call {
        Call::Rows => rows_text(alloc, tag.context()),
        Call::Row => row_text(alloc, tag),
        Call::Describe => description(alloc, tag),
        _ => default(alloc, tag),
    }
}

// All rows of a context, a line each.
fn rows_text(alloc: Global, context: Context) -> Result<String, Error> {
    let mut text = String::new(alloc);
    for row in rows(context) {
        push_row(&mut text, row)?;
    }
    Ok(text)
}

fn row_text(alloc: Global, tag: Tag) -> Result<String, Error> {
    let row = find_row(tag.context(), tag.number()).ok_or(Error::InvalidFormat("none"))?;
    let mut text = String::new(alloc);
    push_row(&mut text, row)?;
    Ok(text)
}

fn push_row(text: &mut String, row: &Row) -> Result<(), AllocError> {
    let (number, name, description, kind) = (row.number, row.name, row.description, row.kind);
    write!(text, "{number:x} {name} \"{description}\" {kind:?}")?;
    if !row.unit.is_empty() {
        text.push_str(" unit")?;
    }
    for piece in row.unit {
        push_piece(text, *piece)?;
    }
    push_default(text, row.default)?;
    text.push_str("\n")
}

fn push_piece(text: &mut String, piece: UnitPiece<'_>) -> Result<(), AllocError> {
    match piece {
        UnitPiece::Value => text.push_str(" value"),
        UnitPiece::Str(unit) => push_quoted(text, unit),
        UnitPiece::Tag(context, number) => push_tag(text, Tag(context, number)),
    }
}

fn push_quoted(text: &mut String, unit: &str) -> Result<(), AllocError> {
    write!(text, " \"{unit}\"")
}

fn push_tag(text: &mut String, tag: Tag) -> Result<(), AllocError> {
    write!(text, " {tag}")
}

fn push_default(text: &mut String, default: DefaultValue) -> Result<(), AllocError> {
    match default {
        DefaultValue::None => Ok(()),
        DefaultValue::ContextDependent => text.push_str(" default ContextDependent"),
        DefaultValue::Unspecified => text.push_str(" default Unspecified"),
        DefaultValue::Byte(numbers) => push_numbers(text, "Byte", numbers),
        DefaultValue::Short(numbers) => push_numbers(text, "Short", numbers),
        DefaultValue::Ascii(bytes) => push_numbers(text, "Ascii", bytes),
        DefaultValue::Undefined(bytes) => push_numbers(text, "Undefined", bytes),
        DefaultValue::Rational(num, denom) => push_fraction(text, num, denom),
    }
}

fn push_numbers<T: Copy + Display>(
    text: &mut String,
    name: &str,
    numbers: &[T],
) -> Result<(), AllocError> {
    write!(text, " default {name}")?;
    for number in numbers {
        write!(text, " {number}")?;
    }
    Ok(())
}

fn push_fraction(text: &mut String, num: u32, denom: u32) -> Result<(), AllocError> {
    write!(text, " default Rational {num}/{denom}")
}

fn description(alloc: Global, tag: Tag) -> Result<String, Error> {
    let text = tag.description().ok_or(Error::InvalidFormat("none"))?;
    Ok(String::from_str(alloc, text)?)
}

fn default(alloc: Global, tag: Tag) -> Result<String, Error> {
    match tag.default_value(alloc)? {
        Some(value) => Ok(debug_text(alloc, value)?),
        None => Err(Error::InvalidFormat("none")),
    }
}

fn debug_text(alloc: Global, value: Value) -> Result<String, AllocError> {
    format!(in alloc; "{value:?}")
}

// The type of a value, the length of an item, and how many items there are.
fn type_text(alloc: Global, fields: &[Field]) -> Result<String, Error> {
    let field = fields.first().ok_or(Error::InvalidFormat("no field"))?;
    Ok(type_of(alloc, &field.value)?)
}

fn type_of(alloc: Global, value: &Value) -> Result<String, AllocError> {
    let (number, count) = (value.type_number(), value.count().unwrap_or(0));
    match value.field_type() {
        None => format!(in alloc; "type {number}, unknown, count {count}"),
        Some(known) => {
            let (named, length) = (known.number(), known.unit_length());
            format!(in alloc; "type {number}, known as {named} of {length} bytes, count {count}")
        }
    }
}

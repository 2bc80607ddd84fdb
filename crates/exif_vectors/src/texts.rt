//! The texts of values, and dates.

use crate::calls::{end_of, send};
use crate::cases::{Call, Case, CaseError};
use exif::{DateTime, Error, Field, Sink};
use std::alloc::{AllocError, Global};
use std::fmt::Display;

/// The text of the first field, with its unit where the call is `unit`: beside the second field,
/// where there is one.
pub fn shown<W: Sink>(alloc: Global, case: &Case, out: &mut W) -> Result<(), Error> {
    let text = match case.fields.as_slice() {
        [field] => text_of(alloc, case.call, field)?,
        [field, other] => beside(alloc, field, other)?,
        _ => String::new(alloc),
    };
    send(out, text.as_bytes())
}

fn text_of(alloc: Global, call: Call, field: &Field) -> Result<String, AllocError> {
    let value = field.display_value();
    match call {
        Call::Unit => in_widths(alloc, &value.with_unit(())),
        _ => in_widths(alloc, &value),
    }
}

fn beside(alloc: Global, field: &Field, other: &Field) -> Result<String, AllocError> {
    in_widths(alloc, &field.display_value().with_unit(other))
}

// The text of a value, which no width changes. Where one does, the text in widths comes instead.
fn in_widths<T: Display>(alloc: Global, value: &T) -> Result<String, AllocError> {
    let text = format!(in alloc; "{value}")?;
    let twice = format!(in alloc; "{text}|{text}")?;
    let wide = format!(in alloc; "{value:60}|{value:>60}")?;
    if wide == twice { Ok(text) } else { Ok(wide) }
}

/// The date, or the offset in minutes, that the input spells.
pub fn dated<W: Sink>(alloc: Global, case: &Case, out: &mut W) -> Result<String, CaseError> {
    let answer = match case.call {
        Call::Date => date_text(alloc, case.input.as_slice()),
        _ => offset_text(alloc, case.input.as_slice()),
    };
    match answer {
        Ok(text) => end_of(alloc, send(out, text.as_bytes())),
        Err(Error::BlankValue(text)) => Ok(format!(in alloc; "blank: {text}")?),
        Err(error) => end_of::<(), Error>(alloc, Err(error)),
    }
}

fn date_text(alloc: Global, bytes: &[u8]) -> Result<String, Error> {
    let date = DateTime::from_ascii(bytes)?;
    Ok(format!(in alloc; "{date}")?)
}

fn offset_text(alloc: Global, bytes: &[u8]) -> Result<String, Error> {
    let mut date = DateTime::from_ascii(b"0000:00:00 00:00:00")?;
    date.parse_offset(bytes)?;
    let minutes = date.offset.unwrap_or(0);
    Ok(format!(in alloc; "{minutes}")?)
}

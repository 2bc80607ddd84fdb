//! Values that texts spell.

ghost use Rattle.std.specs.Prelude.{◌≡◌, ◌<◌, ◌≤◌, ◌*◌, ◌%◌, ◌==◌, [], ◌∷◌, ◌++◌, length, nat_lt, IfOk};
ghost use Rattle.std.specs.List.{list_all, list_any};
ghost use Rattle.std.specs.Option.{option_map};
ghost use Rattle.exif_assign.specs.Texts.{Spells, fraction};
ghost use Rattle.exif_assign.specs.Values.{ValuesAs, bytes_of, character_code, date_in, day_in, decimal_degrees, degrees_in, degrees_value, has_day_separators, has_separators, spelled_value, text_in, undefined_value, value_in};

use crate::fitting::fits;
use crate::rules::{Form, form_of};
use crate::spelled::{ValueError, items_in, power_of_ten};
use exif_base::Items;
use exif_datetime::{cut, number_below};
use exif_text::{FieldType, Rational};
use exif_types::{Tag, Value};
use std::alloc::{AllocError, Global};

// A value of one text.
fn one_text(alloc: Global, bytes: Vec<u8>) -> Result<Value, AllocError>
    ensures { IfOk result (λ value. value ≡ Value.Ascii (bytes.items ∷ [])) }
{
    let mut texts = Vec::new(alloc);
    texts.push(Items::from_vec(bytes))?;
    Ok(Value::Ascii(Items::from_vec(texts)))
}

// Whether a text holds a zero byte.
fn has_zero(text: &[u8]) -> bool
    ensures { result ≡ list_any (λ byte. byte == 0) text.now }
{
    text.iter().any(|byte| *byte == 0)
}

// Whether each byte is ASCII.
fn is_plain(text: &[u8]) -> bool
    ensures { result ≡ list_all (λ byte. nat_lt byte 128) text.now }
{
    text.iter().all(|byte| *byte < 128)
}

// A text, which holds no zero byte.
fn text_in(alloc: Global, text: &[u8]) -> Result<Value, ValueError>
    ensures { Spells (λ value. value) result (text_in text.now) }
{
    if has_zero(text) {
        return Err(ValueError::NotOfItsType);
    }
    let bytes = Vec::from_slice(alloc, text)?;
    Ok(one_text(alloc, bytes)?)
}

// Whether a text has what may separate the parts of a date, as ISO 8601 and Exif do.
fn has_separators(text: &[u8]) -> bool
    requires { length text.now ≡ 19 }
    ensures { result ≡ has_separators text.now }
{
    (text[4] == b':' || text[4] == b'-')
        && (text[7] == b':' || text[7] == b'-')
        && (text[10] == b' ' || text[10] == b'T')
}

// A date with the separators of Exif data (Exif 2.32, section 4.6.4).
fn date_in(alloc: Global, text: &[u8]) -> Result<Value, ValueError>
    ensures { Spells (λ value. value) result (date_in text.now) }
{
    if text.len() != 19 || !has_separators(text) {
        return Err(ValueError::NotOfItsType);
    }
    let mut bytes = Vec::from_slice(alloc, text)?;
    bytes[4] = b':';
    bytes[7] = b':';
    bytes[10] = b' ';
    Ok(one_text(alloc, bytes)?)
}

// Whether a text has what may separate the parts of a day, as ISO 8601 and Exif do.
fn has_day_separators(text: &[u8]) -> bool
    requires { length text.now ≡ 10 }
    ensures { result ≡ has_day_separators text.now }
{
    (text[4] == b':' || text[4] == b'-') && (text[7] == b':' || text[7] == b'-')
}

// A day with the separators of Exif data (Exif 2.32, section 4.6.6, GPSDateStamp).
fn day_in(alloc: Global, text: &[u8]) -> Result<Value, ValueError>
    ensures { Spells (λ value. value) result (day_in text.now) }
{
    if text.len() != 10 || !has_day_separators(text) {
        return Err(ValueError::NotOfItsType);
    }
    let mut bytes = Vec::from_slice(alloc, text)?;
    bytes[4] = b':';
    bytes[7] = b':';
    Ok(one_text(alloc, bytes)?)
}

// The character code of a comment: ASCII, or none.
fn character_code(text: &[u8]) -> [u8; 8]
    ensures { result ≡ character_code text.now }
{
    if is_plain(text) {
        *b"ASCII\0\0\0"
    } else {
        [0; 8]
    }
}

// A comment behind its character code (Exif 2.32, sections 4.6.5, UserComment, and 4.6.6).
fn comment(alloc: Global, text: &[u8]) -> Result<Value, AllocError>
    ensures { IfOk result
        (λ value. value ≡ bytes_of (character_code text.now ++ text.now)) }
{
    let mut bytes = Vec::from_slice(alloc, &character_code(text))?;
    bytes.extend_from_slice(text)?;
    Ok(Value::Undefined(Items::from_vec(bytes), 0))
}

// A comment behind its character code, a number, or the bytes of the text.
fn undefined_value(alloc: Global, form: Form, text: &[u8]) -> Result<Value, ValueError>
    ensures { Spells (λ value. value) result (undefined_value form text.now) }
{
    match form {
        Form::Comment => Ok(comment(alloc, text)?),
        Form::Within(_, _) => Ok(Value::Undefined(items_in(alloc, text)?, 0)),
        _ => Ok(Value::Undefined(Items::from_slice(alloc, text)?, 0)),
    }
}

// The seconds of a part of a degree over a power of ten, which the whole minutes leave.
fn seconds_of(part: u64, denom: u64) -> Rational
    requires part { part < denom }
    requires denom { denom ≤ 10000000 }
    ensures { result ≡ fraction (part * 60 % denom * 60) denom }
{
    let rest = part * 60 % denom;
    Rational {
        num: (rest * 60) as u32,
        denom: denom as u32,
    }
}

// Whole degrees, and the digits of a part of one, as degrees, minutes and seconds. Of more than
// seven digits, which are a centimetre, the others are left out.
fn decimal_degrees(whole: &[u8], digits: &[u8]) -> Option<[Rational; 3]>
    ensures { result ≡ decimal_degrees (whole.now, digits.now) }
{
    let degrees = number_below(1_000, whole)?;
    let digits = &digits[..digits.len().min(7)];
    let denom = power_of_ten(digits.len());
    let part = number_below(denom, digits)?;
    Some([
        Rational {
            num: degrees as u32,
            denom: 1,
        },
        Rational {
            num: (part * 60 / denom) as u32,
            denom: 1,
        },
        seconds_of(part, denom),
    ])
}

// Degrees as a decimal, of which the minutes and seconds are made; none where the text is no
// decimal.
fn degrees_in(text: &[u8]) -> Option<[Rational; 3]>
    ensures { result ≡ degrees_in text.now }
{
    match cut(b'.', text) {
        Some((whole, digits)) => decimal_degrees(whole, digits),
        None => {
            let degrees = number_below(1_000, text)?;
            Some([
                Rational {
                    num: degrees as u32,
                    denom: 1,
                },
                Rational { num: 0, denom: 1 },
                Rational { num: 0, denom: 1 },
            ])
        }
    }
}

// Degrees as a decimal, or as three fractions.
fn degrees_value(alloc: Global, text: &[u8]) -> Result<Value, ValueError>
    ensures { Spells (λ value. value) result (degrees_value text.now) }
{
    match degrees_in(text) {
        Some(parts) => Ok(Value::Rational(Items::from_slice(alloc, &parts)?)),
        None => Ok(Value::Rational(items_in(alloc, text)?)),
    }
}

// The value of a type that a text spells.
fn spelled_value(
    alloc: Global,
    tag: Tag,
    field_type: FieldType,
    text: &[u8],
) -> Result<Value, ValueError>
    ensures { Spells (λ value. value) result (spelled_value tag field_type text.now) }
{
    match (field_type, form_of(tag)) {
        (FieldType::Ascii, Form::Date) => date_in(alloc, text),
        (FieldType::Ascii, Form::Day) => day_in(alloc, text),
        (FieldType::Ascii, _) => text_in(alloc, text),
        (FieldType::Undefined, form) => undefined_value(alloc, form, text),
        (FieldType::Byte, _) => Ok(Value::Byte(items_in(alloc, text)?)),
        (FieldType::Short, _) => Ok(Value::Short(items_in(alloc, text)?)),
        (FieldType::Long, _) => Ok(Value::Long(items_in(alloc, text)?)),
        (FieldType::SByte, _) => Ok(Value::SByte(items_in(alloc, text)?)),
        (FieldType::SShort, _) => Ok(Value::SShort(items_in(alloc, text)?)),
        (FieldType::SLong, _) => Ok(Value::SLong(items_in(alloc, text)?)),
        (FieldType::Rational, Form::Degrees(_)) => degrees_value(alloc, text),
        (FieldType::Rational, _) => Ok(Value::Rational(items_in(alloc, text)?)),
        (FieldType::SRational, _) => Ok(Value::SRational(items_in(alloc, text)?)),
        (FieldType::Float | FieldType::Double, _) => Err(ValueError::NotOfItsType),
    }
}

/// The value of a type that a text spells: texts as they are, numbers between commas or spaces,
/// fractions as `1/200`, `28` or `2.8`, degrees as a decimal or as three fractions, comments behind
/// their character code. Dates and days may be written as ISO 8601 has them.
///
/// A value that the standard does not have for a tag is refused as `OutOfRange`: another number of
/// items, a number that it does not list, a date that the calendar lacks, a fraction over 0. Not
/// checked: that texts are ASCII, the bytes of `ImageUniqueID` and of tags of type undefined, the
/// versions, the tables of colours, and how many items `BitsPerSample` has. A date, a day or an
/// offset that is blank, which the standard allows where it is unknown, is refused.
#[tactic(auto, unfolding(crate::specs::Values::value_in))]
pub fn value_of(
    alloc: Global,
    tag: Tag,
    field_type: FieldType,
    text: &str,
) -> Result<Value, ValueError>
    ensures { ValuesAs result (value_in tag field_type text.now) }
{
    let value = spelled_value(alloc, tag, field_type, text.as_bytes())?;
    if fits(form_of(tag), &value) {
        Ok(value)
    } else {
        Err(ValueError::OutOfRange)
    }
}

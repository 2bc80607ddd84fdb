//! Tags and values as lines write them: `ImageWidth@1`, `Tiff:65000`, `Short 8 8 8`, `Rational
//! 1/2`.

use crate::cases::error::CaseError;
use crate::cases::words::Word;
use exif::{Context, Field, In, Items, Rational, SRational, Tag, Value};
use exif_table::rows::rows;
use std::alloc::Global;
use std::str::FromStr;

const CONTEXTS: [Context; 4] = [Context::Tiff, Context::Exif, Context::Gps, Context::Interop];

fn parsed<T: FromStr>(text: &str) -> Result<T, CaseError>
where
    T::Err: Drop,
{
    match text.parse::<T>() {
        Ok(number) => Ok(number),
        Err(_) => Err(CaseError::Line("no number of the type")),
    }
}

/// A tag with its directory; the first one where none is named.
pub fn tag_of(text: &str) -> Result<(Tag, In), CaseError> {
    match text.split_once('@') {
        Some((name, number)) => Ok((tag_named(name)?, In(parsed(number)?))),
        None => Ok((tag_named(text)?, In(0))),
    }
}

fn tag_named(name: &str) -> Result<Tag, CaseError> {
    if let Some((context, number)) = name.split_once(':') {
        return Ok(Tag(context_named(context)?, parsed(number)?));
    }
    for context in CONTEXTS {
        if let Some(row) = rows(context).iter().find(|row| row.name == name) {
            return Ok(Tag(context, row.number));
        }
    }
    Err(CaseError::Line("no such tag"))
}

fn context_named(name: &str) -> Result<Context, CaseError> {
    for context in CONTEXTS {
        if context.name() == name {
            return Ok(context);
        }
    }
    Err(CaseError::Line("no such context"))
}

// A list of numbers.
fn numbers<T: FromStr + Drop>(alloc: Global, words: &[Word]) -> Result<Items<T>, CaseError>
where
    T::Err: Drop,
{
    let mut list = Vec::new(alloc);
    for word in words {
        list.push(parsed::<T>(word.plain())?)?;
    }
    Ok(Items::from_vec(list))
}

// The two numbers of a fraction.
fn halves<T: FromStr>(text: &str) -> Result<(T, T), CaseError>
where
    T: Drop,
    T::Err: Drop,
{
    let Some((num, denom)) = text.split_once('/') else {
        return Err(CaseError::Line("no fraction"));
    };
    Ok((parsed(num)?, parsed(denom)?))
}

fn fractions(alloc: Global, words: &[Word]) -> Result<Items<Rational>, CaseError> {
    let mut list = Vec::new(alloc);
    for word in words {
        list.push(Rational::from(halves::<u32>(word.plain())?))?;
    }
    Ok(Items::from_vec(list))
}

fn signed_fractions(alloc: Global, words: &[Word]) -> Result<Items<SRational>, CaseError> {
    let mut list = Vec::new(alloc);
    for word in words {
        list.push(SRational::from(halves::<i32>(word.plain())?))?;
    }
    Ok(Items::from_vec(list))
}

fn texts(alloc: Global, words: &[Word]) -> Result<Items<Items<u8>>, CaseError> {
    let mut list = Vec::new(alloc);
    for word in words {
        list.push(Items::from_slice(alloc, word.bytes.as_slice())?)?;
    }
    Ok(Items::from_vec(list))
}

fn undefined(alloc: Global, words: &[Word]) -> Result<Value, CaseError> {
    let mut bytes = Vec::new(alloc);
    for word in words {
        bytes.extend_from_slice(word.bytes.as_slice())?;
    }
    Ok(Value::Undefined(Items::from_vec(bytes), 0))
}

fn unknown(words: &[Word]) -> Result<Value, CaseError> {
    let [kind, count, offset] = words else {
        return Err(CaseError::Line("an unknown value has a type, a count and an offset"));
    };
    Ok(Value::Unknown(
        parsed(kind.plain())?,
        parsed(count.plain())?,
        parsed(offset.plain())?,
    ))
}

/// A value: the name of its type, and its items.
pub fn value_of(alloc: Global, words: &[Word]) -> Result<Value, CaseError> {
    let Some((kind, items)) = words.split_first() else {
        return Err(CaseError::Line("no type"));
    };
    match kind.plain() {
        "Byte" => Ok(Value::Byte(numbers(alloc, items)?)),
        "Ascii" => Ok(Value::Ascii(texts(alloc, items)?)),
        "Short" => Ok(Value::Short(numbers(alloc, items)?)),
        "Long" => Ok(Value::Long(numbers(alloc, items)?)),
        "Rational" => Ok(Value::Rational(fractions(alloc, items)?)),
        "Undefined" => undefined(alloc, items),
        "Unknown" => unknown(items),
        name => signed_or_bits(alloc, name, items),
    }
}

fn signed_or_bits(alloc: Global, name: &str, items: &[Word]) -> Result<Value, CaseError> {
    match name {
        "SByte" => Ok(Value::SByte(numbers(alloc, items)?)),
        "SShort" => Ok(Value::SShort(numbers(alloc, items)?)),
        "SLong" => Ok(Value::SLong(numbers(alloc, items)?)),
        "SRational" => Ok(Value::SRational(signed_fractions(alloc, items)?)),
        "Float" => Ok(Value::Float(numbers(alloc, items)?)),
        "Double" => Ok(Value::Double(numbers(alloc, items)?)),
        _ => Err(CaseError::Line("no such type")),
    }
}

/// A field: its tag, and its value.
pub fn field_of(alloc: Global, words: &[Word]) -> Result<Field, CaseError> {
    let Some((name, value)) = words.split_first() else {
        return Err(CaseError::Line("no tag"));
    };
    let (tag, ifd_num) = tag_of(name.plain())?;
    let value = value_of(alloc, value)?;
    Ok(Field {
        tag,
        ifd_num,
        value,
    })
}

//! The values of datasets.

ghost use Rattle.std.specs.Prelude.{◌≡◌, map, string_bytes, IfOk};
ghost use Rattle.exif_iptc.specs.Values.{content_of, content_view, label_of, value_of, value_view};

use crate::charset::Charset;
use crate::dataset::{Dataset, value_bytes};
use crate::form::{separated_date, separated_time};
use crate::kind::Kind;
use crate::names::{kind_of, name_of};
use crate::number::{MAX_NUMBER_LEN, big_endian};
use crate::text::{decoded, text_of, without_zeros};
use std::alloc::{AllocError, Global};

/// What the value of a dataset says.
#[derive(Debug, Drop)]
pub enum Content {
    /// A text, a date or a time. A date that is `CCYYMMDD` in the data is `CCYY:MM:DD`, a time that
    /// is `HHMMSS±HHMM` is `HH:MM:SS±HH:MM`; others are as the data have them.
    Text(String),
    /// A number of up to eight bytes.
    Number(u64),
    /// Bytes of any meaning, or a longer number.
    Bytes(Vec<u8>),
}

/// A dataset with its name and value.
#[derive(Debug, Drop)]
pub struct Value {
    /// Its numbers, and where in the data its value is.
    pub dataset: Dataset,
    /// Its name, if the standard defines it: see [`name_of`].
    pub name: Option<&'static str>,
    /// What its value is by the standard: see [`kind_of`].
    pub kind: Kind,
    /// What its value says.
    pub content: Content,
}

// What a date says.
fn date_text(alloc: Global, charset: Charset, value: &[u8]) -> Result<Content, AllocError>
    ensures { IfOk result (λ c. content_view c ≡ content_of charset Kind.Date value.now) }
{
    let separated = separated_date(alloc, without_zeros(value))?;
    let text = decoded(alloc, charset, &separated)?;
    Ok(Content::Text(text))
}

// What a time says.
fn time_text(alloc: Global, charset: Charset, value: &[u8]) -> Result<Content, AllocError>
    ensures { IfOk result (λ c. content_view c ≡ content_of charset Kind.Time value.now) }
{
    let separated = separated_time(alloc, without_zeros(value))?;
    let text = decoded(alloc, charset, &separated)?;
    Ok(Content::Text(text))
}

// What bytes say that are a number by the standard.
fn number_content(alloc: Global, value: &[u8]) -> Result<Content, AllocError>
    ensures { IfOk result (λ c. content_view c ≡ content_of Charset.Utf8 Kind.Number value.now) }
{
    if MAX_NUMBER_LEN < value.len() {
        let bytes = Vec::from_slice(alloc, value)?;
        return Ok(Content::Bytes(bytes));
    }
    Ok(Content::Number(big_endian(value)))
}

/// What a value of a kind says, if its texts are in this character set.
///
/// # Errors
///
/// Out of memory.
pub fn content_of(
    alloc: Global,
    charset: Charset,
    kind: Kind,
    value: &[u8],
) -> Result<Content, AllocError>
    ensures { IfOk result (λ c. content_view c ≡ content_of charset kind value.now) }
{
    match kind {
        Kind::Text => {
            let text = text_of(alloc, charset, value)?;
            Ok(Content::Text(text))
        }
        Kind::Number => number_content(alloc, value),
        Kind::Date => date_text(alloc, charset, value),
        Kind::Time => time_text(alloc, charset, value),
        Kind::Bytes => {
            let bytes = Vec::from_slice(alloc, value)?;
            Ok(Content::Bytes(bytes))
        }
    }
}

/// A dataset of these data with its name and value.
///
/// # Errors
///
/// Out of memory.
pub fn value_of(
    alloc: Global,
    input: &[u8],
    charset: Charset,
    dataset: Dataset,
) -> Result<Value, AllocError>
    ensures { IfOk result (λ v. value_view v ≡ value_of input.now charset dataset) }
{
    let kind = kind_of(dataset.record_number, dataset.number);
    let content = content_of(alloc, charset, kind, value_bytes(input, dataset))?;
    Ok(Value {
        dataset,
        name: name_of(dataset.record_number, dataset.number),
        kind,
        content,
    })
}

/// The datasets of these data with their names and values, in order.
///
/// # Errors
///
/// Out of memory.
pub fn values_of(
    alloc: Global,
    input: &[u8],
    charset: Charset,
    datasets: &[Dataset],
) -> Result<Vec<Value>, AllocError>
    ensures { IfOk result (λ v. map value_view v.items
        ≡ map (value_of input.now charset) datasets.now) }
{
    let mut values = Vec::new(alloc);
    for i in 0..datasets.len() {
        let value = value_of(alloc, input, charset, datasets[i])?;
        values.push(value)?;
    }
    Ok(values)
}

/// The name of a dataset, or its numbers where the standard gives it none: `Keywords`, `2:234`.
///
/// # Errors
///
/// Out of memory.
pub fn label_of(alloc: Global, value: &Value) -> Result<String, AllocError>
    ensures { IfOk result (λ text. string_bytes text ≡ label_of (value_view value.now)) }
{
    match value.name {
        Some(name) => String::from_str(alloc, name),
        None => {
            let record_number = value.dataset.record_number;
            let number = value.dataset.number;
            format!(in alloc; "{record_number}:{number}")
        }
    }
}

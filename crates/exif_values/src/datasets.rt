//! The texts of datasets of IPTC data.

ghost use Rattle.std.specs.Prelude.{◌≡◌, map, IfOk};
ghost use Rattle.std.specs.Option.{option_map};
ghost use Rattle.exif_iptc.specs.Values.{value_view};
ghost use Rattle.exif_values.specs.Datasets.{dataset_text, dataset_texts, first_dataset};
ghost use Rattle.exif_xmp.specs.Properties.{bytes_view};

use exif_iptc::{Content, Value};
use std::alloc::{AllocError, Global};

// The text of a dataset, if it is this one of record 2, and its text is not empty.
fn dataset_text(value: &Value, number: u8) -> Option<&[u8]>
    ensures { option_map (λ b. b.now) result ≡ dataset_text number (value_view value.now) }
{
    if value.dataset.record_number != 2 || value.dataset.number != number {
        return None;
    }
    match &value.content {
        Content::Text(text) if !text.is_empty() => Some(text.as_bytes()),
        _ => None,
    }
}

/// The texts of the datasets of this number in record 2.
pub(crate) fn dataset_texts(
    alloc: Global,
    values: &[Value],
    number: u8,
) -> Result<Vec<Vec<u8>>, AllocError>
    ensures { IfOk result (λ v. map (λ t. t.items) v.items
        ≡ dataset_texts number (map value_view values.now)) }
{
    let mut texts = Vec::new(alloc);
    for value in values {
        if let Some(text) = dataset_text(value, number) {
            texts.push(Vec::from_slice(alloc, text)?)?;
        }
    }
    Ok(texts)
}

/// The first text of a dataset of this number in record 2.
pub(crate) fn first_dataset(
    alloc: Global,
    values: &[Value],
    number: u8,
) -> Result<Option<Vec<u8>>, AllocError>
    ensures { IfOk result (λ o. bytes_view o
        ≡ first_dataset number (map value_view values.now)) }
{
    for value in values {
        if let Some(text) = dataset_text(value, number) {
            return Ok(Some(Vec::from_slice(alloc, text)?));
        }
    }
    Ok(None)
}

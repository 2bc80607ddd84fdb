//! All values of IPTC data.

ghost use Rattle.std.specs.Prelude.{◌≡◌, map, IfOk};
ghost use Rattle.exif_iptc.specs.Readings.{read, read_lenient, reading_view};
ghost use Rattle.exif_iptc.specs.Refusals.{Answers};
ghost use Rattle.exif_iptc.specs.Values.{value_view};

use crate::charset::{Charset, charset_of};
use crate::dataset::scan;
use crate::fault::{ReadError, Refusal};
use crate::value::{Value, values_of};
use std::alloc::{AllocError, Global};

/// What lenient reading finds.
#[derive(Debug, Drop)]
pub struct Reading {
    /// The datasets before the end of the data or the refusal, in order, with names and values.
    pub values: Vec<Value>,
    /// The character set of the texts. If it is unknown, texts were read as Latin-1.
    pub charset: Charset,
    /// What is wrong with the data behind these datasets, if anything is.
    pub refusal: Option<Refusal>,
}

/// The datasets of IPTC data with their names and values, up to the end of the data or the first
/// bytes that are refused.
///
/// # Errors
///
/// Out of memory.
pub fn read_lenient(alloc: Global, input: &[u8]) -> Result<Reading, AllocError>
    ensures { IfOk result (λ r. reading_view r ≡ read_lenient input.now) }
{
    let scanned = scan(alloc, input)?;
    let charset = charset_of(input, &scanned.datasets);
    let values = values_of(alloc, input, charset, &scanned.datasets)?;
    Ok(Reading {
        values,
        charset,
        refusal: scanned.refusal,
    })
}

/// The datasets of IPTC data with their names and values, in order. Zeros may follow the last one.
///
/// Texts are in UTF-8 if dataset 1:90 says so, and else are read as Latin-1; [`charset_of`] and
/// [`read_lenient`] report which.
///
/// # Errors
///
/// The first bytes that are refused, with their offset, or out of memory. [`read_lenient`] returns
/// the datasets before a refusal.
pub fn read(alloc: Global, input: &[u8]) -> Result<Vec<Value>, ReadError>
    ensures { Answers (λ v. map value_view v.items) result (read input.now) }
{
    let reading = read_lenient(alloc, input)?;
    match reading.refusal {
        None => Ok(reading.values),
        Some(refusal) => Err(ReadError::Refused(refusal)),
    }
}

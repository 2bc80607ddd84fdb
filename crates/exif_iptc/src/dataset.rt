//! The datasets of IPTC data.

ghost use Rattle.std.specs.Prelude.{◌≡◌, ◌≤◌, ◌<◌, ◌+◌, ◌^◌, IfOk};
ghost use Rattle.exif_iptc.specs.Datasets.{datasets, placed, scan, value_bytes};
ghost use Rattle.exif_iptc.specs.Refusals.{Answers};
ghost use Rattle.exif_iptc.specs.Views.{scan_view};

use crate::fault::{ReadError, Refusal};
use crate::header::{Header, next_header};
use std::alloc::{AllocError, Global};

/// A dataset: its numbers, and where in the data its value is.
#[derive(Clone, Copy, Debug, PartialEq, Eq)]
pub struct Dataset {
    /// The number of the record.
    pub record_number: u8,
    /// The number of the dataset in its record.
    pub number: u8,
    /// The offset of the value, in bytes.
    pub start: usize,
    /// The offset of the end of the value, in bytes.
    pub end: usize,
}

/// The datasets of IPTC data, and what ended them.
#[derive(Debug, Drop)]
pub struct Scanned {
    /// The datasets before the end or the refusal, in order.
    pub datasets: Vec<Dataset>,
    /// What is wrong with the data behind these datasets, if anything is.
    pub refusal: Option<Refusal>,
}

// The dataset of a header at an offset.
fn placed(offset: usize, header: Header) -> Dataset
    requires order { header.header_len ≤ header.len }
    requires end { offset + header.len < 2 ^ 64 }
    ensures { result ≡ placed offset header }
{
    Dataset {
        record_number: header.record_number,
        number: header.number,
        start: offset + header.header_len,
        end: offset + header.len,
    }
}

/// The datasets of IPTC data in order, up to the end or the first bytes that are refused.
///
/// Zeros may follow the last dataset. No byte is skipped:
/// [`no_byte_is_skipped`](crate::laws::no_byte_is_skipped). It takes memory for the datasets only.
///
/// # Errors
///
/// Out of memory.
pub fn scan(alloc: Global, input: &[u8]) -> Result<Scanned, AllocError>
    ensures { IfOk result (λ s. scan_view s ≡ scan input.now) }
{
    let mut found = Vec::new(alloc);
    let mut offset = 0;
    for _ in 0..input.len() {
        match next_header(&input[offset..]) {
            Ok(Some(header)) => {
                found.push(placed(offset, header))?;
                offset += header.len;
            }
            Ok(None) => {
                return Ok(Scanned {
                    datasets: found,
                    refusal: None,
                });
            }
            Err(fault) => {
                return Ok(Scanned {
                    datasets: found,
                    refusal: Some(Refusal { fault, offset }),
                });
            }
        }
    }
    Ok(Scanned {
        datasets: found,
        refusal: None,
    })
}

/// The datasets of IPTC data, in order. Zeros may follow the last one.
///
/// # Errors
///
/// The first bytes that are refused, with their offset, or out of memory. [`scan`] returns the
/// datasets before a refusal.
pub fn datasets(alloc: Global, input: &[u8]) -> Result<Vec<Dataset>, ReadError>
    ensures { Answers (λ v. v.items) result (datasets input.now) }
{
    let scanned = scan(alloc, input)?;
    match scanned.refusal {
        None => Ok(scanned.datasets),
        Some(refusal) => Err(ReadError::Refused(refusal)),
    }
}

/// The value of a dataset of these data: the bytes from `start` to `end`, as far as the data have
/// them.
pub fn value_bytes(input: &[u8], dataset: Dataset) -> &[u8]
    ensures { result.now ≡ value_bytes input.now dataset }
{
    let end = dataset.end.min(input.len());
    let start = dataset.start.min(end);
    &input[start..end]
}

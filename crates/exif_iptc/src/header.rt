//! The header of a dataset.

ghost use Rattle.std.specs.Prelude.{◌≡◌, ◌≤◌, ◌<◌, ◌^◌, length, slice_index, IfOk, IfSome};
ghost use Rattle.exif_iptc.specs.Datasets.{all_zero, dataset_at, dataset_of, next_at, IsWithin};

use crate::fault::Fault;
use crate::number::big_endian;

/// How many bytes a header has whose length is not extended (IIM, section 1.5).
pub const HEADER_LEN: usize = 5;

/// How many bytes an extended length may have. The standard sets no limit; a number of eight bytes
/// is longer than any data.
pub const MAX_LENGTH_BYTES: usize = 8;

/// The header of a dataset: its numbers and its lengths, in bytes.
#[derive(Clone, Copy, Debug, PartialEq, Eq)]
pub struct Header {
    /// The number of the record.
    pub record_number: u8,
    /// The number of the dataset in its record.
    pub number: u8,
    /// The length of the header: the offset of the value in the dataset.
    pub header_len: usize,
    /// The length of the dataset, header and value.
    pub len: usize,
}

/// Whether all bytes are zero.
pub fn all_zero(input: &[u8]) -> bool
    ensures { result ≡ all_zero input.now }
{
    for i in 0..input.len() {
        if input[i] != 0 {
            return false;
        }
    }
    true
}

// The dataset at the beginning of the data, whose header and value have these lengths.
fn dataset_of(input: &[u8], header_len: usize, value_len: u64) -> Result<Header, Fault>
    requires header { 5 ≤ header_len }
    requires within { header_len ≤ length input.now }
    requires value { value_len < 2 ^ 64 }
    ensures value { result ≡ dataset_of input.now header_len value_len }
    ensures within { IfOk result (IsWithin input.now) }
{
    let left = input.len() - header_len;
    if (left as u64) < value_len {
        return Err(Fault::Cut);
    }
    Ok(Header {
        record_number: input[1],
        number: input[2],
        header_len,
        len: header_len + value_len as usize,
    })
}

/// The header of the dataset at the beginning of the data (IIM, section 1.5). Behind a length's
/// first bit is the number of bytes of an extended length.
///
/// # Errors
///
/// `NoDataset` if the data are empty or do not begin with `1c`, `TooLong` if an extended length has
/// more than [`MAX_LENGTH_BYTES`] bytes, `Cut` if the data end within the dataset.
#[tactic(auto, unfolding(crate::specs::Datasets::dataset_at))]
pub fn next_dataset(input: &[u8]) -> Result<Header, Fault>
    ensures value { result ≡ dataset_at input.now }
    ensures within { IfOk result (IsWithin input.now) }
{
    if input.is_empty() || input[0] != 0x1c {
        return Err(Fault::NoDataset);
    }
    if input.len() < HEADER_LEN {
        return Err(Fault::Cut);
    }
    if input[3] < 128 {
        let value_len = 256 * u64::from(input[3]) + u64::from(input[4]);
        return dataset_of(input, HEADER_LEN, value_len);
    }
    let count = 256 * (input[3] as usize - 128) + input[4] as usize;
    if MAX_LENGTH_BYTES < count {
        return Err(Fault::TooLong);
    }
    let header_len = HEADER_LEN + count;
    if input.len() < header_len {
        return Err(Fault::Cut);
    }
    dataset_of(
        input,
        header_len,
        big_endian(&input[HEADER_LEN..header_len]),
    )
}

/// The header of the dataset at the beginning of the data, or `None` if nothing or only zeros are
/// left.
///
/// # Errors
///
/// Those of [`next_dataset`].
pub fn next_header(input: &[u8]) -> Result<Option<Header>, Fault>
    ensures value { result ≡ next_at input.now }
    ensures within { IfOk result (λ next. IfSome next (IsWithin input.now)) }
{
    if all_zero(input) {
        return Ok(None);
    }
    match next_dataset(input) {
        Ok(header) => Ok(Some(header)),
        Err(fault) => Err(fault),
    }
}

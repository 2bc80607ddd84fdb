//! The dataset at the front of data.

ghost use Rattle.std.specs.Prelude.{◌≡◌, ◌<◌, ◌≤◌, length, slice_index, IfOk};
ghost use Rattle.exif_locations.specs.IptcDatasets.{all_zero, dataset_at, is_location};

use crate::iptc::fault::Fault;
use crate::iptc_numbers::location_numbers;

/// How many bytes the header of a dataset has.
pub const HEADER_LEN: usize = 5;

/// A dataset: its length, and whether it names a location.
#[derive(Clone, Copy, Debug)]
pub struct Dataset {
    pub len: usize,
    pub location: bool,
}

// Whether a dataset of a record and a number names a location.
fn is_location(record_number: u8, number: u8) -> bool
    ensures { result ≡ is_location record_number number }
{
    record_number == 2 && location_numbers().contains(&number)
}

/// Whether all bytes are zero.
pub fn all_zero(input: &[u8]) -> bool
    ensures { result ≡ all_zero input.now }
{
    for i in 0..input.len() {
        if input[i] != 0 {
            return false;
        }
    }
    true
}

/// The dataset at the front of data.
#[tactic(auto, unfolding(crate::specs::IptcDatasets::dataset_at))]
pub fn next_dataset(input: &[u8]) -> Result<Dataset, Fault>
    requires { 0 < length input.now }
    ensures value { result ≡ dataset_at input.now }
    ensures front { IfOk result (λ d. 5 ≤ d.len) }
    ensures within { IfOk result (λ d. d.len ≤ length input.now) }
{
    if input[0] != 0x1c {
        return Err(Fault::NoDataset);
    }
    if input.len() < HEADER_LEN {
        return Err(Fault::Cut);
    }
    if 128 <= input[3] {
        return Err(Fault::Extended);
    }
    let len = HEADER_LEN + 256 * input[3] as usize + input[4] as usize;
    if input.len() < len {
        return Err(Fault::Cut);
    }
    Ok(Dataset {
        len,
        location: is_location(input[1], input[2]),
    })
}

//! Locations erased in IPTC-IIM data.

ghost use Rattle.std.specs.Prelude.{◌≡◌, ◌<◌, ◌≤◌, ◌+◌, ◌-◌, ◌++◌, length, take, drop, replicate, IfOk, IsOk, OnErr, Ok};
ghost use Rattle.exif_locations.specs.IptcDatasets.{erased, found};

use crate::iptc::dataset::{HEADER_LEN, all_zero, next_dataset};
use crate::iptc::fault::Fault;

// Whether data have a dataset that names a location.
fn find(input: &[u8]) -> Result<bool, Fault>
    ensures { result ≡ found input.now }
{
    let mut at = 0;
    let mut found = false;
    while at < input.len() {
        if input[at] == 0 {
            if all_zero(&input[at..]) {
                return Ok(found);
            }
            return Err(Fault::NoDataset);
        }
        let next = match next_dataset(&input[at..]) {
            Ok(next) => next,
            Err(fault) => return Err(fault),
        };
        if next.location {
            found = true;
        }
        at += next.len;
    }
    Ok(found)
}

// Spaces over a stretch.
fn blank(input: &mut [u8], from: usize, to: usize)
    requires order { from ≤ to }
    requires within { to ≤ length input.old }
    ensures { input.new ≡ take from input.old ++ (replicate (to - from) 32 ++ drop to input.old) }
{
    input[from..to].fill(b' ');
}

// Erases the locations of data that are understood.
fn erase(input: &mut [u8])
    requires { IsOk (erased input.old) }
    ensures { erased input.old ≡ Ok input.new }
{
    let len = input.len();
    let mut at = 0;
    while at < len {
        if input[at] == 0 {
            return;
        }
        let Ok(next) = next_dataset(&input[at..]) else {
            return;
        };
        if next.location {
            blank(input, at + HEADER_LEN, at + next.len);
        }
        at += next.len;
    }
}

/// Whether a dataset names a location.
pub fn has_locations(input: &[u8]) -> Result<bool, Fault>
    ensures { result ≡ found input.now }
{
    find(input)
}

/// Makes spaces of the value of each dataset that names a location, and answers whether there was
/// one. It takes no memory. An error leaves the data as they were.
pub fn erase_locations(input: &mut [u8]) -> Result<bool, Fault>
    ensures answer { result ≡ found input.old }
    ensures ok { IfOk result (λ any. erased input.old ≡ Ok input.new) }
    ensures err { OnErr result (input.new ≡ input.old) }
{
    let found = find(input)?;
    erase(input);
    Ok(found)
}

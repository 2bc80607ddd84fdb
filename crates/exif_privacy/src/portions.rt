//! The portions of extended XMP packets (XMP Specification, Part 3, 1.1.3.1).

ghost use Rattle.std.specs.Prelude.{◌≡◌, ◌≤◌, ◌<◌, ◌+◌, ◌^◌, length, take, All, IfOk};
ghost use Rattle.exif_inventory.specs.Promises.{EndsIn};
ghost use Rattle.exif_inventory.specs.Resources.{number_of};
ghost use Rattle.exif_privacy.specs.Data.{data_of};
ghost use Rattle.exif_privacy.specs.Portions.{full_len, goes_on, has_portion, is_next, joined, joined_len, portion, portions_len, put_back, run_len};
ghost use Rattle.exif_privacy.specs.Promises.{AllSearched, OthersStay};

use exif_inventory::{Kind, Part};
use std::alloc::{AllocError, Global};

// How many bytes come before a portion: GUID, length of the packet, and offset in it.
const PORTION_HEADER_LEN: usize = 40;

/// The data of a part.
pub fn data_of(file: &[u8], part: Part) -> &[u8]
    requires { EndsIn (length file.now) part }
    ensures { result.now ≡ data_of part file.now }
{
    &file[part.data_offset..part.data_offset + part.data_len]
}

// Whether a part has a portion, which is not empty.
fn has_portion(part: Part) -> bool
    ensures { result ≡ has_portion part }
{
    matches!(part.kind, Kind::ExtendedXmp) && part.data_len > PORTION_HEADER_LEN
}

// The portion of a part alone.
fn portion(part: Part) -> Part
    requires { part.data_offset + part.data_len < 2 ^ 64 }
    ensures { result ≡ portion part }
{
    Part {
        kind: part.kind,
        picture: part.picture,
        offset: part.offset,
        len: part.len,
        data_offset: part.data_offset + part.data_len.min(PORTION_HEADER_LEN),
        data_len: part.data_len.saturating_sub(PORTION_HEADER_LEN),
    }
}

// The number in four bytes, the highest first.
fn number_of(bytes: &[u8], n: usize) -> usize
    requires { n + 4 ≤ length bytes.now }
    ensures value { result ≡ number_of bytes.now n }
    ensures most { result < 2 ^ 32 }
{
    16_777_216 * usize::from(bytes[n])
        + 65_536 * usize::from(bytes[n + 1])
        + 256 * usize::from(bytes[n + 2])
        + usize::from(bytes[n + 3])
}

// The GUID of a packet and its length.
fn packet_of(bytes: &[u8]) -> &[u8]
    requires { 36 ≤ length bytes.now }
    ensures { result.now ≡ take 36 bytes.now }
{
    &bytes[..36]
}

// Whether data are of the same packet as others, go on with it at this offset, and end within it.
fn is_next(first: &[u8], at: usize, bytes: &[u8]) -> bool
    requires first { 40 ≤ length first.now }
    requires long { 40 ≤ length bytes.now }
    ensures { result ≡ is_next first.now at bytes.now }
{
    packet_of(bytes) == packet_of(first)
        && number_of(bytes, 36) == at
        && bytes.len() - PORTION_HEADER_LEN <= number_of(first, 32).saturating_sub(at)
}

// Whether a part goes on so with the packet that another part of the same picture begins.
fn goes_on(file: &[u8], first: Part, at: usize, part: Part) -> bool
    requires begins { EndsIn (length file.now) first }
    requires long { 40 ≤ first.data_len }
    requires ends { EndsIn (length file.now) part }
    ensures { result ≡ goes_on file.now first at part }
{
    has_portion(part)
        && part.picture == first.picture
        && is_next(data_of(file, first), at, data_of(file, part))
}

// How many parts are the packet that one of them begins.
#[tactic(auto, unfolding(crate::specs::Portions::run_len))]
fn run_len(file: &[u8], first: Part, parts: &[Part]) -> usize
    requires begins { EndsIn (length file.now) first }
    requires long { 40 ≤ first.data_len }
    requires inside { All (EndsIn (length file.now)) parts.now }
    ensures value { result ≡ run_len file.now first 0 0 parts.now }
    ensures most { result ≤ length parts.now }
{
    let full = number_of(data_of(file, first), 32);
    let mut at = 0;
    for (n, part) in parts.iter().enumerate() {
        if at == full {
            return n;
        }
        if !goes_on(file, first, at, *part) {
            return 0;
        }
        at += part.data_len - PORTION_HEADER_LEN;
    }
    if at == full { parts.len() } else { 0 }
}

/// How many parts are the extended XMP packet that the first one begins: none, if it begins none,
/// or not a whole one.
pub fn joined_len(file: &[u8], parts: &[Part]) -> usize
    requires inside { All (EndsIn (length file.now)) parts.now }
    ensures value { result ≡ joined_len file.now parts.now }
    ensures most { result ≤ length parts.now }
    ensures searched { AllSearched (take result parts.now) }
{
    match parts {
        [first, ..] if has_portion(*first) => run_len(file, *first, parts),
        _ => 0,
    }
}

/// The packet whose portions are in these parts.
pub fn join(alloc: Global, file: &[u8], parts: &[Part]) -> Result<Vec<u8>, AllocError>
    requires { All (EndsIn (length file.now)) parts.now }
    ensures value { IfOk result (λ packet. packet.items ≡ joined parts.now file.now) }
    ensures long { IfOk result (λ packet. length packet.items
        ≡ portions_len parts.now) }
{
    let mut packet = Vec::new(alloc);
    for part in parts {
        packet.extend_from_slice(data_of(file, portion(*part)))?;
    }
    Ok(packet)
}

/// Puts a packet back into its portions.
pub fn put_back(file: &mut [u8], parts: &[Part], packet: &[u8])
    requires inside { All (EndsIn (length file.old)) parts.now }
    requires long { length packet.now ≡ portions_len parts.now }
    ensures value { file.new ≡ put_back parts.now packet.now file.old }
    ensures others { AllSearched parts.now → OthersStay parts.now file.old file.new }
{
    let mut rest = packet;
    for part in parts {
        let at = portion(*part);
        let (front, behind) = rest.split_at(at.data_len);
        file[at.data_offset..at.data_offset + at.data_len].copy_from_slice(front);
        rest = behind;
    }
}

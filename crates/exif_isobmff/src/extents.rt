//! The bytes of an item.

ghost use Rattle.std.specs.Prelude.{◌≡◌, false, []};
ghost use Rattle.std.specs.Option.{option_map};
ghost use Rattle.exif_types.specs.Refusals.{Answers, Gives, is_io};
ghost use Rattle.exif_isobmff.specs.ItemLocations.{location_view, extent_front, file_extent, idat_extent, extent_bytes, gathered, item_bytes};
ghost use Rattle.exif_isobmff.specs.Heif.{after_header};

use crate::locations::{Extent, Location};
use byteorder::{BigEndian, ByteOrder};
use exif_types::Error;
use std::alloc::Global;

/// Where extents lie.
#[derive(Clone, Copy)]
pub enum Within {
    /// In the file, from its start.
    File,
    /// In the body of `idat`.
    ItemDataBox,
}

/// The most bytes that an item may have.
pub const MAX_EXIF_SIZE: usize = 65535;

/// What an extent of this length has of the bytes from its offset on; length 0 runs to their end.
pub fn extent_front(len: u64, bytes: &[u8]) -> Result<&[u8], Error>
    ensures { Answers (λ b. b.now) result (extent_front len bytes.now) }
{
    if len == 0 {
        return Ok(bytes);
    }
    if (bytes.len() as u64) < len {
        return Err(Error::InvalidFormat("Broken HEIF file"));
    }
    Ok(&bytes[..len as usize])
}

// The bytes of an extent of the file.
#[tactic(auto, unfolding(crate::specs::ItemLocations::file_extent))]
fn file_extent(file: &[u8], base: u64, extent: Extent) -> Result<&[u8], Error>
    ensures { Answers (λ b. b.now) result (file_extent file.now base extent) }
{
    let Some(from) = base.checked_add(extent.offset) else {
        return Err(Error::InvalidFormat("Invalid offset"));
    };
    extent_front(extent.len, &file[file.len().min(from as usize)..])
}

// The bytes of an extent of the item data box.
#[tactic(auto, unfolding(crate::specs::ItemLocations::idat_extent))]
fn idat_extent(idat: &[u8], base: u64, extent: Extent) -> Result<&[u8], Error>
    ensures { Answers (λ b. b.now) result (idat_extent idat.now base extent) }
{
    let Some(from) = base.checked_add(extent.offset) else {
        return Err(Error::InvalidFormat("Invalid offset"));
    };
    let Some(end) = from.checked_add(extent.len) else {
        return Err(Error::InvalidFormat("Invalid length"));
    };
    if (idat.len() as u64) < end {
        return Err(Error::InvalidFormat("Out of ItemDataBox"));
    }
    if extent.len == 0 {
        return Ok(&idat[from as usize..]);
    }
    Ok(&idat[from as usize..end as usize])
}

fn extent_bytes(within: Within, bytes: &[u8], base: u64, extent: Extent) -> Result<&[u8], Error>
    ensures { Answers (λ b. b.now) result (extent_bytes within bytes.now base extent) }
{
    match within {
        Within::File => file_extent(bytes, base, extent),
        Within::ItemDataBox => idat_extent(bytes, base, extent),
    }
}

// The bytes of extents, one after the other.
fn gather(
    alloc: Global,
    within: Within,
    bytes: &[u8],
    base: u64,
    extents: &[Extent],
) -> Result<Vec<u8>, Error>
    ensures gives { Gives
        (λ v. v.items) result (gathered (extent_bytes within bytes.now base) [] extents.now) }
    ensures no_io { is_io result ≡ false }
{
    let mut found = Vec::new(alloc);
    for extent in extents {
        let part = extent_bytes(within, bytes, base, *extent)?;
        if part.len() > MAX_EXIF_SIZE - found.len() {
            return Err(Error::InvalidFormat("Exif data too large"));
        }
        found.extend_from_slice(part)?;
    }
    Ok(found)
}

/// The bytes at a location.
#[tactic(auto, unfolding(crate::specs::ItemLocations::item_bytes))]
pub fn item_bytes(
    alloc: Global,
    file: &[u8],
    idat: Option<&[u8]>,
    location: &Location,
) -> Result<Vec<u8>, Error>
    ensures gives { Gives (λ v. v.items) result (item_bytes file.now (option_map
        (λ b. b.now) idat.entry) (location_view location.now)) }
    ensures no_io { is_io result ≡ false }
{
    match location.method {
        0 => gather(alloc, Within::File, file, location.base, &location.extents),
        1 => {
            let Some(idat) = idat else {
                return Err(Error::InvalidFormat("No ItemDataBox"));
            };
            gather(
                alloc,
                Within::ItemDataBox,
                idat,
                location.base,
                &location.extents,
            )
        }
        2 => Err(Error::NotSupported("Construction by item offset is not supported")),
        _ => Err(Error::InvalidFormat("Invalid construction_method")),
    }
}

/// What follows a 32-bit number and as many bytes as it says.
#[tactic(auto, unfolding(crate::specs::Heif::after_header))]
pub fn after_header(alloc: Global, block: &[u8]) -> Result<Vec<u8>, Error>
    ensures gives { Gives (λ v. v.items) result (after_header block.now) }
    ensures no_io { is_io result ≡ false }
{
    if block.len() < 4 {
        return Err(Error::InvalidFormat("ExifDataBlock too small"));
    }
    let offset = BigEndian::read_u32(block) as usize;
    if block.len() - 4 < offset {
        return Err(Error::InvalidFormat("Invalid Exif header offset"));
    }
    Ok(Vec::from_slice(alloc, &block[4 + offset..])?)
}

//! The Exif item of a file.

ghost use Rattle.std.specs.Prelude.{◌≡◌, false};
ghost use Rattle.exif_types.specs.Refusals.{Gives, is_io};
ghost use Rattle.exif_grow.specs.ItemFields.{fields_view, is_open, item_fields};
ghost use Rattle.exif_isobmff.specs.ItemLocations.{location_view};

use exif_isobmff::{
    Entry, Extent, Location, after_header, entry_offset, exif_entry, find_exif, item_bytes,
    item_ranges, meta_of,
};
use exif_types::Error;
use std::alloc::Global;

/// The Exif item of a file, as an edit needs it that moves the item.
#[derive(Drop)]
pub struct ExifFields {
    /// The bytes of the item before the Exif data: their offset, and what it skips.
    pub header: Vec<u8>,
    /// The ranges of the file that hold the item, in order.
    pub ranges: Vec<Extent>,
    /// The offset of its entry in the file.
    pub offset: u64,
    /// Its entry in `iloc`.
    pub entry: Entry,
}

// Whether an extent of an item has no length, and so runs to the end of the file.
fn is_open(location: &Location) -> bool
    ensures { result ≡ is_open (location_view location.now) }
{
    location.extents.iter().any(|extent| extent.len == 0)
}

/// The Exif item of a file in memory: its header, its ranges, and its entry in `iloc`. Refusals are
/// those of `exif_isobmff::exif_of_file`, and `NotSupported` where an extent has no length. It
/// takes the memory of the item twice.
#[tactic(auto, unfolding(crate::specs::ItemFields::item_fields))]
pub fn item_fields(alloc: Global, file: &[u8]) -> Result<ExifFields, Error>
    ensures gives { Gives fields_view result (item_fields file.now) }
    ensures no_io { is_io result ≡ false }
{
    let meta = meta_of(file)?;
    let item = find_exif(alloc, meta.body)?;
    let block = item_bytes(alloc, file, item.idat, &item.location)?;
    let data = after_header(alloc, &block)?;
    let entry = exif_entry(alloc, meta.body)?;
    if is_open(&item.location) {
        return Err(Error::NotSupported("Exif item without a length"));
    }
    let header = block.len().saturating_sub(data.len());
    let end = file.len().saturating_sub(meta.behind.len()) as u64;
    Ok(ExifFields {
        header: Vec::from_slice(alloc, &block[..header])?,
        ranges: item_ranges(alloc, file.len() as u64, end, meta.body, &item)?,
        offset: entry_offset(end, meta.body, entry),
        entry,
    })
}

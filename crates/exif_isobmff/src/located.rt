//! The Exif data of a HEIF file, and where in the file they are.

ghost use Rattle.std.specs.Prelude.{◌≡◌, false};
ghost use Rattle.exif_types.specs.Refusals.{Gives, is_io};
ghost use Rattle.exif_isobmff.specs.Extents.{located_exif, located_in};
ghost use Rattle.exif_isobmff.specs.LocatedView.{located_view};

use crate::exif::find_exif;
use crate::extents::{after_header, item_bytes};
use crate::file::meta_of;
use crate::locations::Extent;
use crate::ranges::{item_ranges, without_first};
use exif_types::Error;
use std::alloc::Global;

/// Exif data, and where in the file they are.
#[derive(Drop)]
pub struct LocatedExif {
    /// The data.
    pub bytes: Vec<u8>,
    /// The ranges of the file that hold them, in order.
    pub ranges: Vec<Extent>,
}

/// The Exif data of an item, whose first bytes are a header, and where they are of its ranges.
#[tactic(auto, unfolding(crate::specs::Extents::located_in))]
pub fn located_in(alloc: Global, ranges: &[Extent], block: &[u8]) -> Result<LocatedExif, Error>
    ensures gives { Gives located_view result (located_in ranges.now block.now) }
    ensures no_io { is_io result ≡ false }
{
    let bytes = after_header(alloc, block)?;
    let header = block.len().saturating_sub(bytes.len()) as u64;
    let ranges = without_first(alloc, header, ranges)?;
    Ok(LocatedExif { bytes, ranges })
}

/// The Exif data of a file in memory and the ranges that hold them. Refusals are those of
/// [`exif_of_file`](crate::exif_of_file). It takes the memory of the item and of its ranges.
#[tactic(auto, unfolding(crate::specs::Extents::located_exif))]
pub fn locate(alloc: Global, file: &[u8]) -> Result<LocatedExif, Error>
    ensures gives { Gives located_view result (located_exif file.now) }
    ensures no_io { is_io result ≡ false }
{
    let meta = meta_of(file)?;
    let item = find_exif(alloc, meta.body)?;
    let block = item_bytes(alloc, file, item.idat, &item.location)?;
    let end = file.len().saturating_sub(meta.behind.len()) as u64;
    let ranges = item_ranges(alloc, file.len() as u64, end, meta.body, &item)?;
    located_in(alloc, &ranges, &block)
}

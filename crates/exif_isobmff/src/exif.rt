//! The Exif data of a HEIF file.

ghost use Rattle.std.specs.Prelude.{◌≡◌, false};
ghost use Rattle.exif_types.specs.Refusals.{Gives, is_io};
ghost use Rattle.exif_isobmff.specs.Heif.{exif_block, exif_of, exif_item};
ghost use Rattle.exif_isobmff.specs.ItemView.{item_view};

use crate::BoxSplitter;
use crate::extents::{after_header, item_bytes};
use crate::file::meta_of;
use crate::locations::{Location, item_location};
use crate::tables::{Tables, meta_tables};
use exif_types::Error;
use std::alloc::Global;

/// The item that holds the Exif data: where its bytes are, and the body of the `idat` beside it.
#[derive(Drop)]
pub struct ExifItem<'a> {
    /// Where its bytes are.
    pub location: Location,
    /// The data beside the items.
    pub idat: Option<&'a [u8]>,
}

/// The Exif item of the body of a `meta`.
#[tactic(auto, unfolding(crate::specs::Heif::exif_item))]
pub fn find_exif(alloc: Global, meta: &[u8]) -> Result<ExifItem, Error>
    ensures gives { Gives item_view result (exif_item meta.now) }
    ensures no_io { is_io result ≡ false }
{
    let Tables { item, iloc, idat } = meta_tables(BoxSplitter::new(meta))?;
    let Some(item) = item else {
        return Err(Error::NotFound("HEIF"));
    };
    let Some(iloc) = iloc else {
        return Err(Error::InvalidFormat("No ItemLocationBox"));
    };
    let Some(location) = item_location(alloc, iloc, item)? else {
        return Err(Error::InvalidFormat("No matching item in ItemLocationBox"));
    };
    Ok(ExifItem { location, idat })
}

// The bytes of the Exif item.
#[tactic(auto, unfolding(crate::specs::Heif::exif_block))]
fn exif_block(alloc: Global, file: &[u8], meta: &[u8]) -> Result<Vec<u8>, Error>
    ensures gives { Gives (λ v. v.items) result (exif_block file.now meta.now) }
    ensures no_io { is_io result ≡ false }
{
    let ExifItem { location, idat } = find_exif(alloc, meta)?;
    item_bytes(alloc, file, idat, &location)
}

/// The Exif data of a file in memory. Refusals come in the order of the boxes, and then of the
/// steps from the item to its bytes.
#[tactic(auto, unfolding(crate::specs::Heif::exif_of))]
pub fn exif_of_file(alloc: Global, file: &[u8]) -> Result<Vec<u8>, Error>
    ensures gives { Gives (λ v. v.items) result (exif_of file.now) }
    ensures no_io { is_io result ≡ false }
{
    let meta = meta_of(file)?;
    let block = exif_block(alloc, file, meta.body)?;
    after_header(alloc, &block)
}

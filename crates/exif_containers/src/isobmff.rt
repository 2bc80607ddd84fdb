//! The Exif data of a HEIF file (ISO/IEC 14496-12:2015, 4.2; ISO/IEC 23008-12:2017, A.2.1).

ghost use Rattle.std.specs.Prelude.{◌≡◌, ◌++◌, ℕ, List, [], None, IfErr, IfSome, false};
ghost use Rattle.exif_base.specs.Reads.{Counts};
ghost use Rattle.exif_types.specs.Refusals.{Gives, is_io};
ghost use Rattle.std.specs.Option.{option_map};
ghost use Rattle.exif_isobmff.specs.Extents.{located_exif};
ghost use Rattle.exif_isobmff.specs.Heif.{exif_of};
ghost use Rattle.exif_isobmff.specs.LocatedView.{located_view};
ghost use Rattle.exif_isobmff.specs.ItemLocations.{location_view};
ghost use Rattle.exif_isobmff.specs.HeifRefusals.{heif_refusals};
ghost use Rattle.exif_segments.specs.Answer.{IsNamed};
ghost use Rattle.exif_containers.specs.GoingBack.{BeginsAt, HasRead, IsAhead};
ghost use Rattle.exif_containers.specs.HeifSteps.{payload_at};

mod at;
mod extents;
mod front;
mod meta;

use self::extents::{bytes_at, bytes_in_file};
use self::front::{read_boxes, read_whole};
use self::meta::find_meta;
use exif_base::Source;
pub use exif_isobmff::is_heif;
use exif_isobmff::{
    ExifItem, LocatedExif, Location, after_header, exif_of_file, find_exif, item_bytes,
    settled_meta,
};
use exif_segments::util::read_rest;
use exif_types::Error;
use std::alloc::Global;

// How many bytes of boxes before `meta` are kept where the source reads at an offset.
const MAX_KEPT: u64 = 4096;

// The Exif data of a file whose front does not settle them.
fn exif_of_whole<R: Source>(alloc: Global, source: &mut R, front: Vec<u8>) -> Result<Vec<u8>, Error>
    ensures gives { IfSome (R.left source.old)
        (λ rest. Gives (λ v. v.items) result (exif_of (front.items ++ rest))) }
    ensures named { IfErr result (IsNamed heif_refusals) }
    ensures counts { Counts R.Source source.old source.new (is_io result) }
{
    let mut file = front;
    read_rest(source, &mut file)?;
    let payload = exif_of_file(alloc, &file)?;
    Ok(payload)
}

// The Exif data at a location beside the items, or why there are none.
fn exif_beside(alloc: Global, idat: Option<&[u8]>, location: &Location) -> Result<Vec<u8>, Error>
    ensures gives { Gives (λ v. v.items) result (payload_at [] (option_map
        (λ b. b.now) idat.entry) (location_view location.now)) }
    ensures named { IfErr result (IsNamed heif_refusals) }
    ensures no_io { is_io result ≡ false }
{
    let block = item_bytes(alloc, &[], idat, location)?;
    let payload = after_header(alloc, &block)?;
    Ok(payload)
}

// The Exif data at a location in the file.
fn exif_in_file<R: Source>(
    alloc: Global,
    source: &mut R,
    front: Vec<u8>,
    location: &Location,
) -> Result<Vec<u8>, Error>
    requires { location.now.method ≡ 0 }
    ensures gives { IfSome (R.left source.old) (λ rest. Gives (λ v. v.items) result
        (payload_at (front.items ++ rest) None (location_view location.now))) }
    ensures named { IfErr result (IsNamed heif_refusals) }
    ensures counts { Counts R.Source source.old source.new (is_io result) }
{
    let block = bytes_in_file(alloc, source, front, location)?;
    let payload = after_header(alloc, &block)?;
    Ok(payload)
}

// The Exif data of a file whose front was read, up to the end of `meta`.
fn exif_behind<R: Source>(alloc: Global, source: &mut R, front: Vec<u8>) -> Result<Vec<u8>, Error>
    ensures gives { IfSome (R.left source.old)
        (λ rest. Gives (λ v. v.items) result (exif_of (front.items ++ rest))) }
    ensures named { IfErr result (IsNamed heif_refusals) }
    ensures counts { Counts R.Source source.old source.new (is_io result) }
{
    let Some(meta) = settled_meta(&front) else {
        return exif_of_whole(alloc, source, front);
    };
    let ExifItem { location, idat } = find_exif(alloc, meta.body)?;
    if location.method != 0 {
        return exif_beside(alloc, idat, &location);
    }
    exif_in_file(alloc, source, front, &location)
}

// The Exif data of a file of which the boxes before `meta` are kept. The next `len` bytes are the
// rest of a box.
fn exif_resumed<R: Source>(
    alloc: Global,
    source: &mut R,
    front: Vec<u8>,
    len: u64,
) -> Result<Vec<u8>, Error>
    ensures gives { IfSome (R.left source.old)
        (λ rest. Gives (λ v. v.items) result (exif_of (front.items ++ rest))) }
    ensures named { IfErr result (IsNamed heif_refusals) }
    ensures counts { Counts R.Source source.old source.new (is_io result) }
{
    let mut boxes = front;
    let _whole = read_whole(source, &mut boxes, len)?;
    let _next = read_boxes(source, &mut boxes, u64::MAX)?;
    exif_behind(alloc, source, boxes)
}

// The Exif data of a file that begins at `origin` of the stream and was read up to the body of a
// box before `meta`, of this length. `meta` and the item are read at their offsets.
fn exif_skipping<R: Source>(
    alloc: Global,
    source: &mut R,
    origin: u64,
    front: Vec<u8>,
    len: u64,
) -> Result<Vec<u8>, Error>
    ensures gives { (file : List ℕ)
        → HasRead origin front.items file (R.stream source.old) (R.left source.old)
        → Gives (λ v. v.items) result (exif_of file) }
    ensures named { IfErr result (IsNamed heif_refusals) }
    ensures counts { Counts R.Source source.old source.new (is_io result) }
{
    let Some(meta) = find_meta(alloc, source, origin)? else {
        return exif_resumed(alloc, source, front, len);
    };
    let ExifItem { location, idat } = find_exif(alloc, &meta)?;
    if location.method != 0 {
        return exif_beside(alloc, idat, &location);
    }
    let Some(block) = bytes_at(alloc, source, origin, &location)? else {
        return exif_resumed(alloc, source, front, len);
    };
    let payload = after_header(alloc, &block)?;
    Ok(payload)
}

// The Exif data of a file that begins at `origin` of the stream.
fn exif_ahead<R: Source>(alloc: Global, source: &mut R, origin: u64) -> Result<Vec<u8>, Error>
    ensures gives { (file : List ℕ)
        → IsAhead origin file (R.stream source.old) (R.left source.old)
        → Gives (λ v. v.items) result (exif_of file) }
    ensures named { IfErr result (IsNamed heif_refusals) }
    ensures counts { Counts R.Source source.old source.new (is_io result) }
{
    let mut front = Vec::new(alloc);
    let Some(len) = read_boxes(source, &mut front, MAX_KEPT)? else {
        return exif_behind(alloc, source, front);
    };
    exif_skipping(alloc, source, origin, front, len)
}

/// The Exif data of a file, as [`get_exif_attr`] has it, whose first byte is at this offset of the
/// stream. With none, the file is read in order.
pub fn exif_from<R: Source>(
    alloc: Global,
    source: &mut R,
    origin: Option<u64>,
) -> Result<Vec<u8>, Error>
    ensures gives { IfSome (R.left source.old) (λ file.
        BeginsAt origin (R.stream source.old) (R.left source.old)
        → Gives (λ v. v.items) result (exif_of file)) }
    ensures named { IfErr result (IsNamed heif_refusals) }
    ensures counts { Counts R.Source source.old source.new (is_io result) }
{
    match origin {
        Some(origin) => exif_ahead(alloc, source, origin),
        None => exif_resumed(alloc, source, Vec::new(alloc), 0),
    }
}

/// The Exif data of a file, which is read up to the end of its `meta` and then as far as its Exif
/// item needs. An error of the source that comes after that is not encountered.
///
/// The memory: where the source reads at an offset (`Source::offset`, `Source::fetch_at`), `meta`
/// and the item, and before them at most 4096 bytes of boxes, or `ftyp` for a moment. Where it does
/// not, all bytes up to the end of `meta`, and then the item. In both cases what is between `meta`
/// and the item is skipped, and the whole file is taken into memory where its front refuses, or
/// where a box of it runs to the end of the file, and for an item in more than one extent.
///
/// Offsets in the file count from where the source was. Refusals are those of `exif_of_file`.
/// After an error, how far the source was read is left open.
pub fn get_exif_attr<R: Source>(alloc: Global, source: &mut R) -> Result<Vec<u8>, Error>
    ensures gives { IfSome (R.left source.old)
        (λ file. Gives (λ v. v.items) result (exif_of file)) }
    ensures named { IfErr result (IsNamed heif_refusals) }
    ensures counts { Counts R.Source source.old source.new (is_io result) }
{
    let origin = source.offset();
    let payload = exif_from(alloc, source, origin)?;
    Ok(payload)
}

/// The Exif data of a file and the ranges that hold them. The whole file is taken into memory.
///
/// Refusals are those of `exif_of_file`. After an error, how far the source was read is left open.
pub fn locate<R: Source>(alloc: Global, source: &mut R) -> Result<LocatedExif, Error>
    ensures gives { IfSome (R.left source.old)
        (λ file. Gives located_view result (located_exif file)) }
    ensures named { IfErr result (IsNamed heif_refusals) }
    ensures counts { Counts R.Source source.old source.new (is_io result) }
{
    let mut file = Vec::new(alloc);
    read_rest(source, &mut file)?;
    let found = exif_isobmff::locate(alloc, &file)?;
    Ok(found)
}

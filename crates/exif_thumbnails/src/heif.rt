//! The thumbnail of a HEIF or AVIF file, and how it is coded (ISO/IEC 14496-12, 8.11.3, 8.11.4,
//! 8.11.6, 8.11.11, 8.11.12; ISO/IEC 23008-12, 6.4.4).

ghost use Rattle.std.specs.Prelude.{◌≡◌, take, IfOk, IfErr, IfSome};
ghost use Rattle.std.specs.Option.{option_map};
ghost use Rattle.exif_base.specs.Reads.{Counts};
ghost use Rattle.exif_types.specs.Refusals.{IsInterrupted, is_io};
ghost use Rattle.exif_types.specs.declared.error.Error.TheVariants.{OutOfMemory};
ghost use Rattle.exif_isobmff.specs.ItemLocations.{location_view};
ghost use Rattle.exif_thumbnails.specs.Heif.{beside, coding_named, coding_of, entry_in, entry_named, extent_found, heif_thumbnail, heif_view, held, item_found, jpeg_found, location_of, meta_children, number_in, thumbnail_item};

use crate::cr3::jpeg_within;
use crate::place::Place;
use crate::prefix::read_prefix;
use crate::reading::Thumbnail;
use exif_base::Source;
use exif_formats::raw::cr3::first_held;
use exif_isobmff::{BoxSplitter, Extent, Location, item_location, meta_of};
use exif_types::Error;
use std::alloc::Global;

/// How many bytes of a HEIF file are searched for its items: 1 MiB.
pub const HEIF_PREFIX_LEN: u64 = 1_048_576;

/// What is known of the thumbnail of a HEIF file from its first bytes.
#[derive(Debug, Drop)]
pub enum HeifThumbnail {
    /// Its bytes are at this place of the file.
    At(Place),
    /// The thumbnail, or why it is not shown.
    Known(Thumbnail),
}

/// How a thumbnail is coded.
#[derive(Clone, Copy, Debug)]
pub enum Coding {
    /// JPEG.
    Jpeg,
    /// HEVC.
    Hevc,
    /// AV1.
    Av1,
    /// Something else, or it is made of other items.
    Other,
}

// What the first box of a type holds behind these bytes. None too where a box up to it is broken.
fn held<'a>(bytes: &'a [u8], name: &[u8], front: &[u8]) -> Option<&'a [u8]>
    ensures { option_map (λ b. b.now) result ≡ held name.now front.now bytes.now }
{
    match first_held(bytes, name, front) {
        Ok(found) => found,
        Err(_broken) => None,
    }
}

// The boxes in the first `meta` of a file.
fn meta_children(file: &[u8]) -> Option<&[u8]>
    ensures { option_map (λ b. b.now) result ≡ meta_children file.now }
{
    let Ok(meta) = meta_of(file) else {
        return None;
    };
    if meta.body.len() < 4 {
        return None;
    }
    Some(&meta.body[4..])
}

// The number of the item that is the thumbnail of the primary item, in its two bytes.
fn thumbnail_item(children: &[u8]) -> Option<&[u8]>
    ensures { option_map (λ b. b.now) result ≡ thumbnail_item children.now }
{
    let primary = held(children, b"pitm", &[0; 4])?;
    let references = held(children, b"iref", &[0; 4])?;
    let thumbnail = held(references, b"thmb", &[])?;
    if thumbnail.len() < 6 || thumbnail[4..6] != primary[..] {
        return None;
    }
    Some(&thumbnail[..2])
}

// What an entry of the list says of the item with this number, if it is visible or hidden.
fn entry_named<'a>(entries: &'a [u8], item: &[u8]) -> Option<&'a [u8]>
    ensures { option_map (λ b. b.now) result ≡ entry_named entries.now item.now }
{
    let [high, low] = item else {
        return None;
    };
    match held(entries, b"infe", &[2, 0, 0, 0, *high, *low]) {
        Some(entry) => Some(entry),
        None => held(entries, b"infe", &[2, 0, 0, 1, *high, *low]),
    }
}

// The same of the list of the items, which has their count in front.
fn entry_in<'a>(children: &'a [u8], item: &[u8]) -> Option<&'a [u8]>
    ensures { option_map (λ b. b.now) result ≡ entry_in children.now item.now }
{
    let list = held(children, b"iinf", &[0; 4])?;
    if list.len() < 2 {
        return None;
    }
    entry_named(&list[2..], item)
}

// The coding that the type of an item names.
fn coding_named(name: &[u8]) -> Coding
    ensures { result ≡ coding_named name.now }
{
    match name {
        b"jpeg" => Coding::Jpeg,
        b"hvc1" | b"hev1" => Coding::Hevc,
        b"av01" => Coding::Av1,
        _ => Coding::Other,
    }
}

// The coding of an item, whose type is behind two bytes of its entry.
fn coding_of(entry: &[u8]) -> Option<Coding>
    ensures { result ≡ coding_of entry.now }
{
    if entry.len() < 6 {
        return None;
    }
    Some(coding_named(&entry[2..6]))
}

// The number of an item, in its two bytes.
fn number_in(item: &[u8]) -> Option<u32>
    ensures { result ≡ number_in item.now }
{
    let [high, low] = item else {
        return None;
    };
    Some(u32::from(*high) * 256 + u32::from(*low))
}

// Where the bytes of an item are, if that is known.
fn location_of(alloc: Global, children: &[u8], item: &[u8]) -> Result<Option<Location>, Error>
    ensures found { IfOk result
        (λ found. option_map location_view found ≡ location_of children.now item.now) }
    ensures memory { IfErr result (λ e. e ≡ OutOfMemory) }
{
    let Some(number) = number_in(item) else {
        return Ok(None);
    };
    let Some(iloc) = held(children, b"iloc", &[]) else {
        return Ok(None);
    };
    match item_location(alloc, BoxSplitter::new(iloc), number) {
        Ok(location) => Ok(location),
        Err(Error::OutOfMemory) => Err(Error::OutOfMemory),
        Err(_refused) => Ok(None),
    }
}

// The bytes of the `idat` beside the items, from an offset on.
fn beside(children: &[u8], offset: u64) -> &[u8]
    ensures { result.now ≡ beside children.now offset }
{
    let Some(idat) = held(children, b"idat", &[]) else {
        return &[];
    };
    if idat.len() as u64 <= offset {
        return &[];
    }
    &idat[offset as usize..]
}

// What is known of an item that is one extent.
fn extent_found(
    alloc: Global,
    children: &[u8],
    method: u8,
    base: u64,
    extent: Extent,
) -> Result<HeifThumbnail, Error>
    ensures found { IfOk result
        (λ found. heif_view found ≡ extent_found children.now method base extent) }
    ensures memory { IfErr result (λ e. e ≡ OutOfMemory) }
{
    if extent.len == 0 || method > 1 {
        return Ok(HeifThumbnail::Known(Thumbnail::Item(Coding::Jpeg)));
    }
    let offset = base.saturating_add(extent.offset);
    if method == 0 {
        return Ok(HeifThumbnail::At(Place {
            offset,
            len: extent.len,
        }));
    }
    let held = jpeg_within(alloc, extent.len, beside(children, offset))?;
    Ok(HeifThumbnail::Known(held))
}

// What is known of an item of the type `jpeg`.
fn jpeg_found(alloc: Global, children: &[u8], item: &[u8]) -> Result<HeifThumbnail, Error>
    ensures found { IfOk result
        (λ found. heif_view found ≡ jpeg_found children.now item.now) }
    ensures memory { IfErr result (λ e. e ≡ OutOfMemory) }
{
    let Some(location) = location_of(alloc, children, item)? else {
        return Ok(HeifThumbnail::Known(Thumbnail::Item(Coding::Jpeg)));
    };
    match location.extents.as_slice() {
        [extent] => extent_found(alloc, children, location.method, location.base, *extent),
        _ => Ok(HeifThumbnail::Known(Thumbnail::Item(Coding::Jpeg))),
    }
}

// The thumbnail that an entry says of the item with this number.
fn item_found(
    alloc: Global,
    children: &[u8],
    item: &[u8],
    entry: &[u8],
) -> Result<Option<HeifThumbnail>, Error>
    ensures found { IfOk result
        (λ found. option_map heif_view found ≡ item_found children.now item.now entry.now) }
    ensures memory { IfErr result (λ e. e ≡ OutOfMemory) }
{
    match coding_of(entry) {
        Some(Coding::Jpeg) => Ok(Some(jpeg_found(alloc, children, item)?)),
        Some(coding) => Ok(Some(HeifThumbnail::Known(Thumbnail::Item(coding)))),
        None => Ok(None),
    }
}

/// What is known of the thumbnail of a file from these first bytes of it, if it has one.
///
/// It is the item from which the first reference of the type `thmb` is to the primary item. One of
/// the type `jpeg` is read where `iloc` says that it is one extent of a known length: in the file,
/// or in the first `idat` of `meta`. Any other is answered with its coding. An error is out of memory.
pub fn heif_thumbnail(alloc: Global, file: &[u8]) -> Result<Option<HeifThumbnail>, Error>
    ensures found { IfOk result
        (λ found. option_map heif_view found ≡ heif_thumbnail file.now) }
    ensures memory { IfErr result (λ e. e ≡ OutOfMemory) }
{
    let Some(children) = meta_children(file) else {
        return Ok(None);
    };
    let Some(item) = thumbnail_item(children) else {
        return Ok(None);
    };
    let Some(entry) = entry_in(children, item) else {
        return Ok(None);
    };
    item_found(alloc, children, item, entry)
}

/// The same of a file that is read: of its first [`HEIF_PREFIX_LEN`] bytes. An error is one of the
/// device, or out of memory.
pub fn read_heif_thumbnail<R: Source>(
    alloc: Global,
    source: &mut R,
) -> Result<Option<HeifThumbnail>, Error>
    ensures reads { IfOk result (λ found. IfSome (R.left source.old)
        (λ bytes. option_map heif_view found ≡ heif_thumbnail (take HEIF_PREFIX_LEN bytes))) }
    ensures interrupted { IfErr result IsInterrupted }
    ensures counts { Counts R.Source source.old source.new (is_io result) }
{
    let prefix = read_prefix(alloc, source, HEIF_PREFIX_LEN)?;
    let found = heif_thumbnail(alloc, &prefix)?;
    Ok(found)
}

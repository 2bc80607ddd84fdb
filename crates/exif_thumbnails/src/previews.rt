//! Where the directories of TIFF data say that previews are: pictures as JPEG data (TIFF 6.0,
//! sections 8 and 22; TIFF Technical Note 2; TIFF/EP; DNG 1.6, "Preview Images").

ghost use Rattle.std.specs.Prelude.{◌≡◌, ◌≤◌, ◌<◌, ◌+◌, ◌^◌, length, IfOk, IfSome};
ghost use Rattle.std.specs.List.{filter_map};
ghost use Rattle.std.specs.List.Sorted.{IsNonDecreasingBy, IsPermutation};
ghost use Rattle.exif_base.specs.Orders.{number_of};
ghost use Rattle.exif_edit_base.specs.GpsOffsets.{all_directories};
ghost use Rattle.exif_tiff.specs.Trace.{entry_value};
ghost use Rattle.exif_thumbnails.specs.Previews.{entry_named, is_jpeg_picture, number_named, only_number, place_named, preview_in, previews_in};

use crate::place::Place;
use exif_base::{BigEndian, LittleEndian, Order};
use exif_edit_base::offsets::{all_directories, whole_entries};
use exif_edit_base::read::{number16, order_named};
use exif_tiff::directory;
use exif_types::{Exif, Value};
use std::alloc::{AllocError, Global};

// TIFF 6.0, sections 8 and 22, and the tables of TIFF Technical Note 2.
const COMPRESSION: u16 = 0x103;

const PHOTOMETRIC: u16 = 0x106;

const STRIP_OFFSETS: u16 = 0x111;

const STRIP_BYTE_COUNTS: u16 = 0x117;

const JPEG_TABLES: u16 = 0x15b;

const JPEG_OFFSET: u16 = 0x201;

const JPEG_LEN: u16 = 0x202;

// The offset of the first entry of a directory that has a tag.
fn entry_named(order: Order, bytes: &[u8], directory: u32, tag: u16) -> Option<usize>
    ensures found { result ≡ entry_named (number_of order) bytes.now directory tag }
    ensures whole { IfSome result (λ at. at + 12 ≤ length bytes.now) }
{
    let mut at = directory as usize + 2;
    for _ in 0..whole_entries(order, bytes, directory) {
        if number16(order, bytes, at) == tag {
            return Some(at);
        }
        at += 12;
    }
    None
}

// The value of the entry at an offset, if it lies in the data.
fn entry_value(
    alloc: Global,
    order: Order,
    bytes: &[u8],
    at: usize,
) -> Result<Option<Value>, AllocError>
    requires small { length bytes.now < 2 ^ 32 }
    requires whole { at + 12 ≤ length bytes.now }
    ensures { IfOk result (λ found. found ≡ entry_value (number_of order) bytes.now at) }
{
    match order {
        Order::Big => directory::entry_value::<BigEndian>(alloc, bytes, at),
        Order::Little => directory::entry_value::<LittleEndian>(alloc, bytes, at),
    }
}

// The number of a value that has no other.
fn only_number(value: &Value) -> Option<u32>
    ensures { result ≡ only_number value.now }
{
    match value.get_uint(1) {
        Some(_second) => None,
        None => value.get_uint(0),
    }
}

// The one number that a directory has for a tag.
fn number_named(
    alloc: Global,
    order: Order,
    bytes: &[u8],
    directory: u32,
    tag: u16,
) -> Result<Option<u32>, AllocError>
    requires { length bytes.now < 2 ^ 32 }
    ensures { IfOk result
        (λ found. found ≡ number_named (number_of order) bytes.now directory tag) }
{
    let Some(at) = entry_named(order, bytes, directory, tag) else {
        return Ok(None);
    };
    match entry_value(alloc, order, bytes, at)? {
        Some(value) => Ok(only_number(&value)),
        None => Ok(None),
    }
}

// The place whose offset and length a directory has for two tags.
fn place_named(
    alloc: Global,
    order: Order,
    bytes: &[u8],
    directory: u32,
    offset_tag: u16,
    len_tag: u16,
) -> Result<Option<Place>, AllocError>
    requires { length bytes.now < 2 ^ 32 }
    ensures { IfOk result (λ found.
        found ≡ place_named (number_of order) bytes.now directory offset_tag len_tag) }
{
    let Some(offset) = number_named(alloc, order, bytes, directory, offset_tag)? else {
        return Ok(None);
    };
    let Some(len) = number_named(alloc, order, bytes, directory, len_tag)? else {
        return Ok(None);
    };
    Ok(Some(Place {
        offset: u64::from(offset),
        len: u64::from(len),
    }))
}

// Whether the strip of a directory is JPEG data that need no tables, of colours and not raw.
fn is_jpeg_picture(
    alloc: Global,
    order: Order,
    bytes: &[u8],
    directory: u32,
) -> Result<bool, AllocError>
    requires { length bytes.now < 2 ^ 32 }
    ensures { IfOk result
        (λ is_one. is_one ≡ is_jpeg_picture (number_of order) bytes.now directory) }
{
    let compression = number_named(alloc, order, bytes, directory, COMPRESSION)?;
    let photometric = number_named(alloc, order, bytes, directory, PHOTOMETRIC)?;
    Ok(
        matches!(compression, Some(6 | 7))
            && matches!(photometric, Some(2 | 6))
            && entry_named(order, bytes, directory, JPEG_TABLES).is_none(),
    )
}

// The preview that a directory has.
fn preview_in(
    alloc: Global,
    order: Order,
    bytes: &[u8],
    directory: u32,
) -> Result<Option<Place>, AllocError>
    requires { length bytes.now < 2 ^ 32 }
    ensures { IfOk result (λ found. found ≡ preview_in (number_of order) bytes.now directory) }
{
    if let Some(place) = place_named(alloc, order, bytes, directory, JPEG_OFFSET, JPEG_LEN)? {
        return Ok(Some(place));
    }
    if !is_jpeg_picture(alloc, order, bytes, directory)? {
        return Ok(None);
    }
    place_named(
        alloc,
        order,
        bytes,
        directory,
        STRIP_OFFSETS,
        STRIP_BYTE_COUNTS,
    )
}

// The previews of directories, in their order.
fn previews_of(
    alloc: Global,
    order: Order,
    bytes: &[u8],
    directories: &[u32],
) -> Result<Vec<Place>, AllocError>
    requires { length bytes.now < 2 ^ 32 }
    ensures { IfOk result (λ places. places.items
        ≡ filter_map (preview_in (number_of order) bytes.now) directories.now) }
{
    let mut places = Vec::new(alloc);
    for directory in directories {
        if let Some(place) = preview_in(alloc, order, bytes, *directory)? {
            places.push(place)?;
        }
    }
    Ok(places)
}

// The previews of all directories of data, in their order.
fn previews_in(alloc: Global, bytes: &[u8], little_endian: bool) -> Result<Vec<Place>, AllocError>
    ensures { IfOk result (λ places. places.items ≡ previews_in bytes.now little_endian) }
{
    if bytes.len() < 8 || bytes.len() > u32::MAX as usize {
        return Ok(Vec::new(alloc));
    }
    let order = order_named(little_endian);
    let directories = all_directories(alloc, order, bytes)?;
    previews_of(alloc, order, bytes, &directories)
}

/// Where the directories of TIFF data say that previews are, the shortest first: those of the
/// chain, and those to which they point, SubIFDs too. Looked at are the data that are held, which
/// may be the first 256 KB of a file.
///
/// A directory has a preview where tags 0x201 and 0x202 name JPEG data, or where it describes a
/// picture of one strip that is coded as JPEG (compression 6 or 7), in RGB or YCbCr, without tables
/// elsewhere: so no raw data. That JPEG data are there is not asked.
///
/// It takes memory for the offsets of the directories, for the places, and for half of them again
/// while they are sorted.
pub fn preview_places(alloc: Global, exif: &Exif) -> Result<Vec<Place>, AllocError>
    ensures all { IfOk result (λ places.
        IsPermutation (previews_in exif.now.buf exif.now.little_endian) places.items) }
    ensures sorted { IfOk result (λ places. IsNonDecreasingBy (λ place. place.len) places.items) }
{
    let mut places = previews_in(alloc, exif.buf(), exif.little_endian())?;
    places.sort_by_key(|place| place.len)?;
    Ok(places)
}

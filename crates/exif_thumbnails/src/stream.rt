//! JPEG streams that are previews.

ghost use Rattle.std.specs.Prelude.{◌≡◌, IfOk};
ghost use Rattle.std.specs.Option.{option_map};
ghost use Rattle.exif_thumbnails.specs.Streams.{IsWhole, begins_stream, ends_search, jpg_from_raw, stream_in};

use crate::place::MAX_THUMBNAIL_LEN;
use crate::reading::Thumbnail;
use exif_types::{Context, Exif, In, Tag, Value};
use std::alloc::{AllocError, Global};

// Of the first directory of an RW2 file: a JPEG stream, which has Exif data of its own.
const JPG_FROM_RAW: Tag = Tag(Context::Tiff, 0x2e);

// Whether bytes begin as a JPEG stream does (ITU-T T.81, B.1.1.2, B.2.1): SOI, and a marker.
fn begins_stream(bytes: &[u8]) -> bool
    ensures { result ≡ begins_stream bytes.now }
{
    bytes.starts_with(&[0xff, 0xd8, 0xff])
}

// The JPEG stream that a value is.
fn stream_in(value: &Value) -> Option<&[u8]>
    ensures { option_map (λ bytes. bytes.now) result ≡ stream_in value.now }
{
    let Value::Undefined(bytes, _offset) = value else {
        return None;
    };
    if begins_stream(bytes.as_slice()) {
        Some(bytes.as_slice())
    } else {
        None
    }
}

/// The JPEG stream of a raw file of Panasonic (RW2): the value of tag 0x2e of the first directory,
/// where it begins as one. There is no public standard of RW2.
pub fn jpg_from_raw(exif: &Exif) -> Option<&[u8]>
    ensures { option_map (λ bytes. bytes.now) result ≡ jpg_from_raw exif.now.fields }
{
    let field = exif.get_field(JPG_FROM_RAW, In::PRIMARY)?;
    stream_in(&field.value)
}

/// A JPEG stream as a thumbnail: a copy, unless it has more than [`MAX_THUMBNAIL_LEN`] bytes.
pub fn whole_stream(alloc: Global, stream: &[u8]) -> Result<Thumbnail, AllocError>
    ensures { IfOk result (IsWhole stream.now) }
{
    if stream.len() > MAX_THUMBNAIL_LEN as usize {
        return Ok(Thumbnail::TooLong);
    }
    Ok(Thumbnail::Jpeg(Vec::from_slice(alloc, stream)?))
}

/// Whether what is at the place of a preview is the answer of a picture whose previews are looked at
/// from the shortest on: data that begin as a JPEG stream, or that are too long, as all behind are
/// then.
pub fn ends_search(found: &Thumbnail) -> bool
    ensures { result ≡ ends_search found.now }
{
    match found {
        Thumbnail::Jpeg(jpeg) => begins_stream(jpeg.as_slice()),
        Thumbnail::TooLong => true,
        Thumbnail::CutOff | Thumbnail::Item(_) => false,
    }
}

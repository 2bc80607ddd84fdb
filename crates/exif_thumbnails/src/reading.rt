//! Thumbnails that are read from a file.

ghost use Rattle.std.specs.Prelude.{◌≡◌, ◌≤◌, IfOk, IfErr, IfSome};
ghost use Rattle.exif_base.specs.Reads.{Counts};
ghost use Rattle.exif_types.specs.Refusals.{IsInterrupted, is_io};
ghost use Rattle.exif_thumbnails.specs.Places.{IsReadAt};

use crate::heif::Coding;
use crate::place::{MAX_THUMBNAIL_LEN, Place};
use exif_base::Source;
use exif_segments::util::{pass_over, read_at_most};
use exif_types::Error;
use std::alloc::Global;

/// A thumbnail, or why it is not shown.
#[derive(Debug, Drop)]
pub enum Thumbnail {
    /// Bytes that are to be JPEG data.
    Jpeg(Vec<u8>),
    /// It has more bytes than [`MAX_THUMBNAIL_LEN`].
    TooLong,
    /// The file ends before it does.
    CutOff,
    /// It is an item of a HEIF file, which is coded so, or whose bytes are in more than one part.
    Item(Coding),
}

/// Reads the thumbnail at a place of the bytes that are left: exactly those, and none where there
/// are more than [`MAX_THUMBNAIL_LEN`]. What is before them is skipped.
///
/// An error is one of the device, or out of memory. How far the source was read is left open.
pub fn read_place<R: Source>(
    alloc: Global,
    source: &mut R,
    place: Place,
) -> Result<Thumbnail, Error>
    ensures reads { IfOk result
        (λ found. IfSome (R.left source.old) (λ bytes. IsReadAt place bytes found)) }
    ensures interrupted { IfErr result IsInterrupted }
    ensures counts { Counts R.Source source.old source.new (is_io result) }
{
    if place.len > u64::from(MAX_THUMBNAIL_LEN) {
        return Ok(Thumbnail::TooLong);
    }
    if !pass_over(source, place.offset)? {
        return Ok(Thumbnail::CutOff);
    }
    let mut jpeg = Vec::new(alloc);
    let n = read_at_most(source, &mut jpeg, place.len)?;
    if n < place.len {
        return Ok(Thumbnail::CutOff);
    }
    Ok(Thumbnail::Jpeg(jpeg))
}

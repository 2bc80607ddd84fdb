//! When a picture was taken.

ghost use Rattle.std.specs.Prelude.{◌≡◌, option_map};
ghost use Rattle.exif_geotag.specs.Located.{text_or, time_in};

use crate::time::exif_time_of;
use exif_summary::find_text;
use exif_types::{Exif, Tag};

// A text, or another where there is none.
fn text_or<'a>(text: Option<&'a [u8]>, other: &'a [u8]) -> &'a [u8]
    ensures { result.now ≡ text_or (option_map (λ t. t.now) text.entry) other.entry.now }
{
    match text {
        Some(text) => text,
        None => other,
    }
}

/// When a picture was taken, in milliseconds of UTC as [`crate::time_of`] has them: by
/// DateTimeOriginal, SubSecTimeOriginal and OffsetTimeOriginal, with `zone` as `+hh:mm` where the
/// offset is not known, and UTC where `zone` is empty. `None` where the date or the offset can't be
/// read.
pub fn time_of_picture(exif: &Exif, zone: &[u8]) -> Option<u64>
    ensures { result ≡ time_in exif.now.fields zone.now }
{
    let date = find_text(exif, Tag::DateTimeOriginal)?;
    let subsec = text_or(find_text(exif, Tag::SubSecTimeOriginal), b"");
    let offset = text_or(find_text(exif, Tag::OffsetTimeOriginal), zone);
    exif_time_of(date, subsec, offset)
}

//! Where the Exif data say that a thumbnail is.

ghost use Rattle.std.specs.Prelude.{◌≡◌};
ghost use Rattle.std.specs.Option.{option_map};
ghost use Rattle.exif_thumbnails.specs.Places.{held_at, number_named, place_in, thumbnail_in};

use exif_types::{Exif, In, Tag};

/// How many bytes a thumbnail may have at most: 1 MiB. A longer one is not read.
pub const MAX_THUMBNAIL_LEN: u32 = 1_048_576;

/// Where JPEG data are, in the data in which offsets count.
#[derive(Clone, Copy, Debug)]
pub struct Place {
    /// The offset of their first byte.
    pub offset: u64,
    /// How many bytes they have.
    pub len: u64,
}

/// Where the thumbnail is (Exif 2.32, section 4.5.8): what the two fields of the second directory
/// say.
pub fn place_of(exif: &Exif) -> Option<Place>
    ensures { result ≡ place_in exif.now }
{
    let offset = number_named(exif, Tag::JPEGInterchangeFormat)?;
    let len = number_named(exif, Tag::JPEGInterchangeFormatLength)?;
    Some(Place {
        offset: u64::from(offset),
        len: u64::from(len),
    })
}

/// The JPEG stream of the thumbnail in Exif data that are held whole: the bytes of the data at its
/// place, if they have them.
pub fn held_thumbnail(exif: &Exif) -> Option<&[u8]>
    ensures { option_map (λ bytes. bytes.now) result ≡ thumbnail_in exif.now }
{
    let place = place_of(exif)?;
    held_at(exif.buf(), place)
}

// The bytes at a place, if they are there.
fn held_at(bytes: &[u8], place: Place) -> Option<&[u8]>
    ensures { option_map (λ bytes. bytes.now) result ≡ held_at bytes.now place }
{
    let end = place.offset.checked_add(place.len)?;
    if end <= bytes.len() as u64 {
        Some(&bytes[place.offset as usize..end as usize])
    } else {
        None
    }
}

// The number that a field of the second directory holds.
fn number_named(exif: &Exif, tag: Tag) -> Option<u32>
    ensures { result ≡ number_named exif.now.fields tag }
{
    let field = exif.get_field(tag, In::THUMBNAIL)?;
    field.value.get_uint(0)
}

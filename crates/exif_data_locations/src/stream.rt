//! The picture of a TIFF file that is stored in JPEG streams (TIFF 6.0, section 22; TIFF Technical
//! Note 2).

ghost use Rattle.std.specs.Prelude.{◌≡◌};
ghost use Rattle.std.specs.List.{list_any};
ghost use Rattle.exif_data_locations.specs.Streams.{first_named, is_place, stores_jpeg, stores_streams};

use exif_types::{Context, Field};

// Whether a field of the first directory has this number in its tag.
fn first_named(number: u16, field: &Field) -> bool
    ensures { result ≡ first_named number field.now }
{
    matches!(field.tag.0, Context::Tiff) && field.tag.1 == number && field.ifd_num.0 == 0
}

// Whether a field is the compression of the first picture, and says JPEG: the old one, the one of
// Technical Note 2, or the lossy one of DNG.
fn stores_jpeg(field: &Field) -> bool
    ensures { result ≡ stores_jpeg field.now }
{
    first_named(259, field) && matches!(field.value.get_uint(0), Some(6 | 7 | 34892))
}

// Whether a field has the offsets of its strips, its tiles or its stream.
fn is_place(field: &Field) -> bool
    ensures { result ≡ is_place field.now }
{
    first_named(273, field) || first_named(324, field) || first_named(513, field)
}

// Whether one of these fields says JPEG.
fn any_jpeg(fields: &[Field]) -> bool
    ensures { result ≡ list_any stores_jpeg fields.now }
{
    fields.iter().any(|field| stores_jpeg(field))
}

// Whether one has the offsets.
fn any_place(fields: &[Field]) -> bool
    ensures { result ≡ list_any is_place fields.now }
{
    fields.iter().any(|field| is_place(field))
}

/// Whether the data hold a picture in JPEG streams, which can have segments of their own. The
/// thumbnail of Exif data, which is in the second directory, is none.
pub fn stores_streams(fields: &[Field]) -> bool
    ensures { result ≡ stores_streams fields.now }
{
    any_jpeg(fields) && any_place(fields)
}

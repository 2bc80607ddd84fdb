//! What a page shows of a picture, by its row and its file.

ghost use Rattle.std.specs.Prelude.{◌≡◌, Err, IfOk, IsErr};
ghost use Rattle.exif_types.specs.declared.error.Error.TheVariants.{OutOfMemory};
ghost use Rattle.exif_gathering.specs.Cards.{facts_of, found_in, item_line, seen_as, shown};

use exif::Error;
use exif_catalog_file::PictureRow;
use exif_page::{Exposure, Facts, Thumbnail as Shown};
use exif_thumbnails::{Coding, Thumbnail};
use std::alloc::AllocError;

/// What a row says of its picture.
pub fn facts_of<'a>(picture: &'a PictureRow<'_>, link: &'a str) -> Facts<'a>
    ensures { result ≡ facts_of picture.now link.entry }
{
    Facts {
        path: picture.path,
        link: Some(link),
        orientation: picture.orientation,
        date_taken: picture.date_taken,
        make: picture.make,
        model: picture.model,
        exposure: Exposure {
            time: picture.exposure_time,
            f_number: picture.f_number,
            iso: picture.iso,
            focal_length: picture.focal_length,
        },
        latitude: picture.latitude,
        longitude: picture.longitude,
    }
}

/// The thumbnail of a picture of which this was read, or why the picture could not be read. One
/// without Exif data has none.
pub fn found_in(
    read: Result<Option<Thumbnail>, Error>,
) -> Result<Result<Option<Thumbnail>, Error>, AllocError>
    ensures value { IfOk result (λ found. found ≡ found_in read.entry) }
    ensures memory { read.entry ≡ Err OutOfMemory → IsErr result }
{
    match read {
        Ok(found) => Ok(Ok(found)),
        Err(Error::NotFound(_)) => Ok(Ok(None)),
        Err(Error::OutOfMemory) => Err(AllocError),
        Err(error) => Ok(Err(error)),
    }
}

// What a card says of a thumbnail that is an item of a HEIF file.
fn item_line(coding: Coding) -> &'static str
    ensures { result.now ≡ item_line coding }
{
    match coding {
        Coding::Hevc => "Thumbnail not shown: HEVC",
        Coding::Av1 => "Thumbnail not shown: AV1",
        Coding::Jpeg => "Thumbnail not shown: a JPEG item",
        Coding::Other => "Thumbnail not shown: not a JPEG",
    }
}

/// What a card has for a thumbnail.
pub fn shown(found: &Option<Thumbnail>) -> Shown<'_>
    ensures { seen_as result ≡ shown found.now }
{
    match found {
        Some(Thumbnail::Jpeg(jpeg)) => Shown::Jpeg(jpeg.as_slice()),
        Some(Thumbnail::TooLong) => Shown::Line("Thumbnail not shown: longer than 1 MiB"),
        Some(Thumbnail::CutOff) => Shown::Line("Thumbnail not shown: cut off"),
        Some(Thumbnail::Item(coding)) => Shown::Line(item_line(*coding)),
        None => Shown::Line("No thumbnail"),
    }
}

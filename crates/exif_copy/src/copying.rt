//! The Exif data of one picture copied into another one.

ghost use Rattle.std.specs.Prelude.{◌≡◌, ℕ, List, Result};
ghost use Rattle.exif_edit_base.specs.Causes.{Cause, Makes};
ghost use Rattle.exif_change.specs.Changed.{change_of};
ghost use Rattle.exif_change.specs.Reading.{contents_of};
ghost use Rattle.exif_change.specs.Refusals.{Answers, as_edited};
ghost use Rattle.exif_copy.specs.Copied.{copied, placed_shaped, shaped};
ghost use Rattle.exif_copy.specs.Errors.{editing};
ghost use Rattle.exif_copy.specs.declared.copying.Shape.TheVariants.{Target};

use crate::found::exif_found;
use crate::placing::placed;
use crate::shaping::with_shape;
use exif::{Error, Exif};
use exif_change::{Changed, Refusal};
use exif_formats::format_of_file;
use std::alloc::Global;

/// Which picture the copied data describe.
#[derive(Clone, Copy, Debug)]
pub enum Shape {
    /// The one that they come from: not a byte of them changes.
    Source,
    /// The one that they are put into: their orientation and their sizes in pixels become those
    /// that its own Exif data tell.
    Target,
}

// What was edited, or why it was not.
fn as_edited(answer: Result<Vec<u8>, exif_edit::Error>) -> Result<Vec<u8>, Refusal>
    ensures same { result ≡ editing answer }
    ensures made { (made : Result (List ℕ) Cause) → Makes (λ v. v.items) answer made
        → Answers (λ v. v.items) result (as_edited made) }
{
    match answer {
        Ok(data) => Ok(data),
        Err(error) => Err(Refusal::Editing(error)),
    }
}

// The data of a picture as those of another one, if it has some that are read.
fn shaped_for(alloc: Global, exif: &Exif, to: &[u8]) -> Result<Vec<u8>, Refusal>
    ensures { Answers (λ v. v.items) result (shaped Target (contents_of exif.now) to.now) }
{
    match exif_found(alloc, to) {
        Ok(own) => as_edited(with_shape(alloc, exif, Some(&own))),
        Err(Error::OutOfMemory | Error::Io(_) | Error::PartialResult(_)) => {
            Err(Refusal::OutOfMemory)
        }
        Err(_no_fields) => as_edited(with_shape(alloc, exif, None)),
    }
}

// The file with the data of a picture that were read.
fn copied_shaped(alloc: Global, exif: &Exif, to: &[u8], shape: Shape) -> Result<Changed, Refusal>
    ensures { Answers change_of result (placed_shaped shape to.now (contents_of exif.now)) }
{
    let format = format_of_file(to);
    match shape {
        Shape::Source => placed(alloc, format, exif.buf(), to),
        Shape::Target => {
            let data = shaped_for(alloc, exif, to)?;
            placed(alloc, format, data.as_slice(), to)
        }
    }
}

/// The file `to` with the Exif data of the file `from` in place of its own. All else stays as it
/// is.
///
/// `from` is a JPEG, HEIF, WebP, PNG or JPEG XL file, or a raw file of Fujifilm, whose data are
/// those of its JPEG stream. Its first Exif data are copied, with the thumbnail in them. TIFF files
/// and other raw files are refused with [`NotSupported`](exif::Error::NotSupported): their Exif
/// data are the whole file with the picture, or are in several parts. A file without Exif data is
/// refused with [`NotFound`](exif::Error::NotFound), and data whose header can't be read as reading
/// them is.
///
/// `to` is a JPEG, WebP, PNG or JPEG XL file; others are refused with `NotSupported`, and so is a
/// JPEG XL codestream without a container. All its Exif segments, its chunks `EXIF` or `eXIf` or
/// its boxes `Exif`, compressed or not, go, and the new one is where [`exif_rewrite::rewrite`],
/// [`rewrite_png`](exif_parts::rewrite_png) and [`rewrite_jxl`](exif_parts::rewrite_jxl) put
/// it. Data that are too long for the file are refused with [`TooBig`](exif::Error::TooBig): a JPEG
/// file takes 65,527 bytes. Of a JPEG or JPEG XL file that is cut off what is there is kept, and
/// [`Residual::CutOff`](exif_change::Residual::CutOff) is answered.
///
/// With [`Shape::Source`] the data are the same bytes. With [`Shape::Target`] they describe `to`:
/// of the fields of the primary image Orientation is what the Exif data of `to` tell, or else 1,
/// and PixelXDimension, PixelYDimension, ImageWidth and ImageLength are what these data tell, or
/// else are erased. Fields that the copied data lack are not added. Where a name occurs more than
/// once each field of it is set. Refusals are then those of
/// [`set_fields`](exif_grow::set_fields) and
/// [`erase_field`](exif_edit::remove::erase_field), too.
///
/// It takes the memory of the Exif data of `from` with their fields, and of the new file, of a WebP
/// file twice that; with [`Shape::Target`] also that of the Exif data of `to`, and of the edits.
pub fn copy_exif(alloc: Global, from: &[u8], to: &[u8], shape: Shape) -> Result<Changed, Refusal>
    ensures { Answers change_of result (copied shape from.now to.now) }
{
    match exif_found(alloc, from) {
        Ok(exif) => copied_shaped(alloc, &exif, to, shape),
        Err(error) => Err(Refusal::Reading(error)),
    }
}

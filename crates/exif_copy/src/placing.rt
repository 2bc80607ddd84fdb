//! Exif data put into a picture in place of its own.

ghost use Rattle.std.specs.Prelude.{◌≡◌, IfOk, Result, Some};
ghost use Rattle.exif_types.specs.Refusals.{Gives, Refusal as Refused};
ghost use Rattle.exif_segments.specs.declared.remove.Remove.TheVariants as remove;
ghost use Rattle.exif_change.specs.Changed.{Change, change_of, whole};
ghost use Rattle.exif_change.specs.Refusals.{Answers, as_read, why_of};
ghost use Rattle.exif_change.specs.Rewriting.{if_whole, rewritten_jpeg, rewritten_webp, stream_change};
ghost use Rattle.exif_copy.specs.Errors.{reading};
ghost use Rattle.exif_parts.specs.Png.{png_rewritten};
ghost use Rattle.exif_copy.specs.Placed.{placed, placed_in_jxl, target_refused};

use exif::Error;
use exif_change::{Changed, Refusal, Residual};
use exif_formats::{Format, PictureFormat};
use exif_parts::{Ended, Rewritten, rewrite_jpeg, rewrite_jxl, rewrite_png, rewrite_webp};
use exif_rewrite::Remove;
use std::alloc::{AllocError, Global};

// A file of which nothing was left undone.
fn whole(alloc: Global, file: Vec<u8>) -> Changed
    ensures { change_of result ≡ whole file.items }
{
    Changed {
        file,
        left: Vec::new(alloc),
    }
}

// A file that was written again as far as it goes.
fn as_far(alloc: Global, new: Rewritten) -> Result<Changed, AllocError>
    ensures { IfOk result (λ changed. change_of changed
        ≡ stream_change new.bytes.items new.ended) }
{
    let Rewritten { bytes, ended } = new;
    let mut changed = whole(alloc, bytes);
    if let Ended::Cut = ended {
        changed.left.push(Residual::CutOff)?;
    }
    Ok(changed)
}

// A JPEG stream, as far as it goes, with these Exif data in place of its own.
fn placed_in_jpeg(alloc: Global, exif: &[u8], file: &[u8]) -> Result<Changed, Error>
    ensures { Gives change_of result (rewritten_jpeg remove.Exif (Some exif.now) file.now) }
{
    let new = rewrite_jpeg(alloc, file, Remove::Exif, Some(exif))?;
    Ok(as_far(alloc, new)?)
}

// A JPEG XL file likewise.
fn placed_in_jxl(alloc: Global, exif: &[u8], file: &[u8]) -> Result<Changed, Error>
    ensures { Gives change_of result (placed_in_jxl exif.now file.now) }
{
    let new = rewrite_jxl(alloc, file, Remove::Exif, Some(exif))?;
    Ok(as_far(alloc, new)?)
}

// A WebP file likewise.
fn placed_in_webp(alloc: Global, exif: &[u8], file: &[u8]) -> Result<Changed, Error>
    ensures { Gives change_of result (rewritten_webp remove.Exif (Some exif.now) file.now) }
{
    let new = rewrite_webp(alloc, file, Remove::Exif, Some(exif))?;
    Ok(whole(alloc, new))
}

// A PNG file likewise.
fn placed_in_png(alloc: Global, exif: &[u8], file: &[u8]) -> Result<Changed, Error>
    ensures { Gives change_of result
        (if_whole (png_rewritten remove.Exif (Some exif.now) file.now)) }
{
    let new = rewrite_png(alloc, file, Remove::Exif, Some(exif))?;
    Ok(whole(alloc, new))
}

// Why other files are refused.
fn target_refused() -> Refusal
    ensures { why_of result ≡ Some target_refused }
{
    let text = "Exif data are copied into JPEG, WebP, PNG and JPEG XL files only";
    Refusal::Reading(Error::NotSupported(text))
}

/// What was put into its place, or why nothing was.
pub(crate) fn as_read(answer: Result<Changed, Error>) -> Result<Changed, Refusal>
    ensures same { result ≡ reading answer.entry }
    ensures made { (made : Result Change Refused) → Gives change_of answer.entry made
        → Answers change_of result (as_read made) }
{
    match answer {
        Ok(changed) => Ok(changed),
        Err(error) => Err(Refusal::Reading(error)),
    }
}

/// The file of a format with these Exif data in place of its own.
pub(crate) fn placed(
    alloc: Global,
    format: Option<PictureFormat>,
    exif: &[u8],
    file: &[u8],
) -> Result<Changed, Refusal>
    ensures { Answers change_of result (placed format exif.now file.now) }
{
    match format {
        None => Err(Refusal::UnknownFormat),
        Some(PictureFormat::Container(Format::Jpeg)) => as_read(placed_in_jpeg(alloc, exif, file)),
        Some(PictureFormat::Container(Format::WebP)) => as_read(placed_in_webp(alloc, exif, file)),
        Some(PictureFormat::Png) => as_read(placed_in_png(alloc, exif, file)),
        Some(PictureFormat::JpegXl) => as_read(placed_in_jxl(alloc, exif, file)),
        Some(PictureFormat::Container(Format::Tiff | Format::Heif)) => Err(target_refused()),
        Some(PictureFormat::Raf | PictureFormat::Orf) => Err(target_refused()),
        Some(PictureFormat::Rw2 | PictureFormat::Cr3) => Err(target_refused()),
    }
}

//! JPEG and WebP files written again.

ghost use Rattle.exif_types.specs.Refusals.{Gives};
ghost use Rattle.exif_segments.specs.Removing.{payload_of};
ghost use Rattle.exif_change.specs.Changed.{change_of};
ghost use Rattle.exif_change.specs.Rewriting.{rewritten, rewritten_jpeg, rewritten_webp};

use crate::changed::{Changed, Residual};
use exif::Error;
use exif_containers::container::Format;
use exif_parts::{Ended, rewrite_jpeg, rewrite_webp};
use exif_rewrite::Remove;
use std::alloc::Global;

// A JPEG stream, as far as it goes, with other Exif data in place of what is taken out.
fn rewritten_jpeg(
    alloc: Global,
    file: &[u8],
    exif: Option<&[u8]>,
    remove: Remove,
) -> Result<Changed, Error>
    ensures { Gives change_of result (rewritten_jpeg remove (payload_of exif.entry) file.now) }
{
    let new = rewrite_jpeg(alloc, file, remove, exif)?;
    let mut changed = Changed::whole(alloc, new.bytes);
    if let Ended::Cut = new.ended {
        changed.left.push(Residual::CutOff)?;
    }
    Ok(changed)
}

// A WebP file likewise.
fn rewritten_webp(
    alloc: Global,
    file: &[u8],
    exif: Option<&[u8]>,
    remove: Remove,
) -> Result<Changed, Error>
    ensures { Gives change_of result (rewritten_webp remove (payload_of exif.entry) file.now) }
{
    let new = rewrite_webp(alloc, file, remove, exif)?;
    Ok(Changed::whole(alloc, new))
}

/// The JPEG or WebP file with other Exif data in place of what is taken out.
pub fn rewritten(
    alloc: Global,
    format: Format,
    file: &[u8],
    exif: Option<&[u8]>,
    remove: Remove,
) -> Result<Changed, Error>
    ensures { Gives change_of result
        (rewritten format remove (payload_of exif.entry) file.now) }
{
    match format {
        Format::Jpeg => rewritten_jpeg(alloc, file, exif, remove),
        Format::WebP | Format::Heif | Format::Tiff => rewritten_webp(alloc, file, exif, remove),
    }
}

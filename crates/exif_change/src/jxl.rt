//! JPEG XL files in their container that are written again.

ghost use Rattle.std.specs.Prelude.{◌≡◌};
ghost use Rattle.exif_types.specs.Refusals.{Gives};
ghost use Rattle.exif_segments.specs.Removing.{payload_of};
ghost use Rattle.exif_change.specs.Changed.{change_of};
ghost use Rattle.exif_change.specs.Refusals.{Answers};
ghost use Rattle.exif_change.specs.JxlChanges.{jxl_data, jxl_emptied, rewritten};

use crate::Refusal;
use crate::changed::Changed;
use crate::found::with_found;
use exif::Error;
use exif_formats::jxl::is_codestream;
use exif_parts::rewrite_jxl;
use exif_segments::Remove;
use std::alloc::Global;

/// The Exif data of a file, unless it is a codestream without a container.
pub fn data_of(alloc: Global, file: &[u8]) -> Result<Vec<u8>, Error>
    ensures { Gives (λ v. v.items) result (jxl_data file.now) }
{
    if is_codestream(file) {
        return Err(Error::NotSupported("JPEG XL codestream without a container"));
    }
    exif_formats::jxl_data(alloc, file)
}

/// The file without what is removed, and with other Exif data if there are some.
pub fn rewritten(
    alloc: Global,
    file: &[u8],
    exif: Option<&[u8]>,
    remove: Remove,
) -> Result<Vec<u8>, Refusal>
    ensures { Answers (λ v. v.items) result (rewritten remove (payload_of exif.entry) file.now) }
{
    match rewrite_jxl(alloc, file, remove, exif) {
        Ok(new) => Ok(new.bytes),
        Err(error) => Err(Refusal::Reading(error)),
    }
}

/// A JPEG XL file without its metadata, with what is found in it then that does not belong there. A
/// codestream without a container has none.
pub(crate) fn emptied(alloc: Global, file: Vec<u8>) -> Result<Changed, Refusal>
    ensures { Answers change_of result (jxl_emptied file.items) }
{
    if is_codestream(file.as_slice()) {
        return Ok(Changed::whole(alloc, file));
    }
    let new = rewritten(alloc, file.as_slice(), None, Remove::Metadata)?;
    with_found(alloc, false, Changed::whole(alloc, new))
}

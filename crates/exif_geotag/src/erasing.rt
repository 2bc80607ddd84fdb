//! Fields taken out of a file in memory.

ghost use Rattle.std.specs.Prelude.{◌≡◌, [], IfOk, OnOk};
ghost use Rattle.exif_geotag.specs.Erasing.{all_erased, one_erased};

use exif_change::ENTRY_LIMIT;
use exif_edit::{Edit, Error, apply_in_file};
use exif_types::{In, Tag};
use std::alloc::{AllocError, Global};

// Takes a field out, or keeps its tag where that is refused: the file stays as it was then.
fn erase(alloc: Global, tag: Tag, file: &mut [u8], kept: &mut Vec<Tag>) -> Result<(), AllocError>
    ensures { OnOk result
        ((file.new, kept.new.items) ≡ one_erased tag (file.old, kept.old.items)) }
{
    let ifd_num = In::PRIMARY;
    let edit = Edit::EraseField { tag, ifd_num };
    match apply_in_file(alloc, &edit, Some(ENTRY_LIMIT), file) {
        Ok(()) => Ok(()),
        Err(Error::OutOfMemory) => Err(AllocError),
        Err(_refused) => Ok(kept.push(tag)?),
    }
}

/// Takes fields of the primary image out of a file, where they can be taken out with no other byte
/// changed; answers the tags of the others.
pub(crate) fn erase_all(
    alloc: Global,
    tags: &[Tag],
    file: &mut [u8],
) -> Result<Vec<Tag>, AllocError>
    ensures { IfOk result
        (λ kept. (file.new, kept.items) ≡ all_erased tags.now (file.old, [])) }
{
    let mut kept = Vec::new(alloc);
    for tag in tags {
        erase(alloc, *tag, file, &mut kept)?;
    }
    Ok(kept)
}

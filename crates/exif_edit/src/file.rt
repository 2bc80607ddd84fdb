//! Exif data edited where they are in a file in memory.

ghost use Rattle.std.specs.Prelude.{◌≡◌, All, true, length, Ok, IfOk, OnOk};
ghost use Rattle.exif_containers.specs.Container.{begins_tiff};
ghost use Rattle.exif_containers.specs.Located.{located_answer, located_view};
ghost use Rattle.exif_edit_base.specs.Causes.{Edits, Makes, of_container};
ghost use Rattle.exif_edit_base.specs.Patches.{FitsIn, patched};
ghost use Rattle.exif_edit.specs.InFiles.{IsEditedIn, data_patches, edited_file, file_patches, holds, placed_file, served_file, serves, takes_picture};

use crate::spread::spread;
use crate::{Edit, Error, Patch, apply, patches_of};
use exif_base::Counted;
use exif_containers::container::{Format, is_tiff};
use exif_containers::{Located, exif_attr_of_stream, find_exif};
use exif_edit_base::patch::{self, exchange, patched, put_back};
use std::alloc::{AllocError, Global};

// The Exif data of a file, and where they are.
fn locate(alloc: Global, file: &[u8]) -> Result<Located, Error>
    ensures { Makes located_view result (of_container (located_answer file.now)) }
{
    match find_exif(alloc, &mut Counted::new(file)) {
        Ok(found) => Ok(found),
        Err(
            exif_types::Error::OutOfMemory
            | exif_types::Error::Io(_)
            | exif_types::Error::PartialResult(_),
        ) => Err(Error::OutOfMemory),
        Err(refusal) => Err(Error::Container(refusal)),
    }
}

/// Whether a file in memory holds exactly these Exif data; data that are refused are none.
pub fn holds(alloc: Global, file: &[u8], bytes: &[u8]) -> Result<bool, AllocError>
    ensures { IfOk result (λ held. held ≡ holds file.now bytes.now) }
{
    match exif_attr_of_stream(alloc, &mut Counted::new(file)) {
        Ok(found) => Ok(found.as_slice() == bytes),
        Err(
            exif_types::Error::OutOfMemory
            | exif_types::Error::Io(_)
            | exif_types::Error::PartialResult(_),
        ) => Err(AllocError),
        Err(_) => Ok(false),
    }
}

// Whether an edit takes the picture of such a file.
fn takes_picture(edit: &Edit, format: Format) -> bool
    ensures { result ≡ takes_picture edit.now format }
{
    matches!((edit, format), (Edit::EraseAll, Format::Tiff))
}

/// What an edit puts over located data.
pub fn data_patches(
    alloc: Global,
    edit: &Edit,
    limit: Option<u64>,
    at: &Located,
) -> Result<Vec<Patch>, Error>
    ensures answer { Makes (λ ps. ps.items) result
        (data_patches limit edit.now (located_view at.now)) }
    ensures within { IfOk result (λ ps. All (FitsIn (length at.now.data.items)) ps.items) }
{
    if takes_picture(edit, at.format) {
        return Err(Error::PictureData);
    }
    patches_of(alloc, edit, limit, at.data.as_slice())
}

// Puts patches over the Exif item of a HEIF file, and puts back what was there unless the file
// holds the new data then.
fn put_in_item(
    alloc: Global,
    file: &mut [u8],
    patches: &mut [Patch],
    new: &[u8],
) -> Result<(), Error>
    requires { All (FitsIn (length file.old)) patches.old }
    ensures { Edits result file.old file.new (served_file file.old patches.old new.now) }
{
    exchange(alloc, file, patches);
    let refusal = match holds(alloc, file, new) {
        Ok(true) => return Ok(()),
        Ok(false) => Error::SharedBytes,
        Err(AllocError) => Error::OutOfMemory,
    };
    put_back(alloc, file, patches);
    Err(refusal)
}

// Puts patches of located data over the file.
fn put_in_file(alloc: Global, file: &mut [u8], at: &Located, patches: &[Patch]) -> Result<(), Error>
    requires located { located_answer file.old ≡ Ok (located_view at.now) }
    requires fit { All (FitsIn (length at.now.data.items)) patches.now }
    ensures { Edits result file.old file.new
        (placed_file file.old (located_view at.now) patches.now) }
{
    let mut all = spread(alloc, at.extents.as_slice(), patches)?;
    match at.format {
        Format::Heif => {
            let new = patched(alloc, patches, at.data.as_slice())?;
            put_in_item(alloc, file, all.as_mut_slice(), new.as_slice())
        }
        Format::Tiff | Format::Jpeg | Format::WebP => {
            patch::apply(all.as_slice(), file);
            Ok(())
        }
    }
}

// Edits TIFF data, which are the file.
fn apply_in_tiff(
    alloc: Global,
    edit: &Edit,
    limit: Option<u64>,
    file: &mut [u8],
) -> Result<(), Error>
    requires { begins_tiff file.old ≡ true }
    ensures { Edits result file.old file.new (edited_file limit edit.now file.old) }
{
    if takes_picture(edit, Format::Tiff) {
        return Err(Error::PictureData);
    }
    apply(alloc, edit, limit, file)
}

// Edits a file of another container.
fn apply_in_container(
    alloc: Global,
    edit: &Edit,
    limit: Option<u64>,
    file: &mut [u8],
) -> Result<(), Error>
    ensures { Edits result file.old file.new (edited_file limit edit.now file.old) }
{
    let at = locate(alloc, file)?;
    let patches = data_patches(alloc, edit, limit, &at)?;
    put_in_file(alloc, file, &at, patches.as_slice())
}

/// Edits the Exif data of a file in memory: TIFF data, a JPEG stream, a WebP file or a HEIF file,
/// whose item may be in several extents. An error leaves all bytes as they were.
///
/// The refusals are those of [`apply`] over the data, with the limit on entries that it has, and
/// `Container`. [`Edit::EraseAll`] refuses TIFF data with `PictureData`. A HEIF file is read again
/// with the edit, and refused with `SharedBytes` unless it holds the edited data then: bytes of the
/// item may also say where the item is. TIFF data take the memory of [`apply`], others that of the
/// Exif data too, and no copy of the file.
pub fn apply_in_file(
    alloc: Global,
    edit: &Edit,
    limit: Option<u64>,
    file: &mut [u8],
) -> Result<(), Error>
    ensures answer { Edits result file.old file.new (edited_file limit edit.now file.old) }
    ensures edited { OnOk result (IsEditedIn limit edit.now file.old file.new) }
{
    if is_tiff(file) {
        return apply_in_tiff(alloc, edit, limit, file);
    }
    apply_in_container(alloc, edit, limit, file)
}

/// What an edit puts over a file in memory, which stays as it is. A HEIF file is copied.
pub fn patches_in_memory(
    alloc: Global,
    edit: &Edit,
    limit: Option<u64>,
    file: &[u8],
) -> Result<Vec<Patch>, Error>
    ensures { Makes (λ ps. ps.items) result (file_patches limit edit.now file.now) }
{
    let at = locate(alloc, file)?;
    let patches = data_patches(alloc, edit, limit, &at)?;
    let all = spread(alloc, at.extents.as_slice(), patches.as_slice())?;
    let served = serves(alloc, &at, file, patches.as_slice(), all.as_slice())?;
    if served {
        return Ok(all);
    }
    Err(Error::SharedBytes)
}

// Whether patches of located data, which are these of the file, make the new data what it holds.
fn serves(
    alloc: Global,
    at: &Located,
    file: &[u8],
    patches: &[Patch],
    all: &[Patch],
) -> Result<bool, AllocError>
    requires fit { All (FitsIn (length at.now.data.items)) patches.now }
    requires all { All (FitsIn (length file.now)) all.now }
    ensures { IfOk result (λ yes. yes
        ≡ serves at.now.format file.now all.now (patched patches.now at.now.data.items)) }
{
    match at.format {
        Format::Heif => {
            let new = patched(alloc, patches, at.data.as_slice())?;
            let out = patched(alloc, all, file)?;
            holds(alloc, out.as_slice(), new.as_slice())
        }
        Format::Tiff | Format::Jpeg | Format::WebP => Ok(true),
    }
}

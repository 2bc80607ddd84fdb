//! Exif data edited where they are in a file of any size, which is read from a source.

ghost use Rattle.std.specs.Prelude.{◌≡◌, ◌<◌, ◌^◌, All, false, length, IfOk, IfSome};
ghost use Rattle.exif_base.specs.Reads.{Counts};
ghost use Rattle.exif_containers.specs.Container.{format_in};
ghost use Rattle.exif_edit_base.specs.Patches.{FitsIn, patched};
ghost use Rattle.exif_edit.specs.InFiles.{IsEditedIn, file_patches};
ghost use Rattle.exif_edit.specs.Sources.{MakesOrStops, has_item, is_device, is_item};

use crate::file::{data_patches, patches_in_memory};
use crate::spread::spread;
use crate::{Edit, Error, Patch};
use exif_base::{Blocks, Source};
use exif_containers::container::{BLOCK, Format, format_of, read_signature};
use exif_containers::find_exif;
use exif_segments::util::read_all;
use std::alloc::Global;

// Whether a head is that of a container whose data are an item.
fn begins_item(head: &[u8]) -> bool
    ensures { result ≡ is_item (format_in head.now) }
{
    matches!(format_of(head), Some(Format::Heif))
}

// What an edit puts over a HEIF file, which is held in memory for it.
fn patches_in_item<R: Source>(
    alloc: Global,
    edit: &Edit,
    limit: Option<u64>,
    source: &mut R,
) -> Result<Vec<Patch>, Error>
    ensures answer { IfSome (R.left source.old) (λ file.
        MakesOrStops (λ ps. ps.items) result (file_patches limit edit.now file)) }
    ensures counts { Counts R.Source source.old source.new (is_device result) }
{
    let file = read_all(alloc, source)?;
    let patches = patches_in_memory(alloc, edit, limit, file.as_slice())?;
    Ok(patches)
}

// What an edit puts over a file of another container.
fn patches_in_piece<R: Source>(
    alloc: Global,
    edit: &Edit,
    limit: Option<u64>,
    source: &mut R,
) -> Result<Vec<Patch>, Error>
    ensures answer { IfSome (R.left source.old) (λ file. has_item file ≡ false
        → MakesOrStops (λ ps. ps.items) result (file_patches limit edit.now file)) }
    ensures counts { Counts R.Source source.old source.new (is_device result) }
{
    let at = find_exif(alloc, source)?;
    let patches = data_patches(alloc, edit, limit, &at)?;
    let all = spread(alloc, at.extents.as_slice(), patches.as_slice())?;
    Ok(all)
}

/// What an edit puts over the file that a source reads, with offsets from where the source was.
///
/// The refusals are those of [`apply_in_file`](crate::apply_in_file); `Container` also has the
/// source's error. Of JPEG streams and WebP files it reads up to the Exif data, and takes their
/// memory; TIFF data and HEIF files are held, the latter with a copy.
pub fn patches_in<R: Source>(
    alloc: Global,
    edit: &Edit,
    limit: Option<u64>,
    source: &mut R,
) -> Result<Vec<Patch>, Error>
    ensures answer { IfSome (R.left source.old) (λ file.
        MakesOrStops (λ ps. ps.items) result (file_patches limit edit.now file)) }
    ensures edited { IfOk result (λ ps. IfSome (R.left source.old) (λ file.
        length file < 2 ^ 64 → IsEditedIn limit edit.now file (patched ps.items file))) }
    ensures within { IfOk result (λ ps. IfSome (R.left source.old) (λ file.
        length file < 2 ^ 64 → All (FitsIn (length file)) ps.items)) }
    ensures counts { Counts R.Source source.old source.new (is_device result) }
{
    let mut block = [0u8; BLOCK];
    let filled = match read_signature(source, &mut block) {
        Ok(filled) => filled,
        Err(error) => return Err(Error::Container(exif_types::Error::Io(error))),
    };
    let is_item = begins_item(&block[..filled]);
    let mut blocks = Blocks::new(&mut block, filled, source);
    if is_item {
        let patches = patches_in_item(alloc, edit, limit, &mut blocks)?;
        return Ok(patches);
    }
    let patches = patches_in_piece(alloc, edit, limit, &mut blocks)?;
    Ok(patches)
}

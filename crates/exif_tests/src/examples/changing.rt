//! Pictures edited in place, and rewritten without private data.

ghost use Rattle.std.specs.Prelude.{◌≡◌, None, Ok, IfOk, OnErr, OnOk};
ghost use Rattle.exif_base.specs.Orders.{order_named};
ghost use Rattle.exif_edit.specs.declared.edits.Edit.TheVariants.{EraseGps};
ghost use Rattle.exif_edit.specs.InFiles.{IsEditedIn};
ghost use Rattle.exif_segments.specs.declared.remove.Remove.TheVariants.{Metadata};
ghost use Rattle.exif_rewrite.specs.RewrittenFile.{file_rewriting};
ghost use Rattle.exif_layout.specs.Image.{image};
ghost use Rattle.exif_layout.specs.Scrubbing.{scrubbed};
ghost use Rattle.exif_tests.specs.Fields.{orientation_edit};

use exif::{Counted, Exif, In, Items, Tag, Value};
use exif_edit::{Edit, apply_in_file};
use exif_rewrite::{Remove, rewrite};
use std::alloc::Global;

/// Sets the orientation of a picture in memory. After an error its bytes are unchanged.
pub fn set_orientation(
    alloc: Global,
    picture: &mut [u8],
    orientation: u16,
) -> Result<(), exif_edit::Error>
    ensures set { OnOk result
        (IsEditedIn None (orientation_edit orientation) picture.old picture.new) }
    ensures kept { OnErr result (picture.new ≡ picture.old) }
{
    let value = Value::Short(Items::from_slice(alloc, &[orientation])?);
    let edit = Edit::Set {
        tag: Tag::Orientation,
        ifd_num: In::PRIMARY,
        value,
    };
    apply_in_file(alloc, &edit, None, picture)
}

/// Erases the GPS data of a picture in memory: their bytes become zero, and no other byte changes.
/// After an error its bytes are unchanged.
pub fn erase_location(alloc: Global, picture: &mut [u8]) -> Result<(), exif_edit::Error>
    ensures erased { OnOk result (IsEditedIn None EraseGps picture.old picture.new) }
    ensures kept { OnErr result (picture.new ≡ picture.old) }
{
    apply_in_file(alloc, &Edit::EraseGps, None, picture)
}

/// A JPEG or WebP picture without its metadata.
pub fn without_metadata(alloc: Global, picture: &[u8]) -> Result<Vec<u8>, exif::Error>
    ensures clean { IfOk result
        (λ clean. file_rewriting Metadata None picture.now ≡ Ok clean.items) }
{
    let mut clean = Counted::new(Vec::new(alloc));
    rewrite(
        alloc,
        &mut Counted::new(picture),
        &mut clean,
        None,
        Remove::Metadata,
    )?;
    Ok(clean.into_inner())
}

/// The Exif data of a picture without its location, to be put into a file.
pub fn without_location(alloc: Global, exif: &Exif) -> Result<Vec<u8>, exif::Error>
    ensures data { IfOk result (λ written. written.items
        ≡ image (order_named exif.now.little_endian) (scrubbed exif.now.fields)) }
{
    let mut data = Counted::new(Vec::new(alloc));
    exif_rewrite::scrub(alloc, exif, &mut data, exif.little_endian())?;
    Ok(data.into_inner())
}

//! Exif data written: new ones, and what was read.

ghost use Rattle.std.specs.Prelude.{◌≡◌, [], ◌∷◌, IfOk};
ghost use Rattle.exif_base.specs.Orders.{order_named};
ghost use Rattle.exif_base.specs.declared.endian.Order.TheVariants.{Big};
ghost use Rattle.exif_layout.specs.Groups.{jpeg_set, pushed};
ghost use Rattle.exif_layout.specs.Image.{image};
ghost use Rattle.exif_layout.specs.Rewriting.{pushed_all};
ghost use Rattle.exif_tests.specs.Fields.{orientation_field};

use exif::experimental::Writer;
use exif::{Counted, Error, Exif, Field, In, Items, Tag, Value};
use std::alloc::Global;

/// Exif data with an orientation and a thumbnail.
pub fn new_exif(alloc: Global, orientation: u16, thumbnail: &[u8]) -> Result<Vec<u8>, Error>
    ensures data { IfOk result (λ written. written.items
        ≡ image Big (jpeg_set thumbnail.now 1 (pushed (orientation_field orientation) []))) }
{
    let field = Field {
        tag: Tag::Orientation,
        ifd_num: In::PRIMARY,
        value: Value::Short(Items::from_slice(alloc, &[orientation])?),
    };
    let mut writer = Writer::new(alloc);
    writer.push_field(&field)?;
    writer.set_jpeg(thumbnail, In::THUMBNAIL)?;
    let mut image = Counted::new(Vec::new(alloc));
    writer.write(&mut image, false)?;
    Ok(image.into_inner())
}

/// The fields that were read, written again in their byte order. Thumbnails, strips and tiles are
/// not fields: `set_jpeg` and its like add them.
pub fn written_again(alloc: Global, exif: &Exif) -> Result<Vec<u8>, Error>
    ensures data { IfOk result (λ written. written.items
        ≡ image (order_named exif.now.little_endian) (pushed_all exif.now.fields [])) }
{
    let mut writer = Writer::new(alloc);
    for field in exif.fields() {
        writer.push_field(field)?;
    }
    let mut image = Counted::new(Vec::new(alloc));
    writer.write(&mut image, exif.little_endian())?;
    Ok(image.into_inner())
}

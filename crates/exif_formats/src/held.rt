//! The Exif data of files in memory, of the formats beside those of the reader.

ghost use Rattle.exif_types.specs.Refusals.{Gives};
ghost use Rattle.exif_containers.specs.Container.{data_of};
ghost use Rattle.exif_formats.specs.Jxl.{jxl_answer};
ghost use Rattle.exif_formats.specs.Pictures.{png_data};
ghost use Rattle.exif_formats.specs.Raf.{raf_answer};

use crate::jxl::get_exif_attr_from_jxl;
use crate::raw::raf;
use exif_base::Counted;
use exif_containers::png::get_exif_attr_from_png;
use exif_types::Error;
use std::alloc::Global;

/// The Exif data of a PNG file, as [`get_exif_attr_from_png`] finds them. It takes their memory.
pub fn png_data(alloc: Global, file: &[u8]) -> Result<Vec<u8>, Error>
    ensures { Gives (λ v. v.items) result (png_data file.now) }
{
    get_exif_attr_from_png(alloc, &mut Counted::new(file))
}

/// The Exif data of a JPEG XL file, as [`get_exif_attr_from_jxl`] finds them. It takes their
/// memory.
pub fn jxl_data(alloc: Global, file: &[u8]) -> Result<Vec<u8>, Error>
    ensures { Gives (λ v. v.items) result (data_of (jxl_answer file.now)) }
{
    get_exif_attr_from_jxl(alloc, &mut Counted::new(file))
}

/// The Exif data of the JPEG stream in a raw file of Fujifilm, as [`raf::get_exif_attr`] finds
/// them. It takes their memory.
pub fn raf_data(alloc: Global, file: &[u8]) -> Result<Vec<u8>, Error>
    ensures { Gives (λ v. v.items) result (data_of (raf_answer file.now)) }
{
    raf::get_exif_attr(alloc, &mut Counted::new(file))
}

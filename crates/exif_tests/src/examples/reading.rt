//! What a picture says: whole, in part, from strangers, field by field.

ghost use Rattle.std.specs.Prelude.{◌≡◌, ◌≤◌, None, Some, false, length, IfOk, IfSome};
ghost use Rattle.std.specs.List.{flat_map};
ghost use Rattle.std.specs.String.{string_bytes};
ghost use Rattle.exif_table.specs.declared.context.Context.TheVariants as Context;
ghost use Rattle.exif_tiff.specs.Answers.{raw_answer};
ghost use Rattle.exif_containers.specs.Container.{container_answer};
ghost use Rattle.exif_reader.specs.Files.{ReadsByNeed, ReadsContainer};
ghost use Rattle.exif_summary.specs.Finding.{number_of};
ghost use Rattle.exif_reader.specs.Lines.{field_line};

use exif::{Error, Exif, In, ReadSeek, Reader, Seekable, Tag};
use std::alloc::Global;
use std::fmt::Write;
use std::fs::File;

/// The fields of a picture, or its first fault. The picture is a file or a `Cursor` over bytes.
pub fn read_picture<R: ReadSeek + Drop>(alloc: Global, picture: R) -> Result<Exif, Error>
    ensures reads { IfSome (R.remaining picture)
        (λ bytes. ReadsContainer (raw_answer false None) (container_answer bytes) result) }
{
    Reader::new().read_from_container(alloc, &mut Seekable::new(picture))
}

/// The same if only the fields are needed: of a large TIFF file, such as a camera's raw file, only
/// a prefix is read if that suffices.
pub fn read_fields<R: ReadSeek + Drop>(alloc: Global, picture: R) -> Result<Exif, Error>
    ensures reads { IfSome (R.remaining picture)
        (λ bytes. ReadsByNeed (raw_answer false None) (container_answer bytes) result) }
{
    Reader::new().read_by_need(alloc, &mut Seekable::new(picture))
}

/// What can be read of a damaged picture, and how many faults were skipped.
pub fn read_damaged<R: ReadSeek + Drop>(alloc: Global, file: R) -> Result<(Exif, usize), Error> {
    let mut reader = Reader::new();
    reader.continue_on_error(true);
    let mut faults = 0;
    let exif = match reader.read_from_container(alloc, &mut Seekable::new(file)) {
        Ok(exif) => exif,
        Err(error) => error.distill_partial_result(|errors| faults = errors.len())?,
    };
    Ok((exif, faults))
}

/// The fields of an untrusted picture. At most a thousand entries are visited, since a small file
/// can make a reader visit millions of them.
pub fn read_from_stranger<R: ReadSeek + Drop>(alloc: Global, picture: R) -> Result<Exif, Error>
    ensures few { IfOk result (λ exif. length exif.fields ≤ 1001) }
{
    let mut reader = Reader::new();
    reader.limit_entries(1000);
    reader.read_from_container(alloc, &mut Seekable::new(picture))
}

/// Prints the orientation of the picture in a file.
pub fn print_orientation(rt: &HostRuntime, path: &str) -> Result<(), Error> {
    let file = File::open(rt, path)?;
    let exif = Reader::new().read_from_container(rt.alloc(), &mut Seekable::new(file))?;
    if let Some(field) = exif.get_field(Tag::Orientation, In::PRIMARY) {
        println!(rt; "{}", field.display_value())?;
    }
    Ok(())
}

/// The orientation, 1 to 8: 1 is upright, 6 needs a turn clockwise.
pub fn orientation(exif: &Exif) -> Option<u32>
    ensures number { result ≡ number_of exif.now.fields Context.Tiff 0x112 }
{
    let field = exif.get_field(Tag::Orientation, In::PRIMARY)?;
    field.value.get_uint(0)
}

/// The width and the height in pixels.
pub fn size(exif: &Exif) -> Option<(u32, u32)>
    ensures width { IfSome result
        (λ size. number_of exif.now.fields Context.Exif 0xa002 ≡ Some size.0) }
    ensures height { IfSome result
        (λ size. number_of exif.now.fields Context.Exif 0xa003 ≡ Some size.1) }
{
    let width = exif.get_field(Tag::PixelXDimension, In::PRIMARY)?;
    let height = exif.get_field(Tag::PixelYDimension, In::PRIMARY)?;
    Some((width.value.get_uint(0)?, height.value.get_uint(0)?))
}

#[tactic(auto, unfolding(exif_reader::specs::Lines::field_line))]
/// A line for each field: its name, its directory, and its value with its unit.
pub fn field_lines(alloc: Global, exif: &Exif) -> Result<String, Error>
    ensures lines { IfOk result (λ lines. string_bytes lines
        ≡ flat_map (field_line exif.now.fields) exif.now.fields) }
{
    let mut lines = String::new(alloc);
    for field in exif.fields() {
        let value = field.display_value().with_unit(exif);
        if write!(lines, "{} {} {value}\n", field.tag, field.ifd_num).is_err() {
            return Err(Error::OutOfMemory);
        }
    }
    Ok(lines)
}

/// The JPEG stream of the thumbnail.
pub fn thumbnail(exif: &Exif) -> Option<&[u8]> {
    let offset = exif.get_field(Tag::JPEGInterchangeFormat, In::THUMBNAIL)?;
    let length = exif.get_field(Tag::JPEGInterchangeFormatLength, In::THUMBNAIL)?;
    let rest = exif.buf().get(offset.value.get_uint(0)? as usize..)?;
    rest.get(..length.value.get_uint(0)? as usize)
}

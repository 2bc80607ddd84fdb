//! The named fields of what was read, as Exif data of their own.

ghost use Rattle.std.specs.Prelude.{◌≡◌, false, OnOk, IfOk, IfErr, IfSome};
ghost use Rattle.std.specs.List.{list_any};
ghost use Rattle.std.specs.Option.{option_map};
ghost use Rattle.exif_base.specs.Orders.{order_named};
ghost use Rattle.exif_types.specs.Lookup.{tag_eq};
ghost use Rattle.exif_types.specs.Refusals.{Gives, IsInterrupted, is_io, is_io_error, refusal_of};
ghost use Rattle.exif_layout.specs.Rewriting.{pushed_all};
ghost use Rattle.exif_rewrite.specs.ScrubbedExif.{ReadsAs, is_wanted, scrubbed_answer, wanted};

use exif_base::Counted;
use exif_layout::is_own;
use exif_layout::laws::{images_hold_what_was_pushed, pushing_keeps};
use exif_types::{Error, Exif, Field, In, Tag, Value};
use exif_writer::Writer;
use std::alloc::Global;

/// What a picture needs to be shown upright: its orientation.
pub const UPRIGHT: &[Tag] = &[Tag::Orientation];

// Whether a tag is one of these.
fn is_among(tags: &[Tag], tag: Tag) -> bool
    ensures { result ≡ list_any (tag_eq tag) tags.now }
{
    tags.iter().any(|other| tag == *other)
}

// Whether a field is to be kept: it is one of the primary image, its tag is named, and a writer can
// write it.
fn is_wanted(keep: &[Tag], field: &Field) -> bool
    ensures { result ≡ is_wanted keep.now field.now }
{
    field.ifd_num == In::PRIMARY
        && is_among(keep, field.tag)
        && !is_own(field.tag)
        && !matches!(field.value, Value::Unknown(_, _, _))
}

// Pushes the fields that are to be kept, in their order, and answers whether there are some. The
// only error is out of memory.
fn push_wanted<'a>(writer: &mut Writer<'a>, exif: &'a Exif, keep: &[Tag]) -> Result<bool, Error>
    ensures pushed { OnOk result
        (writer.new ≡ pushed_all (wanted keep.now exif.now.fields) writer.old) }
    ensures some { IfOk result (λ some. some ≡ list_any (is_wanted keep.now) exif.now.fields) }
    ensures memory { IfErr result (λ e. e ≡ Error.OutOfMemory) }
{
    let mut some = false;
    for field in exif.fields() {
        if is_wanted(keep, field) {
            writer.push_field(field)?;
            some = true;
        }
    }
    Ok(some)
}

// The error of a call that wrote into memory: there a device's is out of memory.
fn in_memory(error: Error) -> Error
    ensures refusal { refusal_of result ≡ refusal_of error.entry }
    ensures interrupted { IsInterrupted error.entry → IsInterrupted result }
    ensures no_device { is_io_error result ≡ false }
{
    match error {
        Error::Io(_) => Error::OutOfMemory,
        other => other,
    }
}

/// Exif data that hold only the named tags of the primary image of what was read, in its byte
/// order, to be put in place of what is taken out of a file: with [`UPRIGHT`] the picture stays
/// upright. `None` where there is none of them: then there is nothing to put.
///
/// They are TIFF data, which are read, in both modes and without a fault, as exactly these fields,
/// in the order of their tags. A field of an unknown type is not kept, nor a tag that the writer
/// makes itself: the pointers, and the offsets and lengths of strips, tiles and thumbnails.
///
/// Refusals are those of `Writer::write` for these fields: more of them than a directory holds, or
/// data longer than 4,294,967,295 bytes. All else is out of memory.
pub fn scrubbed_exif(alloc: Global, exif: &Exif, keep: &[Tag]) -> Result<Option<Vec<u8>>, Error>
    ensures gives { Gives (option_map (λ v. v.items)) result
        (scrubbed_answer (order_named exif.now.little_endian) (wanted keep.now exif.now.fields)) }
    ensures read_back { IfOk result (λ made. IfSome made
        (λ v. ReadsAs (wanted keep.now exif.now.fields) v.items)) }
    ensures no_device { is_io result ≡ false }
{
    // The fields were read, and the laws of pushes say what their image is read back as.
    let _ = exif.fields();
    pushing_keeps();
    images_hold_what_was_pushed();
    let mut writer = Writer::new(alloc);
    let some = push_wanted(&mut writer, exif, keep)?;
    if !some {
        return Ok(None);
    }
    let mut out = Counted::new(Vec::new(alloc));
    match writer.write(&mut out, exif.little_endian()) {
        Ok(()) => Ok(Some(out.into_inner())),
        Err(error) => Err(in_memory(error)),
    }
}

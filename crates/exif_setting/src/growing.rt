//! Files with fields set in their Exif data, which become longer, or in new ones.

ghost use Rattle.std.specs.Prelude.{◌≡◌, OnOk, IfErr};
ghost use Rattle.exif_types.specs.Refusals.{Gives};
ghost use Rattle.exif_layout.specs.Rewriting.{pushed_all};
ghost use Rattle.exif_change.specs.Changed.{change_of};
ghost use Rattle.exif_setting.specs.Growing.{counted, created_for, created_in, grown_file, grown_in, item_moved, longest, longest_after, new_data, put, put_alone, replaced};
ghost use Rattle.exif_change.specs.Refusals.{Answers};

use crate::second::has_second;
use exif::experimental::Writer;
use exif::{Counted, Error, Field, Tag};
use exif_change::{Changed, Refusal, rewritten};
use exif_containers::container::Format;
use exif_containers::exif_attr_of_stream;
use exif_grow::{set_fields, with_data};
use exif_rewrite::Remove;
use std::alloc::Global;

/// The file with fields set in its Exif data by [`set_fields`], or in new Exif data if it has none.
#[tactic(auto, unfolding(crate::specs::Growing::grown_file))]
pub(crate) fn grown_file(
    alloc: Global,
    format: Format,
    fields: &[Field],
    file: &[u8],
) -> Result<Changed, Refusal>
    ensures { Answers change_of result (grown_file format fields.now file.now) }
{
    match exif_attr_of_stream(alloc, &mut Counted::new(file)) {
        Ok(old) => grown(alloc, format, fields, old.as_slice(), file),
        Err(Error::NotFound(what)) => created_for(alloc, format, what, fields, file),
        Err(error) => Err(Refusal::Reading(error)),
    }
}

// The file with fields set in the Exif data that it has.
fn grown(
    alloc: Global,
    format: Format,
    fields: &[Field],
    old: &[u8],
    file: &[u8],
) -> Result<Changed, Refusal>
    ensures { Answers change_of result (grown_in format fields.now old.now file.now) }
{
    match set_fields(alloc, old, fields) {
        Ok(data) => replaced(alloc, format, data, fields, file),
        Err(error) => Err(Refusal::Editing(error)),
    }
}

// The file, which has no Exif data, with new ones that hold fields. The `meta` of a HEIF file would
// have to grow.
fn created_for(
    alloc: Global,
    format: Format,
    what: &'static str,
    fields: &[Field],
    file: &[u8],
) -> Result<Changed, Refusal>
    ensures { Answers change_of result (created_for format what.now fields.now file.now) }
{
    match format {
        Format::Heif => Err(Refusal::Reading(Error::NotFound(what))),
        Format::Jpeg | Format::WebP | Format::Tiff => created(alloc, format, fields, file),
    }
}

// The file with new Exif data that hold fields.
fn created(alloc: Global, format: Format, fields: &[Field], file: &[u8]) -> Result<Changed, Refusal>
    ensures { Answers change_of result (created_in format fields.now file.now) }
{
    match new_data(alloc, fields) {
        Ok(data) => put(alloc, format, data.as_slice(), fields, file),
        Err(error) => Err(Refusal::Reading(error)),
    }
}

// The file with new Exif data in place of its own.
fn replaced(
    alloc: Global,
    format: Format,
    exif: Vec<u8>,
    fields: &[Field],
    file: &[u8],
) -> Result<Changed, Refusal>
    ensures { Answers change_of result
        (replaced format exif.items fields.now file.now) }
{
    match format {
        Format::Tiff => Ok(Changed::whole(alloc, exif)),
        Format::Jpeg | Format::WebP => { put_alone(alloc, format, exif.as_slice(), fields, file) }
        Format::Heif => item_moved(alloc, exif.as_slice(), file),
    }
}

// The HEIF file with new Exif data, whose item is put behind the file.
fn item_moved(alloc: Global, exif: &[u8], file: &[u8]) -> Result<Changed, Refusal>
    ensures { Answers change_of result (item_moved exif.now file.now) }
{
    match with_data(alloc, file, exif) {
        Ok(new) => Ok(Changed::whole(alloc, new)),
        Err(error) => Err(Refusal::Editing(error)),
    }
}

// The JPEG or WebP file with new Exif data in place of its own, unless it has others too, which
// would be lost.
fn put_alone(
    alloc: Global,
    format: Format,
    exif: &[u8],
    fields: &[Field],
    file: &[u8],
) -> Result<Changed, Refusal>
    ensures { Answers change_of result (put_alone format exif.now fields.now file.now) }
{
    let new = put(alloc, format, exif, fields, file)?;
    if has_second(alloc, format, file)? {
        return Err(Refusal::SecondExif);
    }
    Ok(new)
}

// The JPEG or WebP file with new Exif data, in which these fields were set. Data that are too long
// are refused with the name of the longest field.
fn put(
    alloc: Global,
    format: Format,
    exif: &[u8],
    fields: &[Field],
    file: &[u8],
) -> Result<Changed, Refusal>
    ensures { Answers change_of result (put format exif.now fields.now file.now) }
{
    match rewritten(alloc, format, file, Some(exif), Remove::Exif) {
        Ok(new) => Ok(new),
        Err(Error::TooBig(text)) => match longest(fields) {
            Some(tag) => Err(Refusal::TooLong(tag)),
            None => Err(Refusal::Reading(Error::TooBig(text))),
        },
        Err(error) => Err(Refusal::Reading(error)),
    }
}

// How many items a value has, if 32 bits hold the number.
fn counted(field: &Field) -> u32
    ensures { result ≡ counted field.now }
{
    field.value.count().unwrap_or(0)
}

// Of fields, the tag of the first one whose value has more items than a number, or another tag.
fn longest_after(fields: &[Field], tag: Tag, most: u32) -> Tag
    ensures { result ≡ longest_after fields.now tag most }
{
    let mut found = tag;
    let mut most = most;
    for field in fields {
        let count = counted(field);
        if most < count {
            found = field.tag;
            most = count;
        }
    }
    found
}

// The tag of the first field whose value has the most items.
fn longest(fields: &[Field]) -> Option<Tag>
    ensures { result ≡ longest fields.now }
{
    if fields.is_empty() {
        return None;
    }
    let most = counted(&fields[0]);
    Some(longest_after(&fields[1..], fields[0].tag, most))
}

/// New Exif data that hold these fields alone, big endian.
pub fn new_data(alloc: Global, fields: &[Field]) -> Result<Vec<u8>, Error>
    ensures { Gives (λ bytes. bytes.items) result (new_data fields.now) }
{
    let mut writer = Writer::new(alloc);
    push_all(&mut writer, fields)?;
    let mut out = Counted::new(Vec::new(alloc));
    writer.write(&mut out, false)?;
    Ok(out.into_inner())
}

// Pushes fields.
fn push_all<'a>(writer: &mut Writer<'a>, fields: &'a [Field]) -> Result<(), Error>
    ensures pushed { OnOk result (writer.new ≡ pushed_all fields.now writer.old) }
    ensures memory { IfErr result (λ e. e ≡ Error.OutOfMemory) }
{
    for field in fields {
        writer.push_field(field)?;
    }
    Ok(())
}

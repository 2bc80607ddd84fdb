//! Whether grown data read as before, with one more field.

ghost use Rattle.std.specs.Prelude.{◌≡◌, All, false, length, IfOk};
ghost use Rattle.exif_types.specs.FieldEq.{field_eq};
ghost use Rattle.exif_edit_base.specs.Causes.{Makes};
ghost use Rattle.exif_edit_base.specs.Patches.{FitsIn};
ghost use Rattle.exif_edit_base.specs.Readings.{read_of};
ghost use Rattle.exif_grow.specs.Growing.{added_of, grown};
ghost use Rattle.exif_grow.specs.Inserting.{first_with, is_only, is_with, read_without_offsets, reads_with};

use crate::growth::{Growth, grown};
use exif_edit::remove::drop_named;
use exif_edit_base::Error;
use exif_edit_base::find::is_named;
use exif_edit_base::read::{read, same_faults};
use exif_edit_base::reread::forget_entry_offsets;
use exif_tiff::stop::Stop;
use exif_tiff::tiff::Parsed;
use exif_types::{Field, In, Tag};
use std::alloc::{AllocError, Global};

// Whether two fields are the same.
fn is_same(a: &Field, b: &Field) -> bool
    ensures { result ≡ field_eq a.now b.now }
{
    a == b
}

// Whether a field is the only one of its name among fields.
fn is_only(fields: &[Field], tag: Tag, ifd_num: In, field: &Field) -> bool
    ensures { result ≡ is_only tag ifd_num field.now false fields.now }
{
    let mut seen = false;
    for other in fields {
        if is_named(other, tag, ifd_num) {
            if seen {
                return false;
            }
            if !is_same(other, field) {
                return false;
            }
            seen = true;
        }
    }
    seen
}

// Whether what was read is what was wanted, with one more field.
fn is_with(mut found: Parsed, tag: Tag, ifd_num: In, field: &Field, wanted: &Parsed) -> bool
    ensures { result ≡ is_with tag ifd_num field.now (read_of wanted.now) (read_of found) }
{
    if !is_only(found.fields.as_slice(), tag, ifd_num, field) {
        return false;
    }
    drop_named(&mut found.fields, tag, ifd_num);
    forget_entry_offsets(found.fields.as_mut_slice());
    found.little_endian == wanted.little_endian
        && found.fields.as_slice() == wanted.fields.as_slice()
        && same_faults(found.faults.as_slice(), wanted.faults.as_slice())
}

// Whether the grown data read as wanted, with one more field.
fn reads_with(
    alloc: Global,
    growth: &Growth,
    bytes: &[u8],
    tag: Tag,
    ifd_num: In,
    field: &Field,
    wanted: &Parsed,
) -> Result<bool, AllocError>
    requires { All (FitsIn (length bytes.now)) growth.now.patches.items }
    ensures { IfOk result (λ same. same ≡ reads_with tag ifd_num field.now (read_of wanted.now)
        (grown (added_of growth.now) bytes.now)) }
{
    let new = grown(alloc, growth, bytes)?;
    match read(alloc, new.as_slice()) {
        Ok(found) => Ok(is_with(found, tag, ifd_num, field, wanted)),
        Err(Stop::Fault(_)) => Ok(false),
        Err(Stop::OutOfMemory) => Err(AllocError),
    }
}

/// The first of two growths with which the data read as wanted, with one more field.
pub fn first_with(
    alloc: Global,
    bytes: &[u8],
    tag: Tag,
    ifd_num: In,
    field: &Field,
    wanted: &Parsed,
    first: Growth,
    second: Growth,
) -> Result<Growth, Error>
    requires first { All (FitsIn (length bytes.now)) first.patches.items }
    requires second { All (FitsIn (length bytes.now)) second.patches.items }
    ensures answer { Makes added_of result (first_with tag ifd_num field.now (read_of wanted.now)
        bytes.now (added_of first) (added_of second)) }
{
    if reads_with(alloc, &first, bytes, tag, ifd_num, field, wanted)? {
        return Ok(first);
    }
    if reads_with(alloc, &second, bytes, tag, ifd_num, field, wanted)? {
        return Ok(second);
    }
    Err(Error::SharedBytes)
}

/// What was read, without the offsets of small values, which are those of their entries.
pub fn without_offsets(mut parsed: Parsed) -> Parsed
    ensures { read_of result ≡ read_without_offsets (read_of parsed) }
{
    forget_entry_offsets(parsed.fields.as_mut_slice());
    parsed
}

//! A value set, whatever its length and wherever its field belongs.

ghost use Rattle.std.specs.Prelude.{◌≡◌, [], All, length, IfOk};
ghost use Rattle.exif_edit_base.specs.Causes.{Makes};
ghost use Rattle.exif_edit_base.specs.Patches.{FitsIn};
ghost use Rattle.exif_edit.specs.Promises.{FindsValue};
ghost use Rattle.exif_grow.specs.Growing.{added_of, grown};
ghost use Rattle.exif_grow.specs.Inserting.{insert_answer};
ghost use Rattle.exif_grow.specs.Promises.{IsGrown};
ghost use Rattle.exif_grow.specs.Setting.{else_created, grow_answer};

use crate::append::append_value;
use crate::create::create_value;
use crate::growth::Growth;
use crate::insert::insert_value;
use exif_edit::set::set_value_patches;
use exif_edit_base::Error;
use exif_types::{In, Tag, Value};
use std::alloc::Global;

// What puts a field into its directory, which is created where it is not found.
fn add_field(
    alloc: Global,
    bytes: &[u8],
    tag: Tag,
    ifd_num: In,
    value: &Value,
) -> Result<Growth, Error>
    ensures answer { Makes added_of result (else_created bytes.now tag ifd_num value.now
        (insert_answer bytes.now tag ifd_num value.now)) }
{
    match insert_value(alloc, bytes, tag, ifd_num, value) {
        Err(Error::NoDirectory) => create_value(alloc, bytes, tag, ifd_num, value),
        answer => answer,
    }
}

// What sets a value: the first of these ways that serves.
fn grow(alloc: Global, bytes: &[u8], tag: Tag, ifd_num: In, value: &Value) -> Result<Growth, Error>
    ensures answer { Makes added_of result (grow_answer bytes.now tag ifd_num value.now) }
{
    match set_value_patches(alloc, bytes, tag, ifd_num, value) {
        Ok(patches) => Ok(Growth {
            patches,
            tail: Vec::new(alloc),
        }),
        Err(Error::ValueTooLong | Error::SharedBytes) => {
            append_value(alloc, bytes, tag, ifd_num, value)
        }
        Err(Error::FieldNotFound) => add_field(alloc, bytes, tag, ifd_num, value),
        Err(error) => Err(error),
    }
}

/// Sets the value of a field, whatever its length: over the old value if it fits there, else by
/// [`append_value`]; a field that the data lack is put into its directory by
/// [`insert_value`](crate::insert_value), and a directory that they lack is created by
/// [`create_value`](crate::create_value). What the edit no longer needs becomes zeros, unless the
/// data would be read otherwise then.
///
/// Refusals are `NamesOffsets`, `UnknownType`, `Header`, `NoDirectory`, `FullDirectory`,
/// `ValueTooLong` (the new data would have 2^32 bytes or more) and `SharedBytes`. It takes the
/// memory of two readings, and three times that of the new data.
pub fn grow_value(
    alloc: Global,
    bytes: &[u8],
    tag: Tag,
    ifd_num: In,
    value: &Value,
) -> Result<Growth, Error>
    ensures answer { Makes added_of result (grow_answer bytes.now tag ifd_num value.now) }
    ensures within { IfOk result (λ g. All (FitsIn (length bytes.now)) g.patches.items) }
    ensures grown { IfOk result
        (λ g. IsGrown bytes.now tag ifd_num value.now (grown (added_of g) bytes.now)) }
    ensures found { IfOk result
        (λ g. FindsValue tag ifd_num value.now (grown (added_of g) bytes.now)) }
{
    grow(alloc, bytes, tag, ifd_num, value)
}

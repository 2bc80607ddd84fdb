//! A field put into a directory that the data lack: the directory that is to point at it is
//! appended anew with the pointer, and then the new directory.

ghost use Rattle.std.specs.Prelude.{◌≡◌, ◌≤◌, ◌<◌, ◌+◌, ◌*◌, ◌^◌, ◌++◌, ◌∷◌, [], All, length, IfErr, IfOk, OnOk};
ghost use Rattle.exif_base.specs.Orders.{order_named};
ghost use Rattle.exif_types.specs.ValueTypes.{count_of};
ghost use Rattle.exif_layout.specs.Encoding.{encode, spelled};
ghost use Rattle.exif_layout.specs.Refused.{is_unknown};
ghost use Rattle.exif_edit_base.specs.Causes.{Makes};
ghost use Rattle.exif_edit_base.specs.declared.error.Error.TheVariants as Failure;
ghost use Rattle.exif_edit_base.specs.Patches.{FitsIn};
ghost use Rattle.exif_edit_base.specs.Readings.{read_of};
ghost use Rattle.exif_edit.specs.Promises.{FindsValue};
ghost use Rattle.exif_edit.specs.Setting.{names_offsets};
ghost use Rattle.exif_grow.specs.Creating.{child_added, child_bytes, child_field, child_value_offset, create_answer, created, created_in, created_under, parent_of, pointer_entry};
ghost use Rattle.exif_grow.specs.Directories.{leading_in};
ghost use Rattle.exif_grow.specs.Growing.{added_of, aligned, grown};
ghost use Rattle.exif_grow.specs.Inserting.{directory_bytes, outer_bytes, read_without_offsets, slot_patch, span_of, value_offset};
ghost use Rattle.exif_grow.specs.Promises.{IsCreated};

use crate::append::{Encoded, value_patches};
use crate::directories::{Directory, directory_named, leading};
use crate::growth::{Growth, aligned};
use crate::insert::{
    add_outer, directory_bytes, encoded_at, new_entry, slot_patch, span_of, value_offset,
};
use crate::reread::{first_with, without_offsets};
use exif_base::Order;
use exif_edit::set::{moved, names_offsets};
use exif_edit::spell::is_unknown;
use exif_edit_base::Error;
use exif_edit_base::read::{order_named, read};
use exif_layout::item::{spelled_u16, spelled_u32};
use exif_tiff::tiff::Parsed;
use exif_types::{Context, Field, In, Tag, Value};
use std::alloc::{AllocError, Global};

/// What points at directories: a tag of the directories of a context.
#[derive(Clone, Copy, Debug)]
pub struct Parent {
    pub context: Context,
    pub tag: u16,
}

// What points at directories of a context.
fn parent_of(context: Context) -> Option<Parent>
    ensures { result ≡ parent_of context }
{
    match context {
        Context::Tiff => None,
        Context::Exif => Some(Parent {
            context: Context::Tiff,
            tag: 0x8769,
        }),
        Context::Gps => Some(Parent {
            context: Context::Tiff,
            tag: 0x8825,
        }),
        Context::Interop => Some(Parent {
            context: Context::Exif,
            tag: 0xa005,
        }),
    }
}

// ---- what is added

// An entry whose value is the offset of a directory.
fn pointer_entry(
    alloc: Global,
    order: Order,
    number: u16,
    offset: u32,
) -> Result<Vec<u8>, AllocError>
    ensures { IfOk result (λ v. v.items ≡ pointer_entry order number offset) }
{
    let mut entry = Vec::from_slice(alloc, &spelled_u16(order, number))?;
    entry.extend_from_slice(&spelled_u16(order, 4))?;
    entry.extend_from_slice(&spelled_u32(order, 1))?;
    entry.extend_from_slice(&spelled_u32(order, offset))?;
    Ok(entry)
}

// The bytes of a directory of one entry, which is the last of its chain.
fn child_bytes(alloc: Global, order: Order, entry: &[u8]) -> Result<Vec<u8>, AllocError>
    ensures { IfOk result (λ v. v.items ≡ child_bytes order entry.now) }
{
    let mut out = Vec::from_slice(alloc, &spelled_u16(order, 1))?;
    out.extend_from_slice(entry)?;
    out.extend_from_slice(&spelled_u32(order, 0))?;
    Ok(out)
}

// A directory of one entry, and the bytes of its value, unless the entry holds them.
fn child_and_value(
    alloc: Global,
    order: Order,
    entry: &[u8],
    encoded: &[u8],
) -> Result<Vec<u8>, AllocError>
    ensures { IfOk result
        (λ v. v.items ≡ child_bytes order entry.now ++ outer_bytes encoded.now) }
{
    let mut out = child_bytes(alloc, order, entry)?;
    add_outer(&mut out, encoded)?;
    Ok(out)
}

// What follows the data: the directory with the pointer, and these bytes.
fn child_tail(
    alloc: Global,
    order: Order,
    bytes: &[u8],
    directory: Directory,
    before: u16,
    pointer: &[u8],
    rest: &[u8],
) -> Result<Vec<u8>, AllocError>
    requires whole { directory.offset + 12 * directory.count + 6 ≤ length bytes.now }
    requires before { before ≤ directory.count }
    requires few { directory.count < 65535 }
    ensures { IfOk result (λ v. v.items ≡ aligned (length bytes.now)
        (directory_bytes order bytes.now directory before pointer.now ++ rest.now)) }
{
    let mut out = directory_bytes(alloc, order, bytes, directory, before, pointer)?;
    out.extend_from_slice(rest)?;
    aligned(alloc, bytes.len(), out.as_slice())
}

// The offset of the value in the new directory.
fn child_value_offset(directory: Directory, len: usize) -> usize
    requires { len < 2 ^ 32 }
    ensures { result ≡ child_value_offset directory len }
{
    value_offset(directory, len) + 18
}

// What is added for a field in a new directory, to which a tag of this one points.
fn child_growth(
    alloc: Global,
    clear: bool,
    order: Order,
    pointer: u16,
    number: u16,
    value: &Value,
    encoded: &Encoded,
    bytes: &[u8],
    directory: Directory,
) -> Result<Growth, AllocError>
    requires bytes { encoded.now.bytes.items ≡ encode order value.now }
    requires count { encoded.now.count ≡ count_of value.now }
    requires whole { directory.offset + 12 * directory.count + 6 ≤ length bytes.now }
    requires slot { directory.slot + 4 ≤ length bytes.now }
    requires few { directory.count < 65535 }
    requires small { length bytes.now < 2 ^ 32 }
    requires near { child_value_offset directory (length bytes.now) < 2 ^ 32 }
    ensures added { IfOk result (λ g. added_of g
        ≡ child_added clear order pointer number value.now bytes.now directory) }
    ensures within { IfOk result (λ g. All (FitsIn (length bytes.now)) g.patches.items) }
{
    let len = bytes.len();
    let offset = child_value_offset(directory, len) as u32;
    let entry = new_entry(alloc, order, number, value, encoded, offset)?;
    let rest = child_and_value(alloc, order, entry.as_slice(), encoded.bytes.as_slice())?;
    let child = value_offset(directory, len) as u32;
    let entry = pointer_entry(alloc, order, pointer, child)?;
    let before = leading(order, bytes, pointer, directory);
    let slot = slot_patch(alloc, order, directory, len)?;
    let (entry, rest) = (entry.as_slice(), rest.as_slice());
    Ok(Growth {
        patches: value_patches(alloc, clear, span_of(directory), slot)?,
        tail: child_tail(alloc, order, bytes, directory, before, entry, rest)?,
    })
}

// ---- the whole

// The new field.
fn child_field(
    alloc: Global,
    order: Order,
    tag: Tag,
    ifd_num: In,
    value: &Value,
    encoded: &[u8],
    directory: Directory,
    len: usize,
) -> Result<Field, Error>
    requires bytes { encoded.now ≡ encode order value.now }
    requires small { len < 2 ^ 32 }
    requires near { child_value_offset directory len < 2 ^ 32 }
    ensures field { IfOk result
        (λ f. f ≡ child_field order tag ifd_num value.now directory len) }
    ensures memory { IfErr result (λ e. e ≡ Failure.OutOfMemory) }
{
    let offset = if encoded.len() <= 4 {
        value_offset(directory, len) + 10
    } else {
        child_value_offset(directory, len)
    };
    let value = moved(alloc, value, offset as u32)?;
    Ok(Field {
        tag,
        ifd_num,
        value,
    })
}

// What puts a field into a new directory, to which a tag of this one is to point.
fn create_in(
    alloc: Global,
    bytes: &[u8],
    tag: Tag,
    ifd_num: In,
    value: &Value,
    parsed: Parsed,
    pointer: u16,
    directory: Directory,
) -> Result<Growth, Error>
    requires small { length bytes.now < 2 ^ 32 }
    ensures answer { Makes added_of result
        (created_in tag ifd_num value.now bytes.now (read_of parsed) pointer directory) }
{
    let order = order_named(parsed.little_endian);
    let len = bytes.len();
    let offset = child_value_offset(directory, len);
    let encoded = encoded_at(alloc, order, value, directory, offset, len)?;
    let number = tag.1;
    let cleared = child_growth(
        alloc, true, order, pointer, number, value, &encoded, bytes, directory,
    )?;
    let kept = child_growth(
        alloc, false, order, pointer, number, value, &encoded, bytes, directory,
    )?;
    let encoded = encoded.bytes.as_slice();
    let field = child_field(alloc, order, tag, ifd_num, value, encoded, directory, len)?;
    let wanted = without_offsets(parsed);
    first_with(alloc, bytes, tag, ifd_num, &field, &wanted, cleared, kept)
}

// The same, where the directory that is to point at it is found.
fn create_under(
    alloc: Global,
    bytes: &[u8],
    tag: Tag,
    ifd_num: In,
    value: &Value,
    parsed: Parsed,
    order: Order,
    parent: Parent,
) -> Result<Growth, Error>
    requires header { 8 ≤ length bytes.now }
    requires small { length bytes.now < 2 ^ 32 }
    requires order { order ≡ order_named parsed.little_endian }
    ensures answer { Makes added_of result
        (created_under tag ifd_num value.now bytes.now (read_of parsed) parent) }
{
    match directory_named(order, bytes, parent.context, ifd_num) {
        None => Err(Error::NoDirectory),
        Some(directory) => create_in(
            alloc, bytes, tag, ifd_num, value, parsed, parent.tag, directory,
        ),
    }
}

// What puts a field into a new directory of its name.
fn create(
    alloc: Global,
    bytes: &[u8],
    tag: Tag,
    ifd_num: In,
    value: &Value,
) -> Result<Growth, Error>
    ensures answer { Makes added_of result (created bytes.now tag ifd_num value.now) }
    ensures small { OnOk result (length bytes.now < 2 ^ 32) }
{
    let parsed = read(alloc, bytes)?;
    let order = order_named(parsed.little_endian);
    match parent_of(tag.0) {
        None => Err(Error::NoDirectory),
        Some(parent) => create_under(alloc, bytes, tag, ifd_num, value, parsed, order, parent),
    }
}

/// Puts a field into an Exif, GPS or interoperability directory that the data lack. The directory
/// that is to point at it is appended at an even offset, with the pointer in the order of tags;
/// then the new directory, and the value if it has more than four bytes. The old directory becomes
/// zeros, unless the data would be read otherwise then.
///
/// Refusals are `NamesOffsets`, `UnknownType`, `Header`, `NoDirectory` (there is none that would
/// point at it), `FullDirectory`, `ValueTooLong` (the new data would have 2^32 bytes or more) and
/// `SharedBytes`. It takes the memory of two readings, and three times that of the new data.
pub fn create_value(
    alloc: Global,
    bytes: &[u8],
    tag: Tag,
    ifd_num: In,
    value: &Value,
) -> Result<Growth, Error>
    ensures answer { Makes added_of result (create_answer bytes.now tag ifd_num value.now) }
    ensures within { IfOk result (λ g. All (FitsIn (length bytes.now)) g.patches.items) }
    ensures created { IfOk result
        (λ g. IsCreated bytes.now tag ifd_num value.now (grown (added_of g) bytes.now)) }
    ensures found { IfOk result
        (λ g. FindsValue tag ifd_num value.now (grown (added_of g) bytes.now)) }
{
    if names_offsets(tag) {
        return Err(Error::NamesOffsets);
    }
    if is_unknown(value) {
        return Err(Error::UnknownType);
    }
    create(alloc, bytes, tag, ifd_num, value)
}

//! A field put into a directory that has none of its name: the directory is appended anew with it.

ghost use Rattle.std.specs.Prelude.{◌≡◌, ◌≤◌, ◌<◌, ◌+◌, ◌-◌, ◌*◌, ◌^◌, ◌++◌, ◌∷◌, [], All, length, IfErr, IfOk, OnOk};
ghost use Rattle.exif_base.specs.Orders.{number_of};
ghost use Rattle.exif_types.specs.ValueTypes.{count_of};
ghost use Rattle.exif_layout.specs.Encoding.{encode, spelled};
ghost use Rattle.exif_layout.specs.Offsets.{even};
ghost use Rattle.exif_layout.specs.Refused.{is_unknown};
ghost use Rattle.exif_edit_base.specs.Causes.{Makes};
ghost use Rattle.exif_edit_base.specs.declared.error.Error.TheVariants as Failure;
ghost use Rattle.exif_edit_base.specs.Patches.{FitsIn};
ghost use Rattle.exif_edit_base.specs.Readings.{read_of};
ghost use Rattle.exif_edit.specs.Promises.{FindsValue};
ghost use Rattle.exif_edit.specs.Setting.{names_offsets};
ghost use Rattle.exif_grow.specs.Directories.{leading_in};
ghost use Rattle.exif_grow.specs.Growing.{added_of, aligned, grown};
ghost use Rattle.exif_grow.specs.Inserting.{directory_bytes, directory_fault, entry_offset, field_added, first_with, insert_answer, inserted, inserted_in, new_entry, new_field, outer_bytes, read_without_offsets, slot_patch, span_of, value_offset};
ghost use Rattle.exif_grow.specs.Promises.{IsInserted};

use crate::append::{Encoded, value_patches};
use crate::directories::{Directory, directory_named, leading};
use crate::growth::{Growth, aligned, even};
use crate::reread::{first_with, without_offsets};
use exif_base::{Items, Order};
use exif_edit::set::{moved, names_offsets};
use exif_edit::spell::{encode, entry_bytes, is_unknown};
use exif_edit_base::Error;
use exif_edit_base::patch::{Patch, Span};
use exif_edit_base::read::{order_named, read};
use exif_layout::item::{spelled_u16, spelled_u32};
use exif_tiff::tiff::Parsed;
use exif_types::{Field, In, Tag, Value};
use std::alloc::{AllocError, Global};

// ---- what is added

/// An entry of a tag, with a value whose bytes are at an offset.
pub fn new_entry(
    alloc: Global,
    order: Order,
    number: u16,
    value: &Value,
    encoded: &Encoded,
    offset: u32,
) -> Result<Vec<u8>, AllocError>
    requires bytes { encoded.now.bytes.items ≡ encode order value.now }
    requires count { encoded.now.count ≡ count_of value.now }
    ensures { IfOk result (λ v. v.items ≡ new_entry order number value.now offset) }
{
    let mut entry = Vec::from_slice(alloc, &spelled_u16(order, number))?;
    let rest = entry_bytes(
        alloc,
        order,
        value,
        encoded.count,
        offset,
        encoded.bytes.as_slice(),
    )?;
    entry.extend_from_slice(rest.as_slice())?;
    Ok(entry)
}

/// The bytes of a directory with one more entry, after `before` of its own.
pub fn directory_bytes(
    alloc: Global,
    order: Order,
    bytes: &[u8],
    directory: Directory,
    before: u16,
    entry: &[u8],
) -> Result<Vec<u8>, AllocError>
    requires whole { directory.offset + 12 * directory.count + 6 ≤ length bytes.now }
    requires before { before ≤ directory.count }
    requires few { directory.count < 65535 }
    ensures { IfOk result
        (λ v. v.items ≡ directory_bytes order bytes.now directory before entry.now) }
{
    let first = directory.offset as usize + 2;
    let at = first + 12 * before as usize;
    let end = at + (12 * (directory.count - before) as usize + 4);
    let mut out = Vec::from_slice(alloc, &spelled_u16(order, directory.count + 1))?;
    out.extend_from_slice(&bytes[first..at])?;
    out.extend_from_slice(entry)?;
    out.extend_from_slice(&bytes[at..end])?;
    Ok(out)
}

/// Adds the bytes of a value, unless its entry holds them.
pub fn add_outer(out: &mut Vec<u8>, encoded: &[u8]) -> Result<(), AllocError>
    ensures { OnOk result (out.new.items ≡ out.old.items ++ outer_bytes encoded.now) }
{
    if encoded.len() > 4 {
        out.extend_from_slice(encoded)?;
    }
    Ok(())
}

// What follows the data: the directory with the entry, and the value.
fn field_tail(
    alloc: Global,
    order: Order,
    bytes: &[u8],
    directory: Directory,
    before: u16,
    entry: &[u8],
    encoded: &[u8],
) -> Result<Vec<u8>, AllocError>
    requires whole { directory.offset + 12 * directory.count + 6 ≤ length bytes.now }
    requires before { before ≤ directory.count }
    requires few { directory.count < 65535 }
    ensures { IfOk result (λ v. v.items ≡ aligned (length bytes.now)
        (directory_bytes order bytes.now directory before entry.now ++ outer_bytes encoded.now)) }
{
    let mut out = directory_bytes(alloc, order, bytes, directory, before, entry)?;
    add_outer(&mut out, encoded)?;
    aligned(alloc, bytes.len(), out.as_slice())
}

/// Makes the offset of a directory that of one that is appended to data of this length.
pub fn slot_patch(
    alloc: Global,
    order: Order,
    directory: Directory,
    len: usize,
) -> Result<Patch, AllocError>
    requires { even len < 2 ^ 32 }
    ensures { IfOk result (λ p. p ≡ slot_patch order directory len) }
{
    let encoded = Vec::from_slice(alloc, &spelled_u32(order, even(len) as u32))?;
    Ok(Patch {
        offset: directory.slot as u64,
        bytes: Items::from_vec(encoded),
    })
}

/// The offset of what follows a directory with one more entry that is appended to data of this
/// length.
pub fn value_offset(directory: Directory, len: usize) -> usize
    requires { len < 2 ^ 32 }
    ensures { result ≡ value_offset directory len }
{
    even(len) + 12 * directory.count as usize + 18
}

/// The bytes of a directory.
pub fn span_of(directory: Directory) -> Span
    ensures { result ≡ span_of directory }
{
    Span {
        offset: directory.offset,
        len: 12 * directory.count as usize + 6,
    }
}

// What is added for a field in a directory.
fn field_growth(
    alloc: Global,
    clear: bool,
    order: Order,
    number: u16,
    value: &Value,
    encoded: &Encoded,
    bytes: &[u8],
    directory: Directory,
) -> Result<Growth, AllocError>
    requires bytes { encoded.now.bytes.items ≡ encode order value.now }
    requires count { encoded.now.count ≡ count_of value.now }
    requires whole { directory.offset + 12 * directory.count + 6 ≤ length bytes.now }
    requires slot { directory.slot + 4 ≤ length bytes.now }
    requires few { directory.count < 65535 }
    requires small { length bytes.now < 2 ^ 32 }
    requires near { value_offset directory (length bytes.now) < 2 ^ 32 }
    ensures added { IfOk result
        (λ g. added_of g ≡ field_added clear order number value.now bytes.now directory) }
    ensures within { IfOk result (λ g. All (FitsIn (length bytes.now)) g.patches.items) }
{
    let offset = value_offset(directory, bytes.len()) as u32;
    let entry = new_entry(alloc, order, number, value, encoded, offset)?;
    let entry = entry.as_slice();
    let before = leading(order, bytes, number, directory);
    let slot = slot_patch(alloc, order, directory, bytes.len())?;
    let encoded = encoded.bytes.as_slice();
    Ok(Growth {
        patches: value_patches(alloc, clear, span_of(directory), slot)?,
        tail: field_tail(alloc, order, bytes, directory, before, entry, encoded)?,
    })
}

// ---- the whole

/// A value that can be stored at an offset, for a directory that is appended to data of this
/// length.
pub fn encoded_at(
    alloc: Global,
    order: Order,
    value: &Value,
    directory: Directory,
    offset: usize,
    len: usize,
) -> Result<Encoded, Error>
    requires { offset < 2 ^ 40 }
    ensures answer { Makes (λ (e : Encoded). tt) result
        (directory_fault order value.now directory offset len) }
    ensures bytes { IfOk result (λ e. e.bytes.items ≡ encode order value.now) }
    ensures count { IfOk result (λ e. e.count ≡ count_of value.now) }
    ensures slot { OnOk result (directory.slot + 4 ≤ len) }
    ensures whole { OnOk result (directory.offset + 12 * directory.count + 6 ≤ len) }
    ensures few { OnOk result (directory.count < 65535) }
    ensures near { OnOk result (offset < 2 ^ 32) }
{
    if len < directory.slot as usize + 4 {
        return Err(Error::SharedBytes);
    }
    if len < directory.offset as usize + 12 * directory.count as usize + 6 {
        return Err(Error::SharedBytes);
    }
    if directory.count > 65534 {
        return Err(Error::FullDirectory);
    }
    let Some(count) = value.count() else {
        return Err(Error::ValueTooLong);
    };
    let bytes = encode(alloc, order, value)?;
    if bytes.len() > u32::MAX as usize || offset + bytes.len() > u32::MAX as usize {
        return Err(Error::ValueTooLong);
    }
    Ok(Encoded { count, bytes })
}

// The new field, whose entry is after `before` others.
fn new_field(
    alloc: Global,
    order: Order,
    tag: Tag,
    ifd_num: In,
    value: &Value,
    encoded: &[u8],
    directory: Directory,
    before: u16,
    len: usize,
) -> Result<Field, Error>
    requires bytes { encoded.now ≡ encode order value.now }
    requires before { before ≤ directory.count }
    requires small { len < 2 ^ 32 }
    requires near { value_offset directory len < 2 ^ 32 }
    ensures field { IfOk result
        (λ f. f ≡ new_field order tag ifd_num value.now directory before len) }
    ensures memory { IfErr result (λ e. e ≡ Failure.OutOfMemory) }
{
    let offset = if encoded.len() <= 4 {
        even(len) + 2 + 12 * before as usize + 8
    } else {
        value_offset(directory, len)
    };
    let value = moved(alloc, value, offset as u32)?;
    Ok(Field {
        tag,
        ifd_num,
        value,
    })
}

// What puts a field into a directory.
fn insert_in(
    alloc: Global,
    bytes: &[u8],
    tag: Tag,
    ifd_num: In,
    value: &Value,
    parsed: Parsed,
    directory: Directory,
) -> Result<Growth, Error>
    requires small { length bytes.now < 2 ^ 32 }
    ensures answer { Makes added_of result
        (inserted_in tag ifd_num value.now bytes.now (read_of parsed) directory) }
{
    let order = order_named(parsed.little_endian);
    let len = bytes.len();
    let offset = value_offset(directory, len);
    let encoded = encoded_at(alloc, order, value, directory, offset, len)?;
    let number = tag.1;
    let cleared = field_growth(
        alloc, true, order, number, value, &encoded, bytes, directory,
    )?;
    let kept = field_growth(
        alloc, false, order, number, value, &encoded, bytes, directory,
    )?;
    let before = leading(order, bytes, number, directory);
    let encoded = encoded.bytes.as_slice();
    let field = new_field(
        alloc, order, tag, ifd_num, value, encoded, directory, before, len,
    )?;
    let wanted = without_offsets(parsed);
    first_with(alloc, bytes, tag, ifd_num, &field, &wanted, cleared, kept)
}

// What puts a field into the directory of its name.
fn insert(
    alloc: Global,
    bytes: &[u8],
    tag: Tag,
    ifd_num: In,
    value: &Value,
) -> Result<Growth, Error>
    ensures answer { Makes added_of result (inserted bytes.now tag ifd_num value.now) }
    ensures small { OnOk result (length bytes.now < 2 ^ 32) }
{
    let parsed = read(alloc, bytes)?;
    let order = order_named(parsed.little_endian);
    match directory_named(order, bytes, tag.0, ifd_num) {
        None => Err(Error::NoDirectory),
        Some(directory) => insert_in(alloc, bytes, tag, ifd_num, value, parsed, directory),
    }
}

/// Puts a field into a directory that has none of its name. The directory is appended at an even
/// offset, with the new entry in the order of tags and all other entries as they are; then the
/// value, if it has more than four bytes. The old directory becomes zeros, unless the data would be
/// read otherwise then.
///
/// Refusals are `NamesOffsets`, `UnknownType`, `Header`, `NoDirectory`, `FullDirectory`,
/// `ValueTooLong` (the new data would have 2^32 bytes or more) and `SharedBytes`, which a field
/// that is there already gets too. It takes the memory of two readings, and three times that of the
/// new data.
pub fn insert_value(
    alloc: Global,
    bytes: &[u8],
    tag: Tag,
    ifd_num: In,
    value: &Value,
) -> Result<Growth, Error>
    ensures answer { Makes added_of result (insert_answer bytes.now tag ifd_num value.now) }
    ensures within { IfOk result (λ g. All (FitsIn (length bytes.now)) g.patches.items) }
    ensures inserted { IfOk result
        (λ g. IsInserted bytes.now tag ifd_num value.now (grown (added_of g) bytes.now)) }
    ensures found { IfOk result
        (λ g. FindsValue tag ifd_num value.now (grown (added_of g) bytes.now)) }
{
    if names_offsets(tag) {
        return Err(Error::NamesOffsets);
    }
    if is_unknown(value) {
        return Err(Error::UnknownType);
    }
    insert(alloc, bytes, tag, ifd_num, value)
}

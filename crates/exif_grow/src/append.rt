//! The value of a field replaced by one that is appended to the data.

ghost use Rattle.std.specs.Prelude.{◌≡◌, ◌≤◌, ◌<◌, ◌+◌, ◌^◌, ◌++◌, ◌∷◌, [], All, length, IfOk, OnOk};
ghost use Rattle.exif_base.specs.Orders.{number_of};
ghost use Rattle.exif_types.specs.ValueTypes.{count_of};
ghost use Rattle.exif_layout.specs.Encoding.{encode};
ghost use Rattle.exif_layout.specs.Offsets.{even};
ghost use Rattle.exif_layout.specs.Refused.{is_unknown};
ghost use Rattle.exif_edit.specs.Promises.{FindsValue};
ghost use Rattle.exif_edit_base.specs.Causes.{Makes};
ghost use Rattle.exif_edit_base.specs.Patches.{FitsIn};
ghost use Rattle.exif_edit_base.specs.Finding.{IsLastAt};
ghost use Rattle.exif_edit_base.specs.Readings.{read_of};
ghost use Rattle.exif_edit_base.specs.Spans.{value_space};
ghost use Rattle.exif_edit.specs.Setting.{is_small, names_offsets, set_offset};
ghost use Rattle.exif_grow.specs.Appending.{append_answer, append_fault, appended, appended_at, entry_patch, span_cleared, value_added, value_tail};
ghost use Rattle.exif_grow.specs.Growing.{added_of, grown};
ghost use Rattle.exif_grow.specs.Promises.{IsAppended};

use crate::growth::{Growth, aligned, even, first_read};
use exif_base::{Items, Order};
use exif_edit::set::{moved, names_offsets, set_field};
use exif_edit::spell::{encode, entry_bytes, is_unknown};
use exif_edit_base::Error;
use exif_edit_base::find::{Found, find};
use exif_edit_base::patch::{Patch, Span, zeros};
use exif_edit_base::read::order_named;
use exif_edit_base::spans::value_space;
use exif_types::{In, Tag, Value};
use std::alloc::{AllocError, Global};

// What follows data of this length: the bytes of a value, unless its entry holds them.
fn value_tail(alloc: Global, len: usize, encoded: &[u8]) -> Result<Vec<u8>, AllocError>
    ensures { IfOk result (λ v. v.items ≡ value_tail len encoded.now) }
{
    if encoded.len() <= 4 {
        Ok(Vec::new(alloc))
    } else {
        aligned(alloc, len, encoded)
    }
}

// What puts a value, whose bytes are at an offset, into the entry at another.
fn entry_patch(
    alloc: Global,
    order: Order,
    value: &Value,
    count: u32,
    entry: u32,
    offset: u32,
    encoded: &[u8],
) -> Result<Patch, AllocError>
    requires bytes { encoded.now ≡ encode order value.now }
    requires count { count ≡ count_of value.now }
    ensures { IfOk result (λ p. p ≡ entry_patch order value.now entry offset) }
{
    let encoded = entry_bytes(alloc, order, value, count, offset, encoded)?;
    Ok(Patch {
        offset: entry as u64 + 2,
        bytes: Items::from_vec(encoded),
    })
}

/// Two patches: zeros over a span, if it is to be cleared, and another one.
pub fn value_patches(
    alloc: Global,
    clear: bool,
    span: Span,
    entry: Patch,
) -> Result<Vec<Patch>, AllocError>
    ensures { IfOk result (λ ps. ps.items ≡ span_cleared clear span ++ entry ∷ []) }
{
    let mut patches = Vec::with_capacity(alloc, 2)?;
    if clear {
        patches.push(zeros(alloc, span)?)?;
    }
    patches.push(entry)?;
    Ok(patches)
}

/// A value as TIFF data hold it: how many items it has, and its bytes.
#[derive(Drop)]
pub struct Encoded {
    pub count: u32,
    pub bytes: Vec<u8>,
}

// A value that can be appended to data of this length, for an entry whose old value has this span.
fn encoded_for(
    alloc: Global,
    order: Order,
    value: &Value,
    entry: u32,
    span: Span,
    len: usize,
) -> Result<Encoded, Error>
    requires near { span.offset < 2 ^ 32 }
    requires bound { span.len < 2 ^ 36 }
    requires small { len < 2 ^ 32 }
    requires within { entry + 12 ≤ len }
    ensures answer { Makes (λ (e : Encoded). tt) result
        (append_fault order value.now entry span len) }
    ensures bytes { IfOk result (λ e. e.bytes.items ≡ encode order value.now) }
    ensures count { IfOk result (λ e. e.count ≡ count_of value.now) }
    ensures far { OnOk result (span.offset + span.len ≤ len) }
    ensures fits { IfOk result (λ e. even len + length e.bytes.items < 2 ^ 32) }
{
    if len < span.offset as usize + span.len {
        return Err(Error::SharedBytes);
    }
    let Some(count) = value.count() else {
        return Err(Error::ValueTooLong);
    };
    let bytes = encode(alloc, order, value)?;
    if bytes.len() > u32::MAX as usize - 1 || even(len) + bytes.len() > u32::MAX as usize {
        return Err(Error::ValueTooLong);
    }
    Ok(Encoded { count, bytes })
}

// What appends a value to data of this length, for the entry at an offset.
fn growth(
    alloc: Global,
    clear: bool,
    order: Order,
    value: &Value,
    encoded: &Encoded,
    entry: u32,
    span: Span,
    len: usize,
) -> Result<Growth, AllocError>
    requires bytes { encoded.now.bytes.items ≡ encode order value.now }
    requires count { encoded.now.count ≡ count_of value.now }
    requires within { entry + 12 ≤ len }
    requires far { span.offset + span.len ≤ len }
    requires small { even len + length encoded.now.bytes.items < 2 ^ 32 }
    ensures added { IfOk result
        (λ g. added_of g ≡ value_added clear order value.now entry span len) }
    ensures within { IfOk result (λ g. All (FitsIn len) g.patches.items) }
{
    let bytes = encoded.bytes.as_slice();
    let offset = even(len) as u32;
    let entry = entry_patch(alloc, order, value, encoded.count, entry, offset, bytes)?;
    Ok(Growth {
        patches: value_patches(alloc, clear, span, entry)?,
        tail: value_tail(alloc, len, bytes)?,
    })
}

// Where a value is stored that is appended to data of this length.
fn offset_of(entry: u32, len: usize, encoded: &[u8]) -> u32
    requires entry { entry + 12 ≤ len }
    requires small { even len + length encoded.now < 2 ^ 32 }
    ensures { result ≡ set_offset (even len) entry encoded.now }
{
    if encoded.len() <= 4 {
        entry + 8
    } else {
        even(len) as u32
    }
}

// What replaces the value of the field that was found.
fn append_at(
    alloc: Global,
    bytes: &[u8],
    tag: Tag,
    ifd_num: In,
    value: &Value,
    found: Found,
) -> Result<Growth, Error>
    requires last { IsLastAt tag ifd_num found.parsed.fields.items found.index }
    requires small { length bytes.now < 2 ^ 32 }
    ensures answer { Makes added_of result
        (appended_at tag ifd_num value.now found.entry bytes.now (read_of found.parsed)) }
{
    let entry = found.entry;
    let len = bytes.len();
    if len < entry as usize + 12 {
        return Err(Error::SharedBytes);
    }
    let mut wanted = found.parsed;
    let order = order_named(wanted.little_endian);
    let span = value_space(order, bytes, entry);
    let encoded = encoded_for(alloc, order, value, entry, span, len)?;
    let cleared = growth(alloc, true, order, value, &encoded, entry, span, len)?;
    let kept = growth(alloc, false, order, value, &encoded, entry, span, len)?;
    let moved = moved(
        alloc,
        value,
        offset_of(entry, len, encoded.bytes.as_slice()),
    )?;
    set_field(&mut wanted.fields, found.index, moved, tag, ifd_num);
    first_read(alloc, bytes, &wanted, cleared, kept)
}

/// Replaces the value of the last field of a name by one of any length: its bytes are appended at
/// an even offset, or are in the entry if they are at most four. The old value becomes zeros,
/// unless the data would be read otherwise then.
///
/// Refusals are `NamesOffsets`, `UnknownType`, `Header`, `FieldNotFound`, `ValueTooLong` (the new
/// data would have 2^32 bytes or more) and `SharedBytes`. It takes the memory of two readings, and
/// three times that of the new data.
pub fn append_value(
    alloc: Global,
    bytes: &[u8],
    tag: Tag,
    ifd_num: In,
    value: &Value,
) -> Result<Growth, Error>
    ensures answer { Makes added_of result (append_answer bytes.now tag ifd_num value.now) }
    ensures within { IfOk result (λ g. All (FitsIn (length bytes.now)) g.patches.items) }
    ensures appended { IfOk result
        (λ g. IsAppended bytes.now tag ifd_num value.now (grown (added_of g) bytes.now)) }
    ensures found { IfOk result
        (λ g. FindsValue tag ifd_num value.now (grown (added_of g) bytes.now)) }
{
    if names_offsets(tag) {
        return Err(Error::NamesOffsets);
    }
    if is_unknown(value) {
        return Err(Error::UnknownType);
    }
    let found = find(alloc, bytes, tag, ifd_num)?;
    append_at(alloc, bytes, tag, ifd_num, value, found)
}

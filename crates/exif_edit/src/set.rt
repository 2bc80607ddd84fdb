//! One value put over another.

ghost use Rattle.std.specs.Prelude.{◌≡◌, ◌≢◌, ◌≤◌, ◌<◌, ◌+◌, ◌*◌, ◌^◌, All, [], ◌∷◌, max, length, true, false, Ok, IfOk, IfErr, OnOk};
ghost use Rattle.exif_base.specs.Orders.{number_of};
ghost use Rattle.exif_tiff.specs.Trace.{header};
ghost use Rattle.exif_edit_base.specs.Walked.{Finds};
ghost use Rattle.exif_types.specs.Sound.{HasPlainTexts};
ghost use Rattle.exif_types.specs.ValueTypes.{count_of};
ghost use Rattle.exif_types.specs.declared.error.Error.TheVariants as Failure;
ghost use Rattle.exif_layout.specs.Encoding.{encode, moved_to};
ghost use Rattle.exif_layout.specs.Ranged.{IsRanged};
ghost use Rattle.exif_layout.specs.Refused.{is_unknown};
ghost use Rattle.exif_edit_base.specs.Causes.{Makes};
ghost use Rattle.exif_edit_base.specs.EntryLimit.{limited};
ghost use Rattle.exif_edit_base.specs.Finding.{IsLastAt, replaced};
ghost use Rattle.exif_edit_base.specs.Patches.{FitsIn};
ghost use Rattle.exif_edit_base.specs.Plans.{Plans};
ghost use Rattle.exif_edit_base.specs.Spans.{value_space};
ghost use Rattle.exif_edit.specs.Setting.{checked_patches, names_offsets, space_patches, set_patches, set_offset, value_answer, value_patches};
ghost use Rattle.exif_edit.specs.Sharing.{names_child, is_unshared};
ghost use Rattle.exif_edit.specs.declared.set.Edit.{Edit};

use crate::alone::is_unshared;
use crate::spell::{encode, entry_bytes, is_unknown};
use exif_base::{Items, Order};
use exif_edit_base::Error;
use exif_edit_base::find::{Found, find_within};
use exif_edit_base::limit::check_limit;
use exif_edit_base::patch::{Patch, Span, padded};
use exif_edit_base::plan::{Plan, Wanted, try_on_copy};
use exif_edit_base::read::order_named;
use exif_edit_base::spans::value_space;
use exif_layout::show_value_fits;
use exif_types::{Context, Field, FieldType, In, Tag, Value};
use std::alloc::{AllocError, Global};

/// What sets a value, and the offset of the value then.
#[derive(Drop)]
struct Edit {
    patches: Vec<Patch>,
    offset: u32,
}

/// Whether the values of a tag are offsets or lengths of other bytes.
pub fn names_offsets(tag: Tag) -> bool
    ensures { result ≡ names_offsets tag }
{
    match tag.0 {
        Context::Tiff => matches!(
            tag.1,
            0x111
                | 0x117
                | 0x120
                | 0x121
                | 0x144
                | 0x145
                | 0x14a
                | 0x201
                | 0x202
                | 0x207
                | 0x208
                | 0x209
                | 0x8769
                | 0x8825
        ),
        Context::Exif => tag.1 == 0xa005,
        Context::Gps | Context::Interop => false,
    }
}

// What is put over the old value, where it was outside of its entry.
fn space_patches(alloc: Global, space: Span, encoded: &[u8]) -> Result<Vec<Patch>, AllocError>
    requires { length encoded.now ≤ max 4 space.len }
    ensures { IfOk result (λ ps. ps.items ≡ space_patches space encoded.now) }
{
    let mut patches = Vec::with_capacity(alloc, 2)?;
    if space.len == 0 {
        return Ok(patches);
    }
    let none: &[u8] = &[];
    let encoded = padded(
        alloc,
        space.len,
        if encoded.len() <= 4 { none } else { encoded },
    )?;
    patches.push(Patch {
        offset: space.offset as u64,
        bytes: Items::from_vec(encoded),
    })?;
    Ok(patches)
}

// What puts a value, whose bytes are these, over the value of an entry that has this space.
fn value_patches(
    alloc: Global,
    order: Order,
    value: &Value,
    count: u32,
    entry: u32,
    space: Span,
    encoded: &[u8],
) -> Result<Vec<Patch>, AllocError>
    requires encoded { encoded.now ≡ encode order value.now }
    requires count { count ≡ count_of value.now }
    requires fits { length encoded.now ≤ max 4 space.len }
    ensures { IfOk result (λ ps. ps.items ≡ value_patches order value.now entry space) }
{
    let mut patches = space_patches(alloc, space, encoded)?;
    let encoded = entry_bytes(alloc, order, value, count, space.offset, encoded)?;
    patches.push(Patch {
        offset: entry as u64 + 2,
        bytes: Items::from_vec(encoded),
    })?;
    Ok(patches)
}

// What puts a value over the one at an entry.
fn make_edit(
    alloc: Global,
    bytes: &[u8],
    order: Order,
    value: &Value,
    entry: u32,
) -> Result<Edit, Error>
    requires { length bytes.now < 2 ^ 32 }
    ensures answer { Makes (λ (e : Edit). e.patches.items) result
        (value_answer order value.now entry bytes.now) }
    ensures within { IfOk result (λ e. All (FitsIn (length bytes.now)) e.patches.items) }
    ensures offset { IfOk result (λ e. e.offset
        ≡ set_offset (value_space (number_of order) bytes.now entry).offset entry
        (encode order value.now)) }
{
    if bytes.len() < entry as usize + 12 {
        return Err(Error::SharedBytes);
    }
    let space = value_space(order, bytes, entry);
    if bytes.len() < space.offset as usize + space.len {
        return Err(Error::SharedBytes);
    }
    let Some(count) = value.count() else {
        return Err(Error::ValueTooLong);
    };
    let encoded = encode(alloc, order, value)?;
    if space.len.max(4) < encoded.len() {
        return Err(Error::ValueTooLong);
    }
    let offset = if encoded.len() <= 4 {
        entry + 8
    } else {
        space.offset
    };
    let patches = value_patches(alloc, order, value, count, entry, space, encoded.as_slice())?;
    Ok(Edit { patches, offset })
}

/// A copy of the value, stored at this offset.
pub fn moved(alloc: Global, value: &Value, offset: u32) -> Result<Value, Error>
    ensures answer { IfOk result (λ v. v ≡ moved_to offset value.now) }
    ensures memory { IfErr result (λ e. e ≡ Error.OutOfMemory) }
{
    match value.clone(alloc) {
        Ok(Value::Undefined(bytes, _)) => Ok(Value::Undefined(bytes, offset)),
        Ok(other) => Ok(other),
        Err(_) => Err(Error::OutOfMemory),
    }
}

/// Sets the value of the last field of a name, which is at this index.
pub fn set_field(fields: &mut Vec<Field>, index: usize, value: Value, tag: Tag, ifd_num: In)
    requires { IsLastAt tag ifd_num fields.old.items index }
    ensures { fields.new.items ≡ replaced tag ifd_num value fields.old.items }
{
    fields[index].value = value;
}

// Whether a tag number is that of a child directory.
fn names_child(number: u16) -> bool
    ensures { result ≡ names_child number }
{
    matches!(number, 0x8769 | 0x8825 | 0xa005)
}

// Whether a text holds no zero byte.
fn is_plain(encoded: &[u8]) -> bool
    ensures { result ≡ true → All (λ b. b ≢ 0) encoded.now }
{
    encoded.iter().all(|byte| *byte != 0)
}

// Whether no text of a value holds a zero byte.
fn has_plain_texts(value: &Value) -> bool
    ensures { result ≡ true → HasPlainTexts value.now }
{
    match value {
        Value::Ascii(texts) => texts
            .as_slice()
            .iter()
            .all(|encoded| is_plain(encoded.as_slice())),
        _ => true,
    }
}

// Whether a value of a tag is read as it is written.
fn reads_back(tag: Tag, value: &Value) -> bool
    ensures childless { result ≡ true → names_child tag.1 ≡ false }
    ensures ranged { IsRanged value.now }
    ensures plain { result ≡ true → HasPlainTexts value.now }
{
    show_value_fits(value);
    !names_child(tag.1) && has_plain_texts(value)
}

// Whether what sets a value of a tag changes nothing else that is read.
fn is_alone(order: Order, bytes: &[u8], tag: Tag, value: &Value, found: &Found, edit: &Edit) -> bool
    requires header { header bytes.now ≡ Ok order }
    requires small { length bytes.now < 2 ^ 32 }
    requires offsets { Finds bytes.now found.now.walk }
    requires edit { value_answer order value.now found.now.entry bytes.now
        ≡ Ok edit.now.patches.items }
    ensures alone { result ≡ true
        → is_unshared (number_of order) bytes.now found.now.entry ≡ true }
    ensures childless { result ≡ true → names_child tag.1 ≡ false }
    ensures ranged { result ≡ true → IsRanged value.now }
    ensures plain { result ≡ true → HasPlainTexts value.now }
{
    if !reads_back(tag, value) {
        return false;
    }
    is_unshared(
        order,
        bytes,
        edit.patches.as_slice(),
        found.entry,
        &found.walk,
    )
}

/// What puts a value over the last one of a name, and how the data must be read then. Data with
/// more entries than the limit are refused before that.
pub(crate) fn plan(
    alloc: Global,
    bytes: &[u8],
    limit: Option<u64>,
    tag: Tag,
    ifd_num: In,
    value: &Value,
) -> Result<Plan, Error>
    ensures answer { Plans result bytes.now
        (limited limit bytes.now (set_patches bytes.now tag ifd_num value.now)) }
    ensures within { IfOk result (λ p. All (FitsIn (length bytes.now)) p.patches.items) }
{
    if names_offsets(tag) {
        check_limit(alloc, bytes, limit)?;
        return Err(Error::NamesOffsets);
    }
    if is_unknown(value) {
        check_limit(alloc, bytes, limit)?;
        return Err(Error::UnknownType);
    }
    plan_known(alloc, bytes, limit, tag, ifd_num, value)
}

// The same of a value that may be set: they need no reading if the entry is unshared.
fn plan_known(
    alloc: Global,
    bytes: &[u8],
    limit: Option<u64>,
    tag: Tag,
    ifd_num: In,
    value: &Value,
) -> Result<Plan, Error>
    requires movable { names_offsets tag ≡ false }
    requires known { is_unknown value.now ≡ false }
    ensures answer { Plans result bytes.now
        (limited limit bytes.now (checked_patches bytes.now tag ifd_num value.now)) }
    ensures within { IfOk result (λ p. All (FitsIn (length bytes.now)) p.patches.items) }
{
    let mut found = find_within(alloc, bytes, limit, tag, ifd_num)?;
    let order = order_named(found.parsed.little_endian);
    let edit = make_edit(alloc, bytes, order, value, found.entry)?;
    if is_alone(order, bytes, tag, value, &found, &edit) {
        return Ok(Plan {
            patches: edit.patches,
            wanted: Wanted::Anything,
        });
    }
    let moved = moved(alloc, value, edit.offset)?;
    set_field(&mut found.parsed.fields, found.index, moved, tag, ifd_num);
    Ok(Plan {
        patches: edit.patches,
        wanted: Wanted::Same(found.parsed),
    })
}

/// What [`Edit::Set`](crate::Edit) puts over the data, whatever the number of their entries: at most
/// two patches. The data stay as they are. The refusals are those of the edit. It takes the memory
/// of one reading; and where bytes are shared, of a second reading and of a copy.
pub fn set_value_patches(
    alloc: Global,
    bytes: &[u8],
    tag: Tag,
    ifd_num: In,
    value: &Value,
) -> Result<Vec<Patch>, Error>
    ensures answer { Makes (λ ps. ps.items) result
        (set_patches bytes.now tag ifd_num value.now) }
    ensures within { IfOk result (λ ps. All (FitsIn (length bytes.now)) ps.items) }
{
    let plan = plan(alloc, bytes, None, tag, ifd_num, value)?;
    try_on_copy(alloc, bytes, plan)
}

//! All fields of a name made like the last one.

ghost use Rattle.std.specs.Prelude.{◌≡◌, ◌≤◌, ◌<◌, ◌+◌, ◌^◌, ◌++◌, ◌∷◌, [], All, length, map, slice_get, true, Some, IfOk, OnOk};
ghost use Rattle.std.specs.Option.{option_map};
ghost use Rattle.exif_base.specs.Bytes.{bytes_at};
ghost use Rattle.exif_base.specs.Orders.{number_of};
ghost use Rattle.exif_edit_base.specs.Causes.{Makes};
ghost use Rattle.exif_edit_base.specs.Patches.{FitsIn};
ghost use Rattle.exif_edit_base.specs.Readings.{read_of};
ghost use Rattle.exif_edit_base.specs.Rereading.{value_at_entry};
ghost use Rattle.exif_grow.specs.Alike.{alike_patches, beside, entries_alike, entries_named, field_alike, fields_alike, made_alike, value_cleared, value_kept, values_cleared};
ghost use Rattle.exif_grow.specs.Growing.{added_of, in_place};

use crate::{Growth, first_read, grown};
use exif_base::{Items, Order};
use exif_edit_base::find::{Found, find, is_named};
use exif_edit_base::patch::{Patch, zeros};
use exif_edit_base::read::order_named;
use exif_edit_base::spans::value_span;
use exif_edit_base::{EntryOffset, Error};
use exif_tiff::tiff::Parsed;
use exif_types::{Field, In, Tag, Value};
use std::alloc::{AllocError, Global};

// ---- the fields of a name

// The offset at an index.
fn at(entries: &[EntryOffset], index: usize) -> EntryOffset
    requires { index < length entries.now }
    ensures { slice_get entries.now index ≡ Some result }
{
    entries[index]
}

// Adds the entry of a field, if it has the name.
fn add_named(
    field: &Field,
    offset: EntryOffset,
    tag: Tag,
    ifd_num: In,
    named: &mut Vec<u32>,
) -> Result<(), AllocError>
    ensures { OnOk result (named.new.items ≡ named.old.items ++ entries_named tag ifd_num
        (record { field = field.now; entry = offset.entry; directory = offset.directory } ∷ [])) }
{
    if is_named(field, tag, ifd_num) {
        named.push(offset.entry)?;
    }
    Ok(())
}

// The entries of the fields of a name.
fn entries_named(
    alloc: Global,
    fields: &[Field],
    entries: &[EntryOffset],
    tag: Tag,
    ifd_num: In,
) -> Result<Vec<u32>, AllocError>
    requires { length fields.now ≡ length entries.now }
    ensures { IfOk result (λ v. v.items
        ≡ entries_named tag ifd_num (beside fields.now entries.now)) }
{
    let mut named = Vec::new(alloc);
    for i in 0..fields.len() {
        add_named(&fields[i], at(entries, i), tag, ifd_num, &mut named)?;
    }
    Ok(named)
}

// A copy of the value of the field at an index.
fn value_at(alloc: Global, fields: &[Field], index: usize) -> Result<Value, AllocError>
    requires { index < length fields.now }
    ensures { IfOk result (λ v. option_map (λ f. f.value) (slice_get fields.now index) ≡ Some v) }
{
    match fields[index].value.clone(alloc) {
        Ok(value) => Ok(value),
        Err(_) => Err(AllocError),
    }
}

// A copy of a value, as the entry at an offset gives it.
fn value_at_entry(alloc: Global, entry: u32, value: &Value) -> Result<Value, AllocError>
    requires { entry + 8 < 2 ^ 32 }
    ensures { IfOk result (λ v. v ≡ value_at_entry entry value.now) }
{
    match value.clone(alloc) {
        Ok(Value::Undefined(bytes, offset)) => {
            let offset = if bytes.len() <= 4 { entry + 8 } else { offset };
            Ok(Value::Undefined(bytes, offset))
        }
        Ok(Value::Unknown(number, count, _)) => Ok(Value::Unknown(number, count, entry + 8)),
        Ok(other) => Ok(other),
        Err(_) => Err(AllocError),
    }
}

// A field, which has this value if it has the name.
fn field_alike(
    alloc: Global,
    mut field: Field,
    offset: EntryOffset,
    tag: Tag,
    ifd_num: In,
    value: &Value,
) -> Result<Field, AllocError>
    requires { offset.entry + 8 < 2 ^ 32 }
    ensures { IfOk result (λ f. f ≡ field_alike tag ifd_num value.now
        (record { field = field; entry = offset.entry; directory = offset.directory })) }
{
    if is_named(&field, tag, ifd_num) {
        field.value = value_at_entry(alloc, offset.entry, value)?;
    }
    Ok(field)
}

// The fields, each one of a name with this value.
fn fields_alike(
    alloc: Global,
    fields: Vec<Field>,
    entries: &[EntryOffset],
    tag: Tag,
    ifd_num: In,
    value: &Value,
) -> Result<Vec<Field>, AllocError>
    requires paired { length fields.items ≡ length entries.now }
    requires near { All (λ p. p.entry + 8 < 2 ^ 32) entries.now }
    ensures { IfOk result (λ v. v.items
        ≡ fields_alike tag ifd_num value.now (beside fields.items entries.now)) }
{
    let mut alike = Vec::with_capacity(alloc, fields.len())?;
    let mut i = 0;
    for field in fields {
        let field = field_alike(alloc, field, at(entries, i), tag, ifd_num, value)?;
        alike.push(field)?;
        i += 1;
    }
    Ok(alike)
}

// ---- what makes them alike

// What puts so many bytes at one offset over those at another.
fn copied(alloc: Global, bytes: &[u8], from: u32, len: usize, to: u32) -> Result<Patch, AllocError>
    requires { from + len ≤ length bytes.now }
    ensures { IfOk result (λ p. p ≡ record { offset = to; bytes = bytes_at len bytes.now from }) }
{
    let from = from as usize;
    let copy = Vec::from_slice(alloc, &bytes[from..from + len])?;
    Ok(Patch {
        offset: to as u64,
        bytes: Items::from_vec(copy),
    })
}

// What leaves the value of an entry as it is.
fn value_kept(alloc: Global, order: Order, bytes: &[u8], entry: u32) -> Result<Patch, AllocError>
    requires { entry + 12 ≤ length bytes.now }
    ensures { IfOk result (λ p. p ≡ value_kept (number_of order) bytes.now entry) }
{
    let span = value_span(order, bytes, entry);
    copied(alloc, bytes, span.offset, span.len, span.offset)
}

// Zeros over the values of entries, but for that of one entry.
fn cleared(
    alloc: Global,
    order: Order,
    bytes: &[u8],
    entry: u32,
    entries: &[u32],
) -> Result<Vec<Patch>, AllocError>
    requires whole { entry + 12 ≤ length bytes.now }
    requires all_whole { All (λ e. e + 12 ≤ length bytes.now) entries.now }
    ensures { IfOk result (λ ps. ps.items
        ≡ values_cleared true (number_of order) bytes.now entry entries.now) }
{
    let mut patches = Vec::new(alloc);
    for other in entries {
        let patch = zeros(alloc, value_span(order, bytes, *other))?;
        patches.push(patch)?;
    }
    let patch = value_kept(alloc, order, bytes, entry)?;
    patches.push(patch)?;
    Ok(patches)
}

// The same, or nothing.
fn values_cleared(
    alloc: Global,
    clear: bool,
    order: Order,
    bytes: &[u8],
    entry: u32,
    entries: &[u32],
) -> Result<Vec<Patch>, AllocError>
    requires whole { entry + 12 ≤ length bytes.now }
    requires all_whole { All (λ e. e + 12 ≤ length bytes.now) entries.now }
    ensures { IfOk result (λ ps. ps.items
        ≡ values_cleared clear (number_of order) bytes.now entry entries.now) }
{
    if clear {
        cleared(alloc, order, bytes, entry, entries)
    } else {
        Ok(Vec::new(alloc))
    }
}

// What makes entries like one of them.
fn alike_growth(
    alloc: Global,
    clear: bool,
    order: Order,
    bytes: &[u8],
    entry: u32,
    entries: &[u32],
) -> Result<Growth, AllocError>
    requires whole { entry + 12 ≤ length bytes.now }
    requires all_whole { All (λ e. e + 12 ≤ length bytes.now) entries.now }
    ensures added { IfOk result (λ g. added_of g
        ≡ in_place (alike_patches clear (number_of order) bytes.now entry entries.now)) }
    ensures within { IfOk result (λ g. All (FitsIn (length bytes.now)) g.patches.items) }
{
    let mut patches = values_cleared(alloc, clear, order, bytes, entry, entries)?;
    for other in entries {
        let patch = copied(alloc, bytes, entry, 12, *other)?;
        patches.push(patch)?;
    }
    Ok(Growth {
        patches,
        tail: Vec::new(alloc),
    })
}

// ---- the whole

// The data with entries like one of them, if they are read as wanted then.
fn entries_alike(
    alloc: Global,
    bytes: &[u8],
    wanted: &Parsed,
    entry: u32,
    entries: &[u32],
) -> Result<Vec<u8>, Error>
    requires whole { entry + 12 ≤ length bytes.now }
    requires all_whole { All (λ e. e + 12 ≤ length bytes.now) entries.now }
    ensures answer { Makes (λ v. v.items) result
        (entries_alike (read_of wanted.now) entry entries.now bytes.now) }
{
    let order = order_named(wanted.little_endian);
    let cleared = alike_growth(alloc, true, order, bytes, entry, entries)?;
    let kept = alike_growth(alloc, false, order, bytes, entry, entries)?;
    let growth = first_read(alloc, bytes, wanted, cleared, kept)?;
    Ok(grown(alloc, &growth, bytes)?)
}

// What was read, each field of a name with this value.
fn wanted(
    alloc: Global,
    parsed: Parsed,
    entries: &[EntryOffset],
    tag: Tag,
    ifd_num: In,
    value: &Value,
) -> Result<Parsed, AllocError>
    requires paired { length parsed.fields.items ≡ length entries.now }
    requires near { All (λ p. p.entry + 8 < 2 ^ 32) entries.now }
    ensures { IfOk result (λ p. read_of p ≡ record {
      little = parsed.little_endian;
      fields = fields_alike tag ifd_num value.now (beside parsed.fields.items entries.now);
      faults = parsed.faults.items;
    }) }
{
    let Parsed {
        fields,
        faults,
        little_endian,
    } = parsed;
    let fields = fields_alike(alloc, fields, entries, tag, ifd_num, value)?;
    Ok(Parsed {
        fields,
        faults,
        little_endian,
    })
}

/// The data with each field of a name like the last one: the other entries of the name become
/// copies of its entry, so that all lead to one value. The other values become zeros, unless the
/// data would be read otherwise then. Data with one such field stay as they are.
///
/// Refusals are `Header`, `FieldNotFound` and `SharedBytes`. It takes the memory of two readings,
/// and twice that of the data.
pub(crate) fn make_alike(
    alloc: Global,
    data: Vec<u8>,
    tag: Tag,
    ifd_num: In,
) -> Result<Vec<u8>, Error>
    ensures answer { Makes (λ v. v.items) result (made_alike data.items tag ifd_num) }
{
    let found = find(alloc, data.as_slice(), tag, ifd_num)?;
    let Found {
        parsed,
        index,
        entry,
        walk,
    } = found;
    let fields = parsed.fields.as_slice();
    let entries = entries_named(alloc, fields, walk.entries(), tag, ifd_num)?;
    if entries.len() < 2 {
        return Ok(data);
    }
    let value = value_at(alloc, fields, index)?;
    let wanted = wanted(alloc, parsed, walk.entries(), tag, ifd_num, &value)?;
    entries_alike(alloc, data.as_slice(), &wanted, entry, entries.as_slice())
}

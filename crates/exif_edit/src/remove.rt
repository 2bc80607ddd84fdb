//! Fields of a name erased: their entries are taken out of their directories.

ghost use Rattle.std.specs.Prelude.{◌≡◌, ◌≤◌, ◌<◌, ◌+◌, ◌*◌, ◌^◌, ◌++◌, ◌∷◌, [], All, length, map, not, if◌then◌else◌, IfOk, OnOk};
ghost use Rattle.std.specs.List.{filter, flat_map};
ghost use Rattle.exif_base.specs.Bytes.{spaced};
ghost use Rattle.exif_base.specs.Orders.{number_of};
ghost use Rattle.exif_tiff.specs.Trace.{directory_end};
ghost use Rattle.exif_types.specs.Lookup.{is_named};
ghost use Rattle.exif_layout.specs.Encoding.{spelled};
ghost use Rattle.exif_edit_base.specs.Causes.{Edits};
ghost use Rattle.exif_edit_base.specs.EntryLimit.{limited};
ghost use Rattle.exif_edit_base.specs.Patches.{FitsIn, zeros_over};
ghost use Rattle.exif_edit_base.specs.Readings.{read_of};
ghost use Rattle.exif_edit_base.specs.Spans.{value_span};
ghost use Rattle.exif_edit_base.specs.Plans.{Plans};
ghost use Rattle.exif_edit.specs.Promises.{FindsNone, IsFieldErased};
ghost use Rattle.exif_edit_base.specs.Rereading.{still_reads, field_at_entry, without_entry_offsets};
ghost use Rattle.exif_edit.specs.Removing.{directories_with, directory_patches, directory_bytes, directory_without, entries_bytes, field_answer, field_patches, has_tag, named_removals, next_offset_bytes, noted, removals, taken_spans, without_named};
ghost use Rattle.exif_edit.specs.declared.remove.Kept.{Kept};

use crate::set::names_offsets;
use exif_base::{BigEndian, Items, LittleEndian, Order};
use exif_edit_base::find::is_named;
use exif_edit_base::limit::{check_limit, locate_within};
use exif_edit_base::offsets::whole_entries;
use exif_edit_base::patch::{Patch, padded, zeros};
use exif_edit_base::plan::{Plan, Wanted, carry_out};
use exif_edit_base::read::{number16, order_named, read};
use exif_edit_base::spans::value_span;
use exif_edit_base::{EntryOffset, Error, Located};
use exif_layout::item::{spelled_u16, spelled_u32};
use exif_tiff::directory::directory_end;
use exif_tiff::stop::Stop;
use exif_tiff::tiff::Parsed;
use exif_types::{Field, In, Tag, Value};
use std::alloc::{AllocError, Global};

/// Entries that stay in a directory: how many they are, and their bytes.
#[derive(Drop)]
struct Kept {
    count: usize,
    encoded: Vec<u8>,
}

// Notes an offset, once.
fn note(offsets: &mut Vec<u32>, offset: u32) -> Result<(), AllocError>
    ensures { OnOk result (offsets.new.items ≡ noted offsets.old.items offset) }
{
    if !offsets.as_slice().contains(&offset) {
        offsets.push(offset)?;
    }
    Ok(())
}

// Notes the directory of a field, if it has the name.
fn note_named(
    field: &Field,
    entry: EntryOffset,
    tag: Tag,
    ifd_num: In,
    offsets: &mut Vec<u32>,
) -> Result<(), AllocError>
    ensures { OnOk result (offsets.new.items ≡ (if is_named tag ifd_num field.now
        then noted offsets.old.items entry.directory else offsets.old.items)) }
{
    if is_named(field, tag, ifd_num) {
        note(offsets, entry.directory)?;
    }
    Ok(())
}

// The directories that have fields of a name.
fn directories_with(
    alloc: Global,
    fields: &[Field],
    entries: &[EntryOffset],
    tag: Tag,
    ifd_num: In,
) -> Result<Vec<u32>, AllocError>
    requires { length fields.now ≡ length entries.now }
    ensures { IfOk result (λ v. v.items ≡ directories_with tag ifd_num fields.now entries.now) }
{
    let mut offsets = Vec::new(alloc);
    let mut i = fields.len();
    while i > 0 {
        i -= 1;
        note_named(&fields[i], entries[i], tag, ifd_num, &mut offsets)?;
    }
    Ok(offsets)
}

// Keeps the entry at an offset, if it has another tag.
fn keep(
    order: Order,
    bytes: &[u8],
    number: u16,
    at: usize,
    kept: &mut Kept,
) -> Result<(), AllocError>
    requires space { at + 12 ≤ length bytes.now }
    requires small { kept.old.count < 65536 }
    ensures count { OnOk result (kept.new.count ≡ kept.old.count
        + length (filter (λ e. not (has_tag (number_of order) bytes.now number e)) (at ∷ []))) }
    ensures encoded { OnOk result (kept.new.encoded.items ≡ kept.old.encoded.items
        ++ entries_bytes bytes.now
        (filter (λ e. not (has_tag (number_of order) bytes.now number e)) (at ∷ []))) }
{
    if number16(order, bytes, at) != number {
        kept.encoded.extend_from_slice(&bytes[at..at + 12])?;
        kept.count += 1;
    }
    Ok(())
}

// The entries that have another tag.
fn entries_without(
    alloc: Global,
    order: Order,
    bytes: &[u8],
    number: u16,
    first: usize,
    count: usize,
) -> Result<Kept, AllocError>
    requires space { 0 < count → first + 12 * count ≤ length bytes.now }
    requires bound { first + 12 * count < 2 ^ 40 }
    requires small { count < 65536 }
    ensures count { IfOk result (λ kept. kept.count ≡ length (filter
        (λ e. not (has_tag (number_of order) bytes.now number e)) (spaced first 12 count))) }
    ensures encoded { IfOk result (λ kept. kept.encoded.items ≡ entries_bytes bytes.now (filter
        (λ e. not (has_tag (number_of order) bytes.now number e)) (spaced first 12 count))) }
    ensures few { IfOk result (λ kept. kept.count ≤ count) }
{
    let mut kept = Kept {
        count: 0,
        encoded: Vec::new(alloc),
    };
    let mut at = first;
    for _ in 0..count {
        keep(order, bytes, number, at, &mut kept)?;
        at += 12;
    }
    Ok(kept)
}

// The offset of the next directory, if the directory has one.
fn next_offset_bytes(
    alloc: Global,
    order: Order,
    bytes: &[u8],
    offset: u32,
) -> Result<Vec<u8>, AllocError>
    ensures { IfOk result (λ v. v.items
        ≡ next_offset_bytes order (directory_end (number_of order) bytes.now offset)) }
{
    let end = match order {
        Order::Big => directory_end::<BigEndian>(bytes, offset),
        Order::Little => directory_end::<LittleEndian>(bytes, offset),
    };
    match end {
        Ok(next) => Vec::from_slice(alloc, &spelled_u32(order, next)),
        Err(_) => Ok(Vec::new(alloc)),
    }
}

// A count, the bytes of so many entries, and the next offset.
fn joined(alloc: Global, order: Order, kept: &Kept, next: &[u8]) -> Result<Vec<u8>, AllocError>
    requires { kept.now.count < 65536 }
    ensures { IfOk result (λ v. v.items
        ≡ spelled order 2 kept.now.count ++ (kept.now.encoded.items ++ next.now)) }
{
    let mut encoded = Vec::from_slice(alloc, &spelled_u16(order, kept.count as u16))?;
    encoded.extend_from_slice(kept.encoded.as_slice())?;
    encoded.extend_from_slice(next)?;
    Ok(encoded)
}

// The directory at an offset without its entries of a tag.
fn directory_without(
    alloc: Global,
    order: Order,
    bytes: &[u8],
    number: u16,
    offset: u32,
) -> Result<Vec<u8>, AllocError>
    ensures { IfOk result (λ v. v.items ≡ directory_without order bytes.now number offset) }
{
    let count = whole_entries(order, bytes, offset);
    let kept = entries_without(alloc, order, bytes, number, offset as usize + 2, count)?;
    let next = next_offset_bytes(alloc, order, bytes, offset)?;
    let next = next.as_slice();
    let encoded = joined(alloc, order, &kept, next)?;
    let directory = padded(alloc, 2 + 12 * count + next.len(), encoded.as_slice())?;
    Ok(directory)
}

// Adds what puts the directory at an offset without its entries of a tag over it.
fn add_directory(
    alloc: Global,
    order: Order,
    bytes: &[u8],
    number: u16,
    offset: u32,
    patches: &mut Vec<Patch>,
) -> Result<(), AllocError>
    requires { length bytes.now < 2 ^ 32 }
    ensures { OnOk result (patches.new.items
        ≡ patches.old.items ++ directory_patches order bytes.now number offset) }
{
    let encoded = directory_without(alloc, order, bytes, number, offset)?;
    if encoded.len() <= bytes.len() && offset as usize <= bytes.len() - encoded.len() {
        patches.push(Patch {
            offset: offset as u64,
            bytes: Items::from_vec(encoded),
        })?;
    }
    Ok(())
}

// Adds zeros over the value of the entry at an offset, if it has the tag.
fn add_value(
    alloc: Global,
    order: Order,
    bytes: &[u8],
    number: u16,
    at: usize,
    patches: &mut Vec<Patch>,
) -> Result<(), AllocError>
    requires space { at + 12 ≤ length bytes.now }
    requires small { length bytes.now < 2 ^ 32 }
    ensures { OnOk result (patches.new.items ≡ patches.old.items
        ++ map zeros_over (map (value_span (number_of order) bytes.now)
        (filter (has_tag (number_of order) bytes.now number) (at ∷ [])))) }
{
    if number16(order, bytes, at) == number {
        let patch = zeros(alloc, value_span(order, bytes, at as u32))?;
        patches.push(patch)?;
    }
    Ok(())
}

// Adds zeros over the values of the entries of a tag in the directory at an offset.
fn add_values(
    alloc: Global,
    order: Order,
    bytes: &[u8],
    number: u16,
    offset: u32,
    patches: &mut Vec<Patch>,
) -> Result<(), AllocError>
    requires { length bytes.now < 2 ^ 32 }
    ensures { OnOk result (patches.new.items ≡ patches.old.items
        ++ map zeros_over (taken_spans (number_of order) bytes.now number offset)) }
{
    let count = whole_entries(order, bytes, offset);
    let mut at = offset as usize + 2;
    for _ in 0..count {
        add_value(alloc, order, bytes, number, at, patches)?;
        at += 12;
    }
    Ok(())
}

// What takes the entries of a tag out of directories.
fn removals(
    alloc: Global,
    order: Order,
    bytes: &[u8],
    number: u16,
    offsets: &[u32],
) -> Result<Vec<Patch>, AllocError>
    requires { length bytes.now < 2 ^ 32 }
    ensures { IfOk result (λ ps. ps.items ≡ removals order bytes.now number offsets.now) }
{
    let mut patches = Vec::new(alloc);
    for offset in offsets {
        add_directory(alloc, order, bytes, number, *offset, &mut patches)?;
    }
    for offset in offsets {
        add_values(alloc, order, bytes, number, *offset, &mut patches)?;
    }
    Ok(patches)
}

// Whether a field has another name.
fn is_other(field: &Field, tag: Tag, ifd_num: In) -> bool
    ensures { result ≡ not (is_named tag ifd_num field.now) }
{
    !is_named(field, tag, ifd_num)
}

/// Leaves the fields of a name out.
pub fn drop_named(fields: &mut Vec<Field>, tag: Tag, ifd_num: In)
    ensures { fields.new.items ≡ without_named tag ifd_num fields.old.items }
{
    fields.retain(|field| is_other(field, tag, ifd_num));
}

// What takes the fields of a name out of their directories, and how the data must be read then.
fn plan_removals(
    alloc: Global,
    bytes: &[u8],
    limit: Option<u64>,
    tag: Tag,
    ifd_num: In,
) -> Result<Plan, Error>
    ensures answer { Plans result bytes.now
        (limited limit bytes.now (named_removals bytes.now tag ifd_num)) }
    ensures within { IfOk result (λ p. All (FitsIn (length bytes.now)) p.patches.items) }
{
    let Located { mut parsed, walk } = locate_within(alloc, bytes, limit)?;
    let offsets = directories_with(
        alloc,
        parsed.fields.as_slice(),
        walk.entries(),
        tag,
        ifd_num,
    )?;
    let offsets = offsets.as_slice();
    if offsets.is_empty() {
        return Err(Error::FieldNotFound);
    }
    let order = order_named(parsed.little_endian);
    let patches = removals(alloc, order, bytes, tag.1, offsets)?;
    drop_named(&mut parsed.fields, tag, ifd_num);
    Ok(Plan {
        patches,
        wanted: Wanted::Left(parsed),
    })
}

/// What takes the fields of a name out of their directories, unless they hold offsets of other
/// bytes, and how the data must be read then. Data with more entries than the limit are refused
/// before that.
pub(crate) fn plan(
    alloc: Global,
    bytes: &[u8],
    limit: Option<u64>,
    tag: Tag,
    ifd_num: In,
) -> Result<Plan, Error>
    ensures answer { Plans result bytes.now
        (limited limit bytes.now (field_patches bytes.now tag ifd_num)) }
    ensures within { IfOk result (λ p. All (FitsIn (length bytes.now)) p.patches.items) }
{
    if names_offsets(tag) {
        check_limit(alloc, bytes, limit)?;
        return Err(Error::NamesOffsets);
    }
    plan_removals(alloc, bytes, limit, tag, ifd_num)
}

/// Takes all fields of a name out of their directories. The entries behind them and the offset of
/// the next directory move up; the end of the directory and the bytes of the values become zero.
/// A directory that was cut ends with no next offset then.
///
/// Refusals are `NamesOffsets`, `Header`, `FieldNotFound` and `SharedBytes`. It takes the memory of
/// two readings and of the directories, and no copy.
pub fn erase_field(alloc: Global, bytes: &mut [u8], tag: Tag, ifd_num: In) -> Result<(), Error>
    ensures answer { Edits result bytes.old bytes.new (field_answer bytes.old tag ifd_num) }
    ensures erased { OnOk result (IsFieldErased bytes.old tag ifd_num bytes.new) }
    ensures gone { OnOk result (FindsNone tag ifd_num bytes.new) }
{
    let plan = plan(alloc, bytes, None, tag, ifd_num)?;
    carry_out(alloc, bytes, plan)
}

//! Offsets erased: GPS directories and their values become zero bytes.

ghost use Rattle.std.specs.Prelude.{◌≡◌, ◌≤◌, ◌<◌, ◌+◌, ◌*◌, ◌^◌, ◌++◌, ℕ, true, All, List, Ok, length, map, not, IfOk, IfSome, OnOk};
ghost use Rattle.std.specs.List.{flat_map};
ghost use Rattle.exif_base.specs.Bytes.{spaced};
ghost use Rattle.exif_base.specs.Orders.{number_of, order_named};
ghost use Rattle.exif_edit_base.specs.Causes.{Edits};
ghost use Rattle.exif_edit_base.specs.EntryLimit.{limited};
ghost use Rattle.exif_edit_base.specs.Locations.{visited_gps};
ghost use Rattle.exif_edit_base.specs.Patches.{FitsIn, zeros_over};
ghost use Rattle.exif_edit_base.specs.Readings.{read_of, reading};
ghost use Rattle.exif_edit_base.specs.Rereading.{clears};
ghost use Rattle.exif_edit_base.specs.Spans.{value_span};
ghost use Rattle.exif_edit_base.specs.Walked.{Finds};
ghost use Rattle.exif_edit.specs.Erasing.{clipped, directory_spans, done_of, erase_answer, erase_patches, gps_space, gps_spans, gps_value_span, is_gps, item_len, without_gps, zeros_planned};
ghost use Rattle.exif_edit_base.specs.Plans.{Plans, planned};

use crate::alone::gps_is_unshared;
use exif_base::Order;
use exif_edit_base::limit::locate_within;
use exif_edit_base::offsets::{gps_offsets, whole_entries};
use exif_edit_base::patch::{Patch, Span, zeros};
use exif_edit_base::plan::{Plan, Wanted, carry_out};
use exif_edit_base::read::{number16, number32, order_named, read};
use exif_edit_base::{Error, Located};
use exif_tiff::stop::Stop;
use exif_tiff::tiff::Parsed;
use exif_types::{Context, Field, FieldType};
use std::alloc::{AllocError, Global};

// What of a span lies in data of a length.
fn clipped(total: usize, span: Span) -> Span
    requires { span.len < 2 ^ 40 }
    ensures { result ≡ clipped total span }
{
    let offset = span.offset as usize;
    if offset <= total {
        Span {
            offset: span.offset,
            len: span.len.min(total - offset),
        }
    } else {
        Span { offset: 0, len: 0 }
    }
}

// How many bytes an item of a type takes, also where reading does not know the type.
fn item_len(field_type: u16) -> usize
    ensures value { result ≡ item_len field_type }
    ensures small { result ≤ 8 }
{
    match field_type {
        129 => 1,
        13 => 4,
        _ => match FieldType::of(field_type) {
            None => 0,
            Some(known) => known.unit_length() as usize,
        },
    }
}

// Where the value of an entry of a GPS directory is, outside of the entry.
fn gps_space(order: Order, bytes: &[u8], entry: u32) -> Span
    requires { entry + 12 ≤ length bytes.now }
    ensures value { result ≡ gps_space (number_of order) bytes.now entry }
    ensures bound { result.len < 2 ^ 36 }
{
    let at = entry as usize;
    let count = number32(order, bytes, at + 4) as usize;
    let offset = number32(order, bytes, at + 8);
    let len = item_len(number16(order, bytes, at + 2)) * count;
    if len <= 4 {
        Span { offset: 0, len: 0 }
    } else {
        Span { offset, len }
    }
}

// So much of it as lies in the data.
fn gps_value_span(order: Order, bytes: &[u8], entry: u32) -> Span
    requires { entry + 12 ≤ length bytes.now }
    ensures { result ≡ gps_value_span (number_of order) bytes.now entry }
{
    clipped(bytes.len(), gps_space(order, bytes, entry))
}

// Adds zeros over the values of the entries of a GPS directory.
fn add_values(
    alloc: Global,
    order: Order,
    bytes: &[u8],
    first: usize,
    count: usize,
    patches: &mut Vec<Patch>,
) -> Result<(), AllocError>
    requires small { length bytes.now < 2 ^ 32 }
    requires space { 0 < count → first + 12 * count ≤ length bytes.now }
    requires bound { first + 12 * count < 2 ^ 40 }
    ensures { OnOk result (patches.new.items ≡ patches.old.items ++ map zeros_over
        (map (gps_value_span (number_of order) bytes.now) (spaced first 12 count))) }
{
    let mut at = first;
    for _ in 0..count {
        let span = gps_value_span(order, bytes, at as u32);
        let patch = zeros(alloc, span)?;
        patches.push(patch)?;
        at += 12;
    }
    Ok(())
}

// Adds zeros over the directory at an offset and over its values.
fn add_directory(
    alloc: Global,
    order: Order,
    bytes: &[u8],
    offset: u32,
    patches: &mut Vec<Patch>,
) -> Result<(), AllocError>
    requires { length bytes.now < 2 ^ 32 }
    ensures { OnOk result (patches.new.items ≡ patches.old.items ++ map zeros_over
        (directory_spans (number_of order) bytes.now offset)) }
{
    let count = whole_entries(order, bytes, offset);
    let len = 2 + 12 * count + 4;
    let span = clipped(bytes.len(), Span { offset, len });
    let patch = zeros(alloc, span)?;
    patches.push(patch)?;
    add_values(alloc, order, bytes, offset as usize + 2, count, patches)
}

// Zeros over directories and over their values.
fn zeroed(
    alloc: Global,
    order: Order,
    bytes: &[u8],
    directories: &[u32],
) -> Result<Vec<Patch>, AllocError>
    requires { length bytes.now < 2 ^ 32 }
    ensures { IfOk result (λ ps. ps.items ≡ map zeros_over
        (flat_map (directory_spans (number_of order) bytes.now) directories.now)) }
{
    let mut patches = Vec::new(alloc);
    for offset in directories {
        add_directory(alloc, order, bytes, *offset, &mut patches)?;
    }
    Ok(patches)
}

// Zeros over the GPS directories to which data point, whether or not reading visits them, and over
// their values.
fn zeros_over_gps(
    alloc: Global,
    order: Order,
    bytes: &[u8],
    visited: &[u32],
) -> Result<Vec<Patch>, AllocError>
    requires space { 8 ≤ length bytes.now }
    requires small { length bytes.now < 2 ^ 32 }
    requires visited { visited.now ≡ visited_gps bytes.now }
    ensures { IfOk result (λ ps. ps.items
        ≡ map zeros_over (gps_spans (number_of order) bytes.now)) }
{
    let offsets = gps_offsets(alloc, order, bytes, visited)?;
    let patches = zeroed(alloc, order, bytes, offsets.as_slice())?;
    Ok(patches)
}

// Whether a field is no GPS field.
fn is_kept(field: &Field) -> bool
    ensures { result ≡ not (is_gps field.now.tag.0) }
{
    !matches!(field.tag.0, Context::Gps)
}

// Leaves the GPS fields out.
fn drop_gps(fields: &mut Vec<Field>)
    ensures { fields.new.items ≡ without_gps fields.old.items }
{
    fields.retain(|field| is_kept(field));
}

// The patches that erase GPS data, and whether it is known that their bytes have no other use.
#[derive(Drop)]
struct Zeros {
    patches: Vec<Patch>,
    unshared: bool,
}

// The patches that erase the GPS data of data that were located.
fn zeros_of(alloc: Global, bytes: &[u8], located: &Located) -> Result<Zeros, AllocError>
    requires reads { reading bytes.now ≡ Ok (read_of located.now.parsed) }
    requires offsets { Finds bytes.now located.now.walk }
    requires space { 8 ≤ length bytes.now }
    requires small { length bytes.now < 2 ^ 32 }
    ensures patches { IfOk result (λ z. z.patches.items ≡ map zeros_over
        (gps_spans (number_of (order_named located.now.parsed.little_endian)) bytes.now)) }
    ensures unshared { IfOk result
        (λ z. z.unshared ≡ true → erase_patches bytes.now ≡ Ok z.patches.items) }
    ensures within { IfOk result (λ z. All (FitsIn (length bytes.now)) z.patches.items) }
{
    let order = order_named(located.parsed.little_endian);
    let patches = zeros_over_gps(alloc, order, bytes, located.walk.gps())?;
    let unshared = gps_is_unshared(order, bytes, patches.as_slice(), &located.walk);
    Ok(Zeros { patches, unshared })
}

// What erases GPS data, and how data that were read so must be read then: as anything if it is known
// that the bytes have no other use.
fn plan_of(zeros: Zeros, mut parsed: Parsed) -> Plan
    ensures patches { result.patches.items ≡ zeros.patches.items }
    ensures planned { (bytes : List ℕ) → planned bytes result
        ≡ zeros_planned zeros.unshared (read_of parsed) bytes zeros.patches.items }
{
    let Zeros { patches, unshared } = zeros;
    if unshared {
        return Plan {
            patches,
            wanted: Wanted::Anything,
        };
    }
    drop_gps(&mut parsed.fields);
    Plan {
        patches,
        wanted: Wanted::Cleared(parsed),
    }
}

// What erases GPS data of data that were located, and how the data must be read then.
fn located_plan(alloc: Global, bytes: &[u8], located: Located) -> Result<Plan, AllocError>
    requires reads { reading bytes.now ≡ Ok (read_of located.parsed) }
    requires offsets { Finds bytes.now located.walk }
    requires space { 8 ≤ length bytes.now }
    requires small { length bytes.now < 2 ^ 32 }
    ensures answer { IfOk result (λ p. planned bytes.now p ≡ erase_patches bytes.now) }
    ensures within { IfOk result (λ p. All (FitsIn (length bytes.now)) p.patches.items) }
{
    let zeros = zeros_of(alloc, bytes, &located)?;
    Ok(plan_of(zeros, located.parsed))
}

/// What erases GPS data, and how the data must be read then: as anything if they are unshared. Data
/// with more entries than the limit are refused before that.
pub(crate) fn plan(alloc: Global, bytes: &[u8], limit: Option<u64>) -> Result<Plan, Error>
    ensures answer { Plans result bytes.now (limited limit bytes.now (erase_patches bytes.now)) }
    ensures within { IfOk result (λ p. All (FitsIn (length bytes.now)) p.patches.items) }
{
    let located = locate_within(alloc, bytes, limit)?;
    let plan = located_plan(alloc, bytes, located)?;
    Ok(plan)
}

/// Erases GPS data as [`Edit::EraseGps`](crate::Edit) does, of data that were located already, which
/// saves a reading. What was located is answered again where there was nothing to erase: it is that
/// of the data still.
pub fn erase_located_gps(
    alloc: Global,
    bytes: &mut [u8],
    located: Located,
) -> Result<Option<Located>, Error>
    requires reads { reading bytes.old ≡ Ok (read_of located.parsed) }
    requires offsets { Finds bytes.old located.walk }
    requires space { 8 ≤ length bytes.old }
    requires small { length bytes.old < 2 ^ 32 }
    ensures answer { Edits (done_of result) bytes.old bytes.new (erase_answer bytes.old) }
    ensures unchanged { IfOk result (λ again. IfSome again (λ l. bytes.new ≡ bytes.old)) }
    ensures again { IfOk result (λ again. IfSome again (λ l. l ≡ located)) }
{
    let zeros = zeros_of(alloc, bytes, &located)?;
    if zeros.unshared && zeros.patches.is_empty() {
        return Ok(Some(located));
    }
    carry_out(alloc, bytes, plan_of(zeros, located.parsed))?;
    Ok(None)
}

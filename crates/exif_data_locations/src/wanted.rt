//! How data without locations must be read.

ghost use Rattle.std.specs.Prelude.{◌≡◌, ◌+◌, ◌≤◌, ◌<◌, ◌^◌, length, IfOk, OnOk};
ghost use Rattle.exif_base.specs.Orders.{number_of};
ghost use Rattle.exif_data_locations.specs.Wanted.{new_value, same_entry, wanted_field, wanted_fields};
ghost use Rattle.exif_tiff.specs.Trace.{entry_value};

use crate::field::held_in;
use exif_base::{BigEndian, LittleEndian, Order};
use exif_edit_base::EntryOffset;
use exif_tiff::directory::entry_value;
use exif_types::{Field, Value};
use std::alloc::{AllocError, Global};

// Whether the entry at an offset is as it was.
fn same_entry(old: &[u8], new: &[u8], at: usize) -> bool
    requires old { at + 12 ≤ length old.now }
    requires new { at + 12 ≤ length new.now }
    ensures { result ≡ same_entry old.now new.now at }
{
    old[at..at + 12] == new[at..at + 12]
}

// The value of the entry at an offset in data, in this order.
fn ordered_value(
    alloc: Global,
    order: Order,
    bytes: &[u8],
    at: usize,
) -> Result<Option<Value>, AllocError>
    requires small { length bytes.now < 2 ^ 32 }
    requires whole { at + 12 ≤ length bytes.now }
    ensures { IfOk result (λ value. value ≡ entry_value (number_of order) bytes.now at) }
{
    match order {
        Order::Big => entry_value::<BigEndian>(alloc, bytes, at),
        Order::Little => entry_value::<LittleEndian>(alloc, bytes, at),
    }
}

// The value of the entry at an offset in new data, if the entry is as it was.
fn new_value(
    alloc: Global,
    order: Order,
    old: &[u8],
    new: &[u8],
    entry: u32,
) -> Result<Option<Value>, AllocError>
    requires long { length new.now ≡ length old.now }
    requires small { length old.now < 2 ^ 32 }
    ensures { IfOk result (λ value.
        value ≡ new_value (number_of order) old.now new.now entry) }
{
    let at = entry as usize;
    if old.len() < at + 12 {
        return Ok(None);
    }
    if same_entry(old, new, at) {
        ordered_value(alloc, order, new, at)
    } else {
        Ok(None)
    }
}

// Gives a field the value with which it must be read.
fn set_wanted(
    alloc: Global,
    order: Order,
    old: &[u8],
    new: &[u8],
    entry: u32,
    field: &mut Field,
) -> Result<(), AllocError>
    requires long { length new.now ≡ length old.now }
    requires small { length old.now < 2 ^ 32 }
    ensures { OnOk result (field.new
        ≡ wanted_field (number_of order) old.now new.now entry field.old) }
{
    let Some(_) = held_in(field.tag) else {
        return Ok(());
    };
    if let Some(value) = new_value(alloc, order, old, new, entry)? {
        field.value = value;
    }
    Ok(())
}

/// Gives fields, which have their entries at these offsets, the values with which they must be
/// read.
pub fn set_all_wanted(
    alloc: Global,
    order: Order,
    old: &[u8],
    new: &[u8],
    entries: &[EntryOffset],
    fields: &mut [Field],
) -> Result<(), AllocError>
    requires long { length new.now ≡ length old.now }
    requires small { length old.now < 2 ^ 32 }
    ensures { OnOk result (fields.new
        ≡ wanted_fields (number_of order) old.now new.now entries.now fields.old) }
{
    for i in 0..fields.len().min(entries.len()) {
        set_wanted(alloc, order, old, new, entries[i].entry, &mut fields[i])?;
    }
    Ok(())
}

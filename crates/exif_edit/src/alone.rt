//! Whether what an edit changes is looked at as anything else. This is asked of the bytes that the
//! walk has found, without memory.

ghost use Rattle.std.specs.Prelude.{◌≡◌, ◌≤◌, ◌<◌, ◌+◌, ◌*◌, ◌^◌, ◌==◌, ◌&&◌, nat_lt, not, true, All, Ok, length};
ghost use Rattle.std.specs.List.{filter, flat_map, list_any};
ghost use Rattle.exif_base.specs.Orders.{number_of};
ghost use Rattle.exif_tiff.specs.Footprint.{looked_at, value_stretch};
ghost use Rattle.exif_tiff.specs.Trace.{entry_offsets, header};
ghost use Rattle.exif_edit_base.specs.Walked.{Finds};
ghost use Rattle.exif_edit_base.specs.Patches.{FitsIn};
ghost use Rattle.exif_edit.specs.Changing.{ChangeEntry, ChangeOffsets, changes, covers};
ghost use Rattle.exif_edit.specs.Erasing.{is_gps};
ghost use Rattle.exif_edit.specs.GpsAlone.{gps_is_unshared};
ghost use Rattle.exif_edit.specs.Sharing.{beside, other_entry, is_unshared};

use exif_base::Order;
use exif_edit_base::offsets::whole_entries;
use exif_edit_base::patch::Patch;
use exif_edit_base::spans::{value_space, value_span};
use exif_edit_base::{DirectoryOffset, EntryOffset, Walk};
use exif_types::Context;

// At most so many pairs of a patch and a stretch are tested. Where offsets make more of them, a
// second reading takes no longer.
const MAX_PAIRS: usize = 100_000;

// Whether two stretches have a byte in common.
fn overlaps(start: usize, count: usize, offset: usize, len: usize) -> bool
    requires first { start + count < 2 ^ 40 }
    requires second { offset + len < 2 ^ 40 }
    ensures { result ≡ (nat_lt offset (start + count) && nat_lt start (offset + len)) }
{
    offset < start + count && start < offset + len
}

// Whether patches have a byte of a stretch.
fn changes(patches: &[Patch], offset: usize, len: usize) -> bool
    requires patches { All (FitsIn (2 ^ 32)) patches.now }
    requires stretch { offset + len < 2 ^ 40 }
    ensures { result ≡ changes patches.now (record { offset = offset; len = len }) }
{
    for patch in patches {
        if overlaps(patch.offset as usize, patch.bytes.len(), offset, len) {
            return true;
        }
    }
    false
}

// Whether they have one of the value of the entry at an offset, where that is outside of it.
fn changes_value(order: Order, bytes: &[u8], patches: &[Patch], at: usize) -> bool
    requires patches { All (FitsIn (2 ^ 32)) patches.now }
    requires whole { at + 12 ≤ length bytes.now }
    requires small { length bytes.now < 2 ^ 32 }
    ensures { result
        ≡ list_any (changes patches.now) (value_stretch (number_of order) bytes.now at) }
{
    let value = value_span(order, bytes, at as u32);
    changes(patches, value.offset as usize, value.len)
}

// Whether they have one of the values of the directory at an offset.
fn changes_values(order: Order, bytes: &[u8], patches: &[Patch], offset: u32) -> bool
    requires patches { All (FitsIn (2 ^ 32)) patches.now }
    requires small { length bytes.now < 2 ^ 32 }
    ensures { result ≡ list_any (changes patches.now) (flat_map
        (value_stretch (number_of order) bytes.now)
        (entry_offsets (number_of order) bytes.now offset)) }
{
    let mut at = offset as usize + 2;
    for _ in 0..whole_entries(order, bytes, offset) {
        if changes_value(order, bytes, patches, at) {
            return true;
        }
        at += 12;
    }
    false
}

// ---- a value set

// Whether they have one of an entry or of its value, unless it is the one that is set.
fn changes_other(order: Order, bytes: &[u8], patches: &[Patch], entry: u32, at: usize) -> bool
    requires patches { All (FitsIn (2 ^ 32)) patches.now }
    requires whole { at + 12 ≤ length bytes.now }
    requires small { length bytes.now < 2 ^ 32 }
    ensures { result
        ≡ list_any (changes patches.now) (other_entry (number_of order) bytes.now entry at) }
{
    at != entry as usize && (changes(patches, at, 12) || changes_value(order, bytes, patches, at))
}

// Whether they have one of the other entries of the directory at an offset, or of their values.
fn changes_others(order: Order, bytes: &[u8], patches: &[Patch], entry: u32, offset: u32) -> bool
    requires patches { All (FitsIn (2 ^ 32)) patches.now }
    requires small { length bytes.now < 2 ^ 32 }
    ensures { result ≡ list_any (changes patches.now) (flat_map
        (other_entry (number_of order) bytes.now entry)
        (entry_offsets (number_of order) bytes.now offset)) }
{
    let mut at = offset as usize + 2;
    for _ in 0..whole_entries(order, bytes, offset) {
        if changes_other(order, bytes, patches, entry, at) {
            return true;
        }
        at += 12;
    }
    false
}

// Whether they have one of what the directory at an offset is, but for the entry that is set.
fn changes_beside(order: Order, bytes: &[u8], patches: &[Patch], entry: u32, offset: u32) -> bool
    requires patches { All (FitsIn (2 ^ 32)) patches.now }
    requires small { length bytes.now < 2 ^ 32 }
    ensures { result
        ≡ list_any (changes patches.now) (beside (number_of order) bytes.now entry offset) }
{
    let next = offset as usize + 2 + 12 * whole_entries(order, bytes, offset);
    changes(patches, offset as usize, 2)
        || changes(patches, next, 4)
        || changes_others(order, bytes, patches, entry, offset)
}

// The same of directories.
fn changes_any_beside(
    order: Order,
    bytes: &[u8],
    patches: &[Patch],
    entry: u32,
    directories: &[DirectoryOffset],
) -> bool
    requires patches { All (FitsIn (2 ^ 32)) patches.now }
    requires small { length bytes.now < 2 ^ 32 }
    ensures { result ≡ list_any (λ d. list_any (changes patches.now)
        (beside (number_of order) bytes.now entry d.offset)) directories.now }
{
    for directory in directories {
        if changes_beside(order, bytes, patches, entry, directory.offset) {
            return true;
        }
    }
    false
}

// Whether the entry at an offset holds exactly one field.
fn occurs_once(entries: &[EntryOffset], entry: u32) -> bool
    ensures { result ≡ (length (filter (λ p. p.entry == entry) entries.now) == 1) }
{
    let mut count: usize = 0;
    for offset in entries {
        if offset.entry == entry {
            count += 1;
        }
    }
    count == 1
}

/// Whether the entry at an offset holds one field, and the patches that set its value change
/// nothing that is looked at as anything else.
pub fn is_unshared(order: Order, bytes: &[u8], patches: &[Patch], entry: u32, walk: &Walk) -> bool
    requires header { header bytes.now ≡ Ok order }
    requires small { length bytes.now < 2 ^ 32 }
    requires whole { entry + 12 ≤ length bytes.now }
    requires found { Finds bytes.now walk.now }
    requires patches { All (FitsIn (2 ^ 32)) patches.now }
    requires set { ChangeEntry (number_of order) bytes.now entry patches.now }
    ensures { result ≡ is_unshared (number_of order) bytes.now entry }
{
    if changes(patches, 0, 8) {
        return false;
    }
    if changes_any_beside(order, bytes, patches, entry, walk.directories()) {
        return false;
    }
    let space = value_space(order, bytes, entry);
    if overlaps(space.offset as usize, space.len, entry as usize, 12) {
        return false;
    }
    occurs_once(walk.entries(), entry)
}

// ---- GPS data erased

// Whether patches have a byte of the directory at an offset, or of its values.
fn changes_directory(order: Order, bytes: &[u8], patches: &[Patch], offset: u32) -> bool
    requires patches { All (FitsIn (2 ^ 32)) patches.now }
    requires small { length bytes.now < 2 ^ 32 }
    ensures { result
        ≡ list_any (changes patches.now) (looked_at (number_of order) bytes.now offset) }
{
    let len = 2 + 12 * whole_entries(order, bytes, offset) + 4;
    changes(patches, offset as usize, len) || changes_values(order, bytes, patches, offset)
}

// Whether a directory is none of GPS data.
fn is_kept(directory: &DirectoryOffset) -> bool
    ensures { result ≡ not (is_gps directory.now.context) }
{
    !matches!(directory.context, Context::Gps)
}

// Whether they have one of directories but those of GPS data, or of their values.
fn changes_kept(
    order: Order,
    bytes: &[u8],
    patches: &[Patch],
    directories: &[DirectoryOffset],
) -> bool
    requires patches { All (FitsIn (2 ^ 32)) patches.now }
    requires small { length bytes.now < 2 ^ 32 }
    ensures { result ≡ list_any (λ d. not (is_gps d.context) && list_any (changes patches.now)
        (looked_at (number_of order) bytes.now d.offset)) directories.now }
{
    for directory in directories {
        if is_kept(directory) && changes_directory(order, bytes, patches, directory.offset) {
            return true;
        }
    }
    false
}

// Whether there are few pairs of a patch and a stretch.
fn are_few(order: Order, bytes: &[u8], patches: &[Patch], directories: &[DirectoryOffset]) -> bool {
    let mut left = MAX_PAIRS / patches.len().max(1);
    for directory in directories {
        let stretches = whole_entries(order, bytes, directory.offset) + 1;
        if left < stretches {
            return false;
        }
        left -= stretches;
    }
    true
}

/// Whether the patches that erase GPS data change nothing that is looked at as anything else. Where
/// that would take long, the answer is no.
pub fn gps_is_unshared(order: Order, bytes: &[u8], patches: &[Patch], walk: &Walk) -> bool
    requires header { header bytes.now ≡ Ok order }
    requires small { length bytes.now < 2 ^ 32 }
    requires found { Finds bytes.now walk.now }
    requires patches { All (FitsIn (2 ^ 32)) patches.now }
    requires erased { ChangeOffsets (number_of order) bytes.now patches.now }
    ensures { result ≡ true → gps_is_unshared (number_of order) bytes.now ≡ true }
{
    if !are_few(order, bytes, patches, walk.directories()) {
        return false;
    }
    if changes(patches, 0, 8) {
        return false;
    }
    !changes_kept(order, bytes, patches, walk.directories())
}

//! GPS directories to which data point, whether or not reading visits them.

ghost use Rattle.std.specs.Prelude.{◌≡◌, ◌≤◌, ◌<◌, ◌+◌, ◌*◌, ◌^◌, ◌++◌, [], length, take, IfOk, OnOk};
ghost use Rattle.exif_edit_base.specs.declared.offsets.Target.TheVariants.{Gps, Child};
ghost use Rattle.std.specs.List.{flat_map};
ghost use Rattle.exif_base.specs.Bytes.{number_at};
ghost use Rattle.exif_base.specs.Orders.{number_of};
ghost use Rattle.exif_tiff.specs.Trace.{whole_entries};
ghost use Rattle.exif_edit_base.specs.Locations.{visited_gps};
ghost use Rattle.exif_edit_base.specs.GpsOffsets.{all_directories, all_noted, chain_from, gps_offsets, is_new, is_offset_type, is_usable, max_directories, max_pointers, next_offset, noted_new, offset_len, offsets_in, pointers, pointers_in, points_to, values_count, values_offset};

use crate::read::{number16, number32};
use exif_base::{BigEndian, LittleEndian, Order};
use exif_tiff::directory;
use std::alloc::{AllocError, Global};

/// At most so many directories are followed.
pub const MAX_DIRECTORIES: usize = 1_000;
/// At most so many pointers of a directory are followed.
pub const MAX_POINTERS: usize = 256;

/// To what a pointer leads.
#[derive(Clone, Copy)]
pub enum Target {
    /// A GPS directory.
    Gps,
    /// A directory of Exif data, of interoperability data, or of another picture.
    Child,
}

/// How many entries of the directory at an offset are whole.
pub fn whole_entries(order: Order, bytes: &[u8], offset: u32) -> usize
    ensures value { result ≡ whole_entries (number_of order) bytes.now offset }
    ensures space { 0 < result → offset + 2 + 12 * result ≤ length bytes.now }
    ensures small { result < 65536 }
{
    match order {
        Order::Big => directory::whole_entries::<BigEndian>(bytes, offset),
        Order::Little => directory::whole_entries::<LittleEndian>(bytes, offset),
    }
}

// ---- the pointers of a directory

// Whether a tag's values are offsets of such directories.
fn points_to(target: Target, number: u16) -> bool
    ensures { result ≡ points_to target number }
{
    match target {
        Target::Gps => number == 0x8825,
        Target::Child => matches!(number, 0x14a | 0x8769 | 0xa005),
    }
}

// Whether values of a type are read as offsets.
fn is_offset_type(field_type: u16) -> bool
    ensures { result ≡ is_offset_type field_type }
{
    matches!(field_type, 3 | 4 | 9 | 13)
}

// How many bytes an offset of a type takes.
fn offset_len(field_type: u16) -> usize
    ensures value { result ≡ offset_len field_type }
    ensures small { result ≤ 4 }
{
    if field_type == 3 { 2 } else { 4 }
}

// The offset of a type at an offset.
fn offset_at(order: Order, bytes: &[u8], field_type: u16, at: usize) -> u32
    requires { at + offset_len field_type ≤ length bytes.now }
    ensures { result ≡ number_at (number_of order) (offset_len field_type) bytes.now at }
{
    if field_type == 3 {
        number16(order, bytes, at) as u32
    } else {
        number32(order, bytes, at)
    }
}

// Where the offsets in an entry are.
fn values_offset(order: Order, bytes: &[u8], entry: usize) -> usize
    requires whole { entry + 12 ≤ length bytes.now }
    requires small { length bytes.now < 2 ^ 32 }
    ensures value { result ≡ values_offset (number_of order) bytes.now entry }
    ensures near { result < 2 ^ 32 }
{
    let count = number32(order, bytes, entry + 4) as usize;
    if offset_len(number16(order, bytes, entry + 2)) * count <= 4 {
        entry + 8
    } else {
        number32(order, bytes, entry + 8) as usize
    }
}

// How many of them are in the data.
fn values_count(order: Order, bytes: &[u8], entry: usize) -> usize
    requires whole { entry + 12 ≤ length bytes.now }
    requires small { length bytes.now < 2 ^ 32 }
    ensures value { result ≡ values_count (number_of order) bytes.now entry }
{
    let space = bytes
        .len()
        .saturating_sub(values_offset(order, bytes, entry));
    let fitting = if number16(order, bytes, entry + 2) == 3 {
        space / 2
    } else {
        space / 4
    };
    let count = number32(order, bytes, entry + 4) as usize;
    count.min(MAX_POINTERS).min(fitting)
}

// Adds the offsets in an entry, while there are not too many.
fn add_offsets(
    order: Order,
    bytes: &[u8],
    entry: usize,
    pointers: &mut Vec<u32>,
) -> Result<(), AllocError>
    requires whole { entry + 12 ≤ length bytes.now }
    requires small { length bytes.now < 2 ^ 32 }
    requires few { length pointers.old.items ≤ 256 }
    ensures { OnOk result (pointers.new.items ≡ take max_pointers
        (pointers.old.items ++ offsets_in (number_of order) bytes.now entry)) }
{
    let field_type = number16(order, bytes, entry + 2);
    let mut at = values_offset(order, bytes, entry);
    for _ in 0..values_count(order, bytes, entry) {
        if pointers.len() >= MAX_POINTERS {
            return Ok(());
        }
        pointers.push(offset_at(order, bytes, field_type, at))?;
        at += offset_len(field_type);
    }
    Ok(())
}

// The same, if they are those of such directories.
fn add_pointers(
    order: Order,
    bytes: &[u8],
    target: Target,
    entry: usize,
    pointers: &mut Vec<u32>,
) -> Result<(), AllocError>
    requires whole { entry + 12 ≤ length bytes.now }
    requires small { length bytes.now < 2 ^ 32 }
    requires few { length pointers.old.items ≤ 256 }
    ensures { OnOk result (pointers.new.items ≡ take max_pointers
        (pointers.old.items ++ pointers_in target (number_of order) bytes.now entry)) }
{
    if points_to(target, number16(order, bytes, entry))
        && is_offset_type(number16(order, bytes, entry + 2))
    {
        add_offsets(order, bytes, entry, pointers)?;
    }
    Ok(())
}

/// The first pointers of the directory at an offset to such directories.
pub fn pointers(
    alloc: Global,
    order: Order,
    bytes: &[u8],
    target: Target,
    offset: u32,
) -> Result<Vec<u32>, AllocError>
    requires { length bytes.now < 2 ^ 32 }
    ensures { IfOk result (λ v. v.items ≡ pointers target (number_of order) bytes.now offset) }
{
    let mut pointers = Vec::new(alloc);
    let mut at = offset as usize + 2;
    for _ in 0..whole_entries(order, bytes, offset) {
        add_pointers(order, bytes, target, at, &mut pointers)?;
        at += 12;
    }
    Ok(pointers)
}

// ---- the directories

/// Whether a directory can be at an offset.
pub fn is_usable(bytes: &[u8], offset: u32) -> bool
    ensures { result ≡ is_usable bytes.now offset }
{
    8 <= offset && offset as usize + 2 <= bytes.len()
}

// Whether it is none of those that were found, and these are not too many.
fn is_new(bytes: &[u8], found: &[u32], offset: u32) -> bool
    ensures { result ≡ is_new bytes.now found.now offset }
{
    is_usable(bytes, offset) && found.len() < MAX_DIRECTORIES && !found.contains(&offset)
}

// Notes a directory, if it is new.
fn note_new(bytes: &[u8], offset: u32, found: &mut Vec<u32>) -> Result<(), AllocError>
    ensures { OnOk result (found.new.items ≡ noted_new bytes.now found.old.items offset) }
{
    if is_new(bytes, found.as_slice(), offset) {
        found.push(offset)?;
    }
    Ok(())
}

// Notes directories, one after another.
fn note_all(bytes: &[u8], offsets: &[u32], found: &mut Vec<u32>) -> Result<(), AllocError>
    ensures { OnOk result (found.new.items ≡ all_noted bytes.now found.old.items offsets.now) }
{
    for offset in offsets {
        note_new(bytes, *offset, found)?;
    }
    Ok(())
}

// Where the directory is that follows another; 0 where there is none.
fn next_offset(order: Order, bytes: &[u8], offset: u32) -> u32
    ensures { result ≡ next_offset (number_of order) bytes.now offset }
{
    let end = match order {
        Order::Big => directory::directory_end::<BigEndian>(bytes, offset),
        Order::Little => directory::directory_end::<LittleEndian>(bytes, offset),
    };
    match end {
        Ok(next) => next,
        Err(_) => 0,
    }
}

// The directories of the chain.
fn chain(alloc: Global, order: Order, bytes: &[u8]) -> Result<Vec<u32>, AllocError>
    requires { 8 ≤ length bytes.now }
    ensures { IfOk result (λ v. v.items ≡ chain_from max_directories (number_of order) bytes.now
        [] (number_at (number_of order) 4 bytes.now 4)) }
{
    let mut found = Vec::new(alloc);
    let mut offset = number32(order, bytes, 4);
    for _ in 0..MAX_DIRECTORIES {
        if !is_new(bytes, found.as_slice(), offset) {
            return Ok(found);
        }
        found.push(offset)?;
        offset = next_offset(order, bytes, offset);
    }
    Ok(found)
}

// Notes the directories to which the one at an offset points.
fn note_children(
    alloc: Global,
    order: Order,
    bytes: &[u8],
    offset: u32,
    found: &mut Vec<u32>,
) -> Result<(), AllocError>
    requires { length bytes.now < 2 ^ 32 }
    ensures { OnOk result (found.new.items ≡ all_noted bytes.now found.old.items
        (pointers Child (number_of order) bytes.now offset)) }
{
    let children = pointers(alloc, order, bytes, Target::Child, offset)?;
    note_all(bytes, children.as_slice(), found)
}

/// The directories of the whole chain, and all to which they point, but for GPS directories.
pub fn all_directories(alloc: Global, order: Order, bytes: &[u8]) -> Result<Vec<u32>, AllocError>
    requires space { 8 ≤ length bytes.now }
    requires small { length bytes.now < 2 ^ 32 }
    ensures { IfOk result (λ v. v.items ≡ all_directories (number_of order) bytes.now) }
{
    let mut found = chain(alloc, order, bytes)?;
    for i in 0..MAX_DIRECTORIES {
        if found.len() <= i {
            return Ok(found);
        }
        let offset = found[i];
        note_children(alloc, order, bytes, offset, &mut found)?;
    }
    Ok(found)
}

/// Their pointers to GPS directories.
pub fn gps_pointers(
    alloc: Global,
    order: Order,
    bytes: &[u8],
    directories: &[u32],
) -> Result<Vec<u32>, AllocError>
    requires { length bytes.now < 2 ^ 32 }
    ensures { IfOk result (λ v. v.items
        ≡ flat_map (pointers Gps (number_of order) bytes.now) directories.now) }
{
    let mut all = Vec::new(alloc);
    for directory in directories {
        let found = pointers(alloc, order, bytes, Target::Gps, *directory)?;
        all.extend_from_slice(found.as_slice())?;
    }
    Ok(all)
}

/// The GPS directories that reading visits, and then the others to which data point.
pub fn gps_offsets(
    alloc: Global,
    order: Order,
    bytes: &[u8],
    visited: &[u32],
) -> Result<Vec<u32>, AllocError>
    requires space { 8 ≤ length bytes.now }
    requires small { length bytes.now < 2 ^ 32 }
    requires visited { visited.now ≡ visited_gps bytes.now }
    ensures { IfOk result (λ v. v.items ≡ gps_offsets (number_of order) bytes.now) }
{
    let directories = all_directories(alloc, order, bytes)?;
    let pointers = gps_pointers(alloc, order, bytes, directories.as_slice())?;
    let mut found = Vec::from_slice(alloc, visited)?;
    note_all(bytes, pointers.as_slice(), &mut found)?;
    Ok(found)
}

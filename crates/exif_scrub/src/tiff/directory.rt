//! Directories that are kept.

ghost use Rattle.std.specs.Prelude.{◌≡◌, ◌<◌, ◌^◌};
ghost use Rattle.exif_base.specs.Orders.{number_of};
ghost use Rattle.exif_scrub.specs.Directories.{chain_walked, child_walked, children_from, children_walked, directory_kept, directory_picture, directory_tested, directory_visited, entries_kept, next_of, tags_tested};
ghost use Rattle.exif_scrub.specs.Entries.{Goes};
ghost use Rattle.exif_scrub.specs.Keeping.{Puts};

use crate::tiff::bytes::{Old, keep};
use crate::tiff::entry::{count_of, entry_named, item_at, keep_entry, test_entry};
use crate::tiff::fault::Fault;
use crate::tiff::pass::Pass;
use crate::tiff::picture::visit_picture;
use crate::tiff::shape::test_shapes;
use exif_layout::item::spelled_u16;

// Keeps the entries of a directory that describe its picture, closed up: how many they are.
fn keep_entries(
    old: Old<'_>,
    keeps_orientation: bool,
    is_nested: bool,
    count: u16,
    first: u64,
    new: &mut [u8],
) -> Result<u16, Fault>
    requires { first < 2 ^ 61 }
    ensures { Goes result new.new (entries_kept (number_of old.entry.order) old.entry.bytes.now
        keeps_orientation is_nested first count first 0 new.old) }
{
    let mut kept = 0;
    for index in 0..count {
        let entry = first + 12 * u64::from(index);
        let to = first + 12 * u64::from(kept);
        if keep_entry(old, keeps_orientation, is_nested, entry, new, to)? {
            kept += 1;
        }
    }
    Ok(kept)
}

// Keeps a directory and its picture.
fn keep_directory(
    old: Old<'_>,
    keeps_orientation: bool,
    is_nested: bool,
    at: u32,
    new: &mut [u8],
) -> Result<(), Fault>
    ensures { Puts result new.new (directory_kept old.entry.order old.entry.bytes.now
        keeps_orientation is_nested at new.old) }
{
    let at = u64::from(at);
    let count = old.short(at)?;
    let first = at + 2;
    let kept = keep_entries(old, keeps_orientation, is_nested, count, first, new)?;
    test_shapes(old, keeps_orientation, count, first)?;
    keep(&spelled_u16(old.order, kept), 0, 2, new, at)?;
    let end = first + 12 * u64::from(count);
    keep(old.bytes, end, 4, new, first + 12 * u64::from(kept))?;
    visit_picture(old, Pass::Keep(keeps_orientation), count, first, new)
}

// What a walk does with the picture of a directory alone.
fn visit_directory_picture(old: Old<'_>, pass: Pass, at: u32, new: &mut [u8]) -> Result<(), Fault>
    ensures { Puts result new.new
        (directory_picture (number_of old.entry.order) old.entry.bytes.now pass at new.old) }
{
    let count = old.short(u64::from(at))?;
    visit_picture(old, pass, count, u64::from(at) + 2, new)
}

// Refuses entries of which one does not describe the picture, or has a value with metadata.
fn test_tags(old: Old<'_>, keeps_orientation: bool, count: u16, first: u64) -> Result<(), Fault>
    requires { first < 2 ^ 61 }
    ensures { result ≡ tags_tested (number_of old.entry.order) old.entry.bytes.now
        keeps_orientation count first }
{
    let mut left = count;
    let mut at = first;
    while left > 0 {
        test_entry(old, keeps_orientation, at)?;
        at += 12;
        left -= 1;
    }
    Ok(())
}

// The same of a directory.
fn test_directory(old: Old<'_>, keeps_orientation: bool, at: u32) -> Result<(), Fault>
    ensures { result ≡ directory_tested (number_of old.entry.order) old.entry.bytes.now
        keeps_orientation at }
{
    let count = old.short(u64::from(at))?;
    let first = u64::from(at) + 2;
    test_tags(old, keeps_orientation, count, first)?;
    test_shapes(old, keeps_orientation, count, first)
}

// What a walk does with a directory.
fn visit_directory(
    old: Old<'_>,
    pass: Pass,
    is_nested: bool,
    at: u32,
    new: &mut [u8],
) -> Result<(), Fault>
    ensures { Puts result new.new
        (directory_visited old.entry.order old.entry.bytes.now pass is_nested at new.old) }
{
    match pass {
        Pass::Keep(keeps_orientation) => keep_directory(old, keeps_orientation, is_nested, at, new),
        Pass::Pictures => visit_directory_picture(old, pass, at, new),
        Pass::Tags(keeps_orientation) => {
            test_directory(old, keeps_orientation, at)?;
            visit_directory_picture(old, pass, at, new)
        }
    }
}

// The offset of the directory behind one.
fn next_of(old: Old<'_>, at: u32) -> Result<u32, Fault>
    ensures { result ≡ next_of (number_of old.entry.order) old.entry.bytes.now at }
{
    let count = old.short(u64::from(at))?;
    old.long(u64::from(at) + 2 + 12 * u64::from(count))
}

// A walk to a directory below another one, behind which there is none.
fn walk_child(old: Old<'_>, pass: Pass, at: u32, new: &mut [u8]) -> Result<(), Fault>
    ensures { Puts result new.new
        (child_walked old.entry.order old.entry.bytes.now pass at new.old) }
{
    if next_of(old, at)? != 0 {
        return Err(Fault::NotSupported);
    }
    visit_directory(old, pass, true, at, new)
}

// A walk to the directories below one.
fn walk_children(old: Old<'_>, pass: Pass, at: u32, new: &mut [u8]) -> Result<(), Fault>
    ensures { Puts result new.new
        (children_walked old.entry.order old.entry.bytes.now pass at new.old) }
{
    let count = old.short(u64::from(at))?;
    let Some(entry) = entry_named(old, count, u64::from(at) + 2, 330)? else {
        return Ok(());
    };
    let children = count_of(old, entry)?;
    for index in 0..children {
        let child = item_at(old, entry, index)?;
        walk_child(old, pass, child, new)?;
    }
    Ok(())
}

/// A walk to the directories of a chain, at most so many, and to those below them.
pub fn walk_chain(
    old: Old<'_>,
    pass: Pass,
    first: u32,
    most: u32,
    new: &mut [u8],
) -> Result<(), Fault>
    ensures { Puts result new.new
        (chain_walked old.entry.order old.entry.bytes.now pass most first new.old) }
{
    let mut at = first;
    let mut left = most;
    while at != 0 {
        if left == 0 {
            return Err(Fault::TooManyDirectories);
        }
        visit_directory(old, pass, false, at, new)?;
        walk_children(old, pass, at, new)?;
        at = next_of(old, at)?;
        left -= 1;
    }
    Ok(())
}

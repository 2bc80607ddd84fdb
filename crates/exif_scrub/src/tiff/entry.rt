//! The entries of a directory, and their values.

ghost use Rattle.std.specs.Prelude.{◌≡◌, ◌<◌, ◌≤◌, ◌^◌, IfOk, IfSome};
ghost use Rattle.exif_base.specs.Orders.{number_of};
ghost use Rattle.exif_scrub.specs.Entries.{Goes, checked_tag, count_of, entry_kept, entry_named, entry_put, entry_tested, item_at, kind_of, tables_tested, unless_raw, value_kept, values_at};
ghost use Rattle.exif_scrub.specs.Keeping.{Puts};

use crate::tiff::bytes::{Old, keep, keep_stretch, test_stretch};
use crate::tiff::fault::Fault;
use crate::tiff::tags::{
    JPEG_TABLES, describes_picture, is_raw_compression, is_raw_photometric, size_of_type,
};

/// The type of the entry at an offset.
pub fn kind_of(old: Old<'_>, entry: u64) -> Result<u16, Fault>
    requires { entry < 2 ^ 62 }
    ensures { result ≡ kind_of (number_of old.entry.order) old.entry.bytes.now entry }
{
    old.short(entry + 2)
}

/// How many items the entry at an offset has.
pub fn count_of(old: Old<'_>, entry: u64) -> Result<u32, Fault>
    requires { entry < 2 ^ 62 }
    ensures { result ≡ count_of (number_of old.entry.order) old.entry.bytes.now entry }
{
    old.long(entry + 4)
}

// The offset of the values of an entry: within it where they have at most four bytes.
fn values_at(old: Old<'_>, entry: u64) -> Result<u64, Fault>
    requires { entry < 2 ^ 62 }
    ensures value { result ≡ values_at (number_of old.entry.order) old.entry.bytes.now entry }
    ensures bound { IfOk result (λ at. at < 2 ^ 63) }
{
    let kind = kind_of(old, entry)?;
    let count = count_of(old, entry)?;
    if size_of_type(kind) * u64::from(count) <= 4 {
        return Ok(entry + 8);
    }
    Ok(u64::from(old.long(entry + 8)?))
}

/// The number of this index among the values of an entry: SHORT, LONG or IFD.
pub fn item_at(old: Old<'_>, entry: u64, index: u32) -> Result<u32, Fault>
    requires { entry < 2 ^ 62 }
    ensures { result ≡ item_at (number_of old.entry.order) old.entry.bytes.now entry index }
{
    let kind = kind_of(old, entry)?;
    let at = values_at(old, entry)?;
    match kind {
        3 => Ok(u32::from(old.short(at + 2 * u64::from(index))?)),
        4 | 13 => old.long(at + 4 * u64::from(index)),
        _ => Err(Fault::NotSupported),
    }
}

// Refuses what is raw.
fn unless_raw(is_raw: bool) -> Result<(), Fault>
    ensures { result ≡ unless_raw is_raw }
{
    if is_raw { Err(Fault::Raw) } else { Ok(()) }
}

// The tag of an entry, unless it shows a raw file or what is not supported.
fn checked_tag(old: Old<'_>, is_nested: bool, entry: u64) -> Result<u16, Fault>
    requires { entry < 2 ^ 62 }
    ensures { result ≡ checked_tag (number_of old.entry.order) old.entry.bytes.now is_nested entry }
{
    let tag = old.short(entry)?;
    match tag {
        259 => unless_raw(is_raw_compression(item_at(old, entry, 0)?))?,
        262 => unless_raw(is_raw_photometric(item_at(old, entry, 0)?))?,
        330 if is_nested => return Err(Fault::NotSupported),
        519..=521 => return Err(Fault::NotSupported),
        50706 => return Err(Fault::Raw),
        _ => {}
    }
    Ok(tag)
}

// Keeps the value of an entry with this tag that is outside of it. That of JPEG tables is a stream.
fn keep_value(old: Old<'_>, entry: u64, tag: u16, new: &mut [u8]) -> Result<(), Fault>
    requires { entry < 2 ^ 62 }
    ensures { Puts result new.new
        (value_kept (number_of old.entry.order) old.entry.bytes.now entry tag new.old) }
{
    let kind = kind_of(old, entry)?;
    let count = count_of(old, entry)?;
    let len = size_of_type(kind) * u64::from(count);
    if len <= 4 {
        return Ok(());
    }
    let at = u64::from(old.long(entry + 8)?);
    keep_stretch(old.bytes, tag == JPEG_TABLES, at, len, new)
}

// Refuses an entry of JPEG tables that have metadata.
fn test_tables(old: Old<'_>, entry: u64) -> Result<(), Fault>
    requires { entry < 2 ^ 62 }
    ensures { result ≡ tables_tested (number_of old.entry.order) old.entry.bytes.now entry }
{
    let kind = kind_of(old, entry)?;
    let count = count_of(old, entry)?;
    let len = size_of_type(kind) * u64::from(count);
    if len <= 4 {
        return Ok(());
    }
    let at = u64::from(old.long(entry + 8)?);
    test_stretch(old.bytes, true, at, len)
}

/// Refuses an entry that does not describe the picture, and one of JPEG tables that have metadata.
pub fn test_entry(old: Old<'_>, keeps_orientation: bool, entry: u64) -> Result<(), Fault>
    requires { entry < 2 ^ 62 }
    ensures { result ≡ entry_tested (number_of old.entry.order) old.entry.bytes.now
        keeps_orientation entry }
{
    let tag = old.short(entry)?;
    if !describes_picture(keeps_orientation, tag) {
        return Err(Fault::SharedBytes);
    }
    if tag == JPEG_TABLES {
        return test_tables(old, entry);
    }
    Ok(())
}

/// Keeps an entry with its value, if it describes the picture: whether it does.
pub fn keep_entry(
    old: Old<'_>,
    keeps_orientation: bool,
    is_nested: bool,
    entry: u64,
    new: &mut [u8],
    to: u64,
) -> Result<bool, Fault>
    requires { entry < 2 ^ 62 }
    ensures { Goes result new.new (entry_kept (number_of old.entry.order) old.entry.bytes.now
        keeps_orientation is_nested entry to new.old) }
{
    let tag = checked_tag(old, is_nested, entry)?;
    let kind = kind_of(old, entry)?;
    if !describes_picture(keeps_orientation, tag) || size_of_type(kind) == 0 {
        return Ok(false);
    }
    keep(old.bytes, entry, 12, new, to)?;
    keep_value(old, entry, tag, new)?;
    Ok(true)
}

/// The offset of the first of so many entries that has a tag.
pub fn entry_named(old: Old<'_>, count: u16, first: u64, tag: u16) -> Result<Option<u64>, Fault>
    requires { first < 2 ^ 61 }
    ensures value { result
        ≡ entry_named (number_of old.entry.order) old.entry.bytes.now tag count first }
    ensures bound { IfOk result (λ found. IfSome found (λ at. at < 2 ^ 62)) }
{
    let mut left = count;
    let mut at = first;
    while left > 0 {
        if old.short(at)? == tag {
            return Ok(Some(at));
        }
        at += 12;
        left -= 1;
    }
    Ok(None)
}

//! The types and counts of the values that describe a picture.

ghost use Rattle.std.specs.Prelude.{◌≡◌, ◌<◌, ◌^◌};
ghost use Rattle.exif_base.specs.Orders.{number_of};
ghost use Rattle.exif_scrub.specs.Shapes.{entries_shaped, entry_shaped, items_fit, most_values, number_or, type_fits, value_shaped};

use crate::tiff::bytes::Old;
use crate::tiff::entry::{count_of, entry_named, item_at, kind_of};
use crate::tiff::fault::Fault;
use crate::tiff::tags::{JPEG_TABLES, describes_picture, size_of_type};

// The tag of the colour profile.
const PROFILE: u16 = 34675;

// Whether a tag may have values of a type.
fn type_fits(tag: u16, kind: u16) -> bool
    ensures { result ≡ type_fits tag kind }
{
    match tag {
        JPEG_TABLES | PROFILE => true,
        340..=341 => kind != 2 && kind != 7,
        282..=283 | 318..=319 | 529 | 532 => kind == 5,
        336 => matches!(kind, 1 | 3),
        258 | 280..=281 | 291 | 297 | 301 | 320..=321 | 338..=339 | 342 | 530 => kind == 3,
        330 => matches!(kind, 4 | 13),
        _ => matches!(kind, 3 | 4),
    }
}

// How many values a tag has that does not depend on the picture.
fn most_values(tag: u16) -> u32
    ensures { result ≡ most_values tag }
{
    match tag {
        297 | 318 | 321 | 530 => 2,
        529 => 3,
        319 | 342 | 532 => 6,
        _ => 1,
    }
}

// Whether a tag may have so many values, in a picture of so many samples with so many bits.
fn items_fit(tag: u16, samples: u32, bits: u32, count: u32) -> bool
    ensures { result ≡ items_fit tag samples bits count }
{
    match tag {
        273 | 279 | 324..=325 | 330 | JPEG_TABLES | PROFILE => true,
        258 | 280..=281 | 338..=341 => count <= samples,
        336 => u64::from(count) <= 2 * u64::from(samples),
        291 | 301 | 320 => bits <= 16 && count <= 3 * 2u32.pow(bits),
        _ => count <= most_values(tag),
    }
}

// The first number of a tag, or another one where it is not there.
fn number_or(old: Old<'_>, count: u16, first: u64, tag: u16, other: u32) -> Result<u32, Fault>
    requires { first < 2 ^ 61 }
    ensures { result
        ≡ number_or (number_of old.entry.order) old.entry.bytes.now count first tag other }
{
    match entry_named(old, count, first, tag)? {
        Some(entry) => item_at(old, entry, 0),
        None => Ok(other),
    }
}

// Refuses an entry of a type where another one before it has its tag, or its values are not those
// that the tag has.
fn test_value(
    old: Old<'_>,
    count: u16,
    first: u64,
    entry: u64,
    tag: u16,
    kind: u16,
) -> Result<(), Fault>
    requires first { first < 2 ^ 61 }
    requires entry { entry < 2 ^ 62 }
    ensures { result ≡ value_shaped (number_of old.entry.order) old.entry.bytes.now count first
        entry tag kind }
{
    let items = count_of(old, entry)?;
    let samples = number_or(old, count, first, 277, 1)?;
    let bits = number_or(old, count, first, 258, 1)?;
    let found = entry_named(old, count, first, tag)?;
    if type_fits(tag, kind) && items_fit(tag, samples, bits, items) && found == Some(entry) {
        Ok(())
    } else {
        Err(Fault::OddTag)
    }
}

// The same where it stays.
fn test_shape(
    old: Old<'_>,
    keeps_orientation: bool,
    count: u16,
    first: u64,
    entry: u64,
) -> Result<(), Fault>
    requires first { first < 2 ^ 61 }
    requires entry { entry < 2 ^ 62 }
    ensures { result ≡ entry_shaped (number_of old.entry.order) old.entry.bytes.now
        keeps_orientation count first entry }
{
    let tag = old.short(entry)?;
    let kind = kind_of(old, entry)?;
    if !describes_picture(keeps_orientation, tag) || size_of_type(kind) == 0 {
        return Ok(());
    }
    test_value(old, count, first, entry, tag, kind)
}

/// Refuses entries of which one describes the picture and has other values than its tag has, or a
/// tag that one before it has.
pub fn test_shapes(
    old: Old<'_>,
    keeps_orientation: bool,
    count: u16,
    first: u64,
) -> Result<(), Fault>
    requires { first < 2 ^ 61 }
    ensures { result ≡ entries_shaped (number_of old.entry.order) old.entry.bytes.now
        keeps_orientation count first count first }
{
    let mut left = count;
    let mut at = first;
    while left > 0 {
        test_shape(old, keeps_orientation, count, first, at)?;
        at += 12;
        left -= 1;
    }
    Ok(())
}

//! Where the bytes of an item are in a file: the ranges of its extents.

ghost use Rattle.std.specs.Prelude.{◌≡◌, [], unwrap_or, map, IfOk};
ghost use Rattle.std.specs.Option.{option_map};
ghost use Rattle.exif_isobmff.specs.Extents.{behind_last, idat_offset, range_beside, range_in, ranges_with, without_first, without_front};
ghost use Rattle.exif_isobmff.specs.ItemLocations.{location_view};

use crate::exif::ExifItem;
use crate::locations::Extent;
use crate::{BoxSplitter, Kind};
use std::alloc::{AllocError, Global};

/// What follows the last box of a type among boxes; nothing where there is none.
pub fn behind_last(wanted: Kind, boxes: &[u8]) -> &[u8]
    ensures { result.now ≡ behind_last wanted [] boxes.now }
{
    let mut rest = BoxSplitter::new(boxes);
    let mut found: &[u8] = &boxes[boxes.len()..];
    while !rest.is_empty() {
        let Ok((kind, _body)) = rest.child_box() else {
            return found;
        };
        if wanted.is_same(kind) {
            found = rest.rest();
        }
    }
    found
}

// The offset of the body of the last `idat` of a `meta` that ends at an offset.
fn idat_offset(end: u64, meta: &[u8], idat: &[u8]) -> u64
    ensures { result ≡ idat_offset end meta.now idat.now }
{
    let boxes = &meta[meta.len().min(4)..];
    end.saturating_sub(behind_last(Kind::ItemData, boxes).len() as u64)
        .saturating_sub(idat.len() as u64)
}

// The range that an extent names in so many bytes.
fn range_in(total: u64, base: u64, extent: Extent) -> Extent
    ensures { result ≡ range_in total base extent }
{
    let from = base.saturating_add(extent.offset);
    let len = if extent.len == 0 {
        total.saturating_sub(from)
    } else {
        extent.len
    };
    Extent { offset: from, len }
}

// The range of an extent of the `idat` whose body is at an offset.
fn range_beside(offset: u64, idat: &[u8], base: u64, extent: Extent) -> Extent
    ensures { result ≡ range_beside offset idat.now base extent }
{
    let range = range_in(idat.len() as u64, base, extent);
    Extent {
        offset: offset.saturating_add(range.offset),
        len: range.len,
    }
}

// The ranges of extents in a file of so many bytes.
fn ranges_in(
    alloc: Global,
    total: u64,
    base: u64,
    extents: &[Extent],
) -> Result<Vec<Extent>, AllocError>
    ensures { IfOk result (λ v. v.items ≡ map (range_in total base) extents.now) }
{
    let mut ranges = Vec::with_capacity(alloc, extents.len())?;
    for extent in extents {
        ranges.push(range_in(total, base, *extent))?;
    }
    Ok(ranges)
}

// The ranges of extents of the `idat` whose body is at an offset.
fn ranges_beside(
    alloc: Global,
    offset: u64,
    idat: &[u8],
    base: u64,
    extents: &[Extent],
) -> Result<Vec<Extent>, AllocError>
    ensures { IfOk result (λ v. v.items ≡ map (range_beside offset idat.now base) extents.now) }
{
    let mut ranges = Vec::with_capacity(alloc, extents.len())?;
    for extent in extents {
        ranges.push(range_beside(offset, idat, base, *extent))?;
    }
    Ok(ranges)
}

/// The ranges of a file of so many bytes that hold the Exif item of its `meta`, which ends at an
/// offset.
pub fn item_ranges(
    alloc: Global,
    total: u64,
    end: u64,
    meta: &[u8],
    item: &ExifItem,
) -> Result<Vec<Extent>, AllocError>
    ensures { IfOk result (λ v. v.items ≡ ranges_with total end meta.now
        (unwrap_or (option_map (λ b. b.now) item.now.idat) []) (location_view item.now.location)) }
{
    let location = &item.location;
    if location.method == 0 {
        return ranges_in(alloc, total, location.base, &location.extents);
    }
    let idat = item.idat.unwrap_or(&[]);
    let offset = idat_offset(end, meta, idat);
    ranges_beside(alloc, offset, idat, location.base, &location.extents)
}

// A range without its first n bytes.
fn without_front(n: u64, range: Extent) -> Extent
    ensures { result ≡ without_front n range }
{
    Extent {
        offset: range.offset.saturating_add(n),
        len: range.len.saturating_sub(n),
    }
}

/// Ranges without their first n bytes.
pub fn without_first(alloc: Global, n: u64, ranges: &[Extent]) -> Result<Vec<Extent>, AllocError>
    ensures { IfOk result (λ v. v.items ≡ without_first n ranges.now) }
{
    let mut left = n;
    let mut rest = ranges;
    while let Some((first, others)) = rest.split_first() {
        if left < first.len {
            let mut kept = Vec::with_capacity(alloc, rest.len())?;
            kept.push(without_front(left, *first))?;
            kept.extend_from_slice(others)?;
            return Ok(kept);
        }
        left -= first.len;
        rest = others;
    }
    Ok(Vec::new(alloc))
}

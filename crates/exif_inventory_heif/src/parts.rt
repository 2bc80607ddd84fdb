//! The parts of a file.

ghost use Rattle.std.specs.Prelude.{◌≡◌, length, All, IfOk, IfSome};
ghost use Rattle.std.specs.List.{list_any};
ghost use Rattle.std.specs.Option.{option_map};
ghost use Rattle.exif_inventory.specs.Promises.{AreInOrder, EndsIn, IsWithin};
ghost use Rattle.exif_inventory_heif.specs.Carving.{layout_view};
ghost use Rattle.exif_inventory_heif.specs.Inventories.{any_brand, extents_in, extents_with, has_brand, heif_inventory, heif_layout, is_brand, is_heif, items_in_file, judged_parts, layout_of, parts_of, settled};
ghost use Rattle.exif_inventory_heif.specs.Promises.{PictureIsApart};
ghost use Rattle.exif_inventory_heif.specs.Walks.{AreSpans, IsInside};

use crate::carve::carved;
use crate::extents::{Extent, Room, extents_of};
use crate::gaps::gaps_cut;
use crate::items::{Item, items_of};
use crate::role::Role;
use crate::span::{Layout, Span, has, only, part_of, payload};
use crate::walk::spans_of;
use exif_inventory::Part;
use exif_inventory::boxes::{content_of, head_of, name_of};
use std::alloc::{AllocError, Global};

// Whether a brand is one of HEIF.
fn is_brand(brand: &[u8]) -> bool
    ensures { result ≡ is_brand brand.now }
{
    brand == b"mif1".as_slice() || brand == b"msf1".as_slice()
}

// Whether one of the brands, of 4 bytes each, is one of HEIF.
fn any_brand(brands: &[u8]) -> bool
    ensures { result ≡ any_brand brands.now }
{
    let mut rest = brands;
    while rest.len() >= 4 {
        if is_brand(&rest[..4]) {
            return true;
        }
        rest = &rest[4..];
    }
    false
}

// Whether the compatible brands of a file, behind its own and its version, have one of HEIF.
fn has_brand(content: &[u8]) -> bool
    ensures { result ≡ has_brand content.now }
{
    if content.len() < 8 {
        return false;
    }
    any_brand(&content[8..])
}

// Whether a file begins as a HEIF file does.
fn is_heif(file: &[u8]) -> bool
    ensures { result ≡ is_heif file.now }
{
    let Some(head) = head_of(file) else {
        return false;
    };
    name_of(file) == b"ftyp".as_slice() && has_brand(content_of(head, file))
}

// The items of a file with these spans.
fn items_in_file(
    alloc: Global,
    file: &[u8],
    spans: &[Span],
) -> Result<Option<Vec<Item>>, AllocError>
    ensures { IfOk result
        (λ items. option_map (λ v. v.items) items ≡ items_in_file file.now spans.now) }
{
    match only(Role::ItemInfo, spans) {
        Some(span) => items_of(alloc, payload(span, file)),
        None => Ok(None),
    }
}

// The extents of these items in a file with these spans.
fn extents_with(
    alloc: Global,
    file: &[u8],
    spans: &[Span],
    items: &[Item],
) -> Result<Option<Vec<Extent>>, AllocError>
    ensures { IfOk result (λ extents. option_map (λ v. v.items) extents
        ≡ extents_with file.now spans.now items.now) }
{
    let room = Room {
        file: file.len(),
        idat: only(Role::ItemData, spans),
    };
    match only(Role::ItemLocation, spans) {
        Some(span) => extents_of(alloc, items, room, payload(span, file)),
        None => Ok(None),
    }
}

// The extents of the items of a file with these spans.
fn extents_in(alloc: Global, file: &[u8], spans: &[Span]) -> Result<Option<Vec<Extent>>, AllocError>
    ensures { IfOk result
        (λ extents. option_map (λ v. v.items) extents ≡ extents_in file.now spans.now) }
{
    match items_in_file(alloc, file, spans)? {
        Some(items) => extents_with(alloc, file, spans, &items),
        None => Ok(None),
    }
}

// The spans of a file with the metadata cut out of them, if its items can be read.
fn settled(alloc: Global, file: &[u8], spans: Vec<Span>) -> Result<Layout, AllocError>
    ensures { IfOk result
        (λ c. layout_view c ≡ settled file.now spans.items (extents_in file.now spans.items)) }
{
    match extents_in(alloc, file, &spans)? {
        Some(extents) => {
            let judged = !has(Role::Movie, &spans);
            let layout = carved(alloc, file, &extents, Layout { spans, judged })?;
            gaps_cut(alloc, file, &extents, layout)
        }
        None => Ok(Layout {
            spans,
            judged: false,
        }),
    }
}

// The parts of a file that spans are.
fn judged_parts(alloc: Global, judged: bool, spans: &[Span]) -> Result<Vec<Part>, AllocError>
    ensures { IfOk result (λ v. v.items ≡ judged_parts (spans.now, judged)) }
{
    let mut parts = Vec::with_capacity(alloc, spans.len())?;
    for span in spans {
        parts.push(part_of(judged, *span))?;
    }
    Ok(parts)
}

// The layout of a HEIF file.
#[tactic(auto, unfolding(crate::specs::Inventories::layout_of))]
fn layout_of(alloc: Global, file: &[u8]) -> Result<Layout, AllocError>
    ensures layout { IfOk result (λ layout. layout_view layout ≡ layout_of file.now) }
    ensures ordered { IfOk result (λ layout. AreSpans 0 layout.spans.items (length file.now)) }
    ensures inside { IfOk result
        (λ layout. All (IsInside (length file.now)) layout.spans.items) }
    ensures apart { IfOk result (λ layout. PictureIsApart file.now (layout_view layout)) }
{
    let spans = spans_of(alloc, file)?;
    let layout = settled(alloc, file, spans)?;
    Ok(layout)
}

// The parts of a HEIF file.
fn parts_of(alloc: Global, file: &[u8]) -> Result<Vec<Part>, AllocError>
    ensures parts { IfOk result (λ parts. parts.items ≡ parts_of file.now) }
    ensures covers { IfOk result (λ parts. AreInOrder 0 parts.items (length file.now)) }
    ensures within { IfOk result (λ parts. All IsWithin parts.items) }
    ensures inside { IfOk result (λ parts. All (EndsIn (length file.now)) parts.items) }
{
    let Layout { spans, judged } = layout_of(alloc, file)?;
    let parts = judged_parts(alloc, judged, &spans)?;
    Ok(parts)
}

/// The layout of a HEIF or AVIF file: the spans that its parts are, each with its role. `None` for
/// a file of another format. It takes memory for the lists.
pub fn layout(alloc: Global, file: &[u8]) -> Result<Option<Layout>, AllocError>
    ensures answer { IfOk result (λ layout. option_map layout_view layout ≡ heif_layout file.now) }
    ensures ordered { IfOk result (λ found. IfSome found
        (λ layout. AreSpans 0 layout.spans.items (length file.now))) }
    ensures inside { IfOk result (λ found. IfSome found
        (λ layout. All (IsInside (length file.now)) layout.spans.items)) }
    ensures apart { IfOk result (λ found. IfSome found
        (λ layout. PictureIsApart file.now (layout_view layout))) }
{
    if is_heif(file) {
        Ok(Some(layout_of(alloc, file)?))
    } else {
        Ok(None)
    }
}

/// The parts of a HEIF or AVIF file, in the order of their bytes: each begins where the one before
/// it ends, and together they are the file. `None` for a file of another format.
///
/// Each box is a part, and so are the header of the first `meta` and each box in that. The data of
/// each item that is neither a picture nor made of pictures are parts of their own, cut out of the
/// box that holds them, and so are bytes of the box that no item has, if they are not all zeros.
/// What is left of the box is the picture's. Neighbours are not joined.
///
/// The items are not understood where their lists can't be read, where data of an item are in no
/// box for such data, or not in the file, where data of an item that is no picture are shared, and
/// where the file has tracks as well. Then what may be the picture's or not, in `meta` and in the
/// boxes with data, is not known, and no part of the picture. So it is with more than 16,384 items
/// or extents, 4,096 boxes, 256 extents of items that are no pictures, or 256 stretches of bytes
/// that no item has. It takes memory for the lists.
pub fn inventory(alloc: Global, file: &[u8]) -> Result<Option<Vec<Part>>, AllocError>
    ensures answer { IfOk result
        (λ parts. option_map (λ v. v.items) parts ≡ heif_inventory file.now) }
    ensures covers { IfOk result (λ found. IfSome found
        (λ parts. AreInOrder 0 parts.items (length file.now))) }
    ensures within { IfOk result (λ found. IfSome found (λ parts. All IsWithin parts.items)) }
    ensures inside { IfOk result (λ found. IfSome found
        (λ parts. All (EndsIn (length file.now)) parts.items)) }
{
    if is_heif(file) {
        Ok(Some(parts_of(alloc, file)?))
    } else {
        Ok(None)
    }
}

//! The data of the items, cut out of the spans that hold them.

ghost use Rattle.std.specs.Prelude.{◌≡◌, ◌≤◌, ◌++◌, not, count_by, length, IfOk, OnOk};
ghost use Rattle.std.specs.List.{flat_map};
ghost use Rattle.exif_inventory_heif.specs.Carving.{are_many, before, behind, carve_each, carve_one, carved, layout_view, cut, cut_one, exif_content, exif_span, holds, is_alone, is_held, is_picture, item_span, known_span, may_hold, meets, some_span};

use crate::extents::Extent;
use crate::numbers::number;
use crate::role::Role;
use crate::span::{Layout, Span};
use exif_inventory::Kind;
use std::alloc::{AllocError, Global};

// How many extents of metadata are cut out at most.
const CUT_LIMIT: usize = 256;
// Of how many spans they are cut out at most.
const SPAN_LIMIT: usize = 4_096;

// Whether data are those of a picture.
fn is_picture(kind: Kind) -> bool
    ensures { result ≡ is_picture kind }
{
    matches!(kind, Kind::Picture)
}

// Whether two extents share a byte.
fn meets(a: Extent, b: Extent) -> bool
    ensures { result ≡ meets a b }
{
    a.from < b.end && b.from < a.end
}

// Whether an extent, which is one of these, shares no byte with another one.
fn is_alone(extent: Extent, all: &[Extent]) -> bool
    ensures { result ≡ is_alone extent all.now }
{
    all.iter().filter(|other| meets(extent, **other)).count() == 1
}

// Whether more extents of metadata are there than are cut out at most.
fn are_many(extents: &[Extent]) -> bool
    ensures { result ≡ are_many extents.now }
{
    extents
        .iter()
        .filter(|extent| !is_picture(extent.kind))
        .count()
        > CUT_LIMIT
}

/// Whether a span may hold data of items.
pub fn may_hold(role: Role) -> bool
    ensures { result ≡ may_hold role }
{
    matches!(role, Role::ItemData | Role::MediaData)
}

// Whether a span holds an extent, which has a byte at least.
fn holds(extent: Extent, span: Span) -> bool
    ensures { result ≡ holds extent span }
{
    may_hold(span.role)
        && span.content <= extent.from
        && extent.from < extent.end
        && extent.end <= span.end
}

// Whether one of these spans holds an extent.
fn is_held(extent: Extent, spans: &[Span]) -> bool
    ensures { result ≡ is_held extent spans.now }
{
    for span in spans {
        if holds(extent, *span) {
            return true;
        }
    }
    false
}

// Where the TIFF data of an Exif item begin: behind 4 bytes, and as many as they say.
#[tactic(auto, unfolding(crate::specs::Carving::exif_content))]
fn exif_content(extent: Extent, file: &[u8]) -> Option<usize>
    ensures { result ≡ exif_content extent file.now }
{
    let len = extent.end.saturating_sub(extent.from);
    if len < 4 || file.len() < extent.end {
        return None;
    }
    let front = number(4, &file[extent.from..]);
    if len - 4 < front {
        return None;
    }
    Some(extent.from + 4 + front)
}

// The span of an item's data.
fn known_span(kind: Kind, extent: Extent, content: usize) -> Span
    ensures { result ≡ known_span kind extent content }
{
    Span {
        role: Role::Known(kind),
        from: extent.from,
        content,
        end: extent.end,
    }
}

// The span of the data of an Exif item.
fn exif_span(extent: Extent, file: &[u8]) -> Span
    ensures { result ≡ exif_span extent (exif_content extent file.now) }
{
    match exif_content(extent, file) {
        Some(content) => known_span(Kind::Exif, extent, content),
        None => known_span(Kind::Broken, extent, extent.from),
    }
}

// The span of an item's data.
#[tactic(auto, unfolding(crate::specs::Carving::item_span))]
fn item_span(extent: Extent, file: &[u8]) -> Span
    ensures { result ≡ item_span extent file.now }
{
    match extent.kind {
        Kind::Exif => exif_span(extent, file),
        kind => known_span(kind, extent, extent.from),
    }
}

// Adds a span, if it has a byte.
fn push_some(spans: &mut Vec<Span>, span: Span) -> Result<(), AllocError>
    ensures { OnOk result (spans.new.items ≡ spans.old.items ++ some_span span) }
{
    if span.from < span.end {
        spans.push(span)?;
        return Ok(());
    }
    Ok(())
}

// Adds a span, with an extent cut out if it holds it.
#[tactic(auto, unfolding(crate::specs::Carving::cut_one))]
fn push_cut(
    spans: &mut Vec<Span>,
    file: &[u8],
    extent: Extent,
    span: Span,
) -> Result<(), AllocError>
    ensures { OnOk result (spans.new.items ≡ spans.old.items ++ cut_one file.now extent span) }
{
    if !holds(extent, span) {
        spans.push(span)?;
        return Ok(());
    }
    push_some(
        spans,
        Span {
            end: extent.from,
            ..span
        },
    )?;
    spans.push(item_span(extent, file))?;
    push_some(
        spans,
        Span {
            from: extent.end,
            content: extent.end,
            ..span
        },
    )
}

// Spans with an extent cut out of the one that holds it.
fn cut(alloc: Global, file: &[u8], extent: Extent, spans: &[Span]) -> Result<Vec<Span>, AllocError>
    ensures { IfOk result (λ v. v.items ≡ cut file.now extent spans.now) }
{
    let mut found = Vec::new(alloc);
    for span in spans {
        push_cut(&mut found, file, extent, *span)?;
    }
    Ok(found)
}

// Spans with an extent of metadata cut out; if it can't be, or if no span with items' data holds an
// extent of a picture, these spans are not judged.
#[tactic(auto, unfolding(crate::specs::Carving::carve_one))]
fn carve_one(
    alloc: Global,
    file: &[u8],
    all: &[Extent],
    extent: Extent,
    carving: Layout,
) -> Result<Layout, AllocError>
    ensures { IfOk result
        (λ c. layout_view c ≡ carve_one file.now all.now extent (layout_view carving)) }
{
    let Layout { spans, judged } = carving;
    if is_picture(extent.kind) {
        let judged = judged && is_held(extent, &spans);
        return Ok(Layout { spans, judged });
    }
    if is_alone(extent, all) && is_held(extent, &spans) {
        let spans = cut(alloc, file, extent, &spans)?;
        return Ok(Layout { spans, judged });
    }
    Ok(Layout {
        spans,
        judged: false,
    })
}

// Spans with each extent of metadata cut out.
fn carve_each(
    alloc: Global,
    file: &[u8],
    extents: &[Extent],
    carving: Layout,
) -> Result<Layout, AllocError>
    ensures { IfOk result
        (λ c. layout_view c ≡ carve_each file.now extents.now extents.now (layout_view carving)) }
{
    let mut so_far = carving;
    for extent in extents {
        so_far = carve_one(alloc, file, extents, *extent, so_far)?;
    }
    Ok(so_far)
}

/// Spans with all extents of metadata cut out. Where one can't be, or there are too many of them or
/// of the spans, what is left of the spans with items' data is not judged.
#[tactic(auto, unfolding(crate::specs::Carving::carved))]
pub fn carved(
    alloc: Global,
    file: &[u8],
    extents: &[Extent],
    carving: Layout,
) -> Result<Layout, AllocError>
    ensures { IfOk result
        (λ c. layout_view c ≡ carved file.now extents.now (layout_view carving)) }
{
    if are_many(extents) || carving.spans.len() > SPAN_LIMIT {
        return Ok(Layout {
            spans: carving.spans,
            judged: false,
        });
    }
    carve_each(alloc, file, extents, carving)
}

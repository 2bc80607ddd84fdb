//! Bytes of the boxes with items' data that no item has.

ghost use Rattle.std.specs.List.{flat_map};
ghost use Rattle.std.specs.Prelude.{◌≡◌, ◌<◌, ◌++◌, IfOk, OnOk};
ghost use Rattle.exif_inventory_heif.specs.Carving.{layout_view};
ghost use Rattle.exif_inventory_heif.specs.Gaps.{gap_at, gaps_cut, gaps_of, has_byte, next_at, next_of, reach_at, reach_of, span_gaps, stretch_at, unused_at};

use crate::carve::{carved, may_hold};
use crate::extents::Extent;
use crate::role::is_zeros;
use crate::span::{Layout, Span, bytes_between};
use exif_inventory::Kind;
use std::alloc::{AllocError, Global};

// In how many extents bytes are searched at most.
const SEARCH_LIMIT: usize = 16_384;

// Bytes from an offset on that one item has, or that none has.
#[derive(Clone, Copy)]
struct Stretch {
    used: bool,
    // The offset behind them.
    end: usize,
}

// Whether an extent has the byte at an offset.
fn has_byte(at: usize, extent: Extent) -> bool
    ensures { result ≡ has_byte at extent }
{
    extent.from <= at && at < extent.end
}

// How far bytes of one item reach from an offset on, with an extent more.
fn reach_at(at: usize, far: usize, extent: Extent) -> usize
    ensures { result ≡ reach_at at far extent }
{
    if has_byte(at, extent) {
        far.max(extent.end)
    } else {
        far
    }
}

// How far bytes of one item reach from an offset on.
fn reach_of(at: usize, extents: &[Extent]) -> usize
    ensures { result ≡ reach_of at at extents.now }
{
    let mut far = at;
    for extent in extents {
        far = reach_at(at, far, *extent);
    }
    far
}

// Where the next byte of an item is behind an offset, with an extent more.
fn next_at(at: usize, near: usize, extent: Extent) -> usize
    requires { at < near }
    ensures value { result ≡ next_at at near extent }
    ensures ahead { at < result }
{
    if at < extent.from {
        near.min(extent.from)
    } else {
        near
    }
}

// Where the next byte of an item is behind an offset, or the end.
fn next_of(at: usize, end: usize, extents: &[Extent]) -> usize
    requires { at < end }
    ensures value { result ≡ next_of at end extents.now }
    ensures ahead { at < result }
{
    let mut near = end;
    for extent in extents {
        near = next_at(at, near, *extent);
    }
    near
}

// The bytes from an offset on, up to an end.
fn stretch_at(at: usize, end: usize, extents: &[Extent]) -> Stretch
    requires { at < end }
    ensures value { result ≡ stretch_at at end extents.now }
    ensures ahead { at < result.end }
{
    let reach = reach_of(at, extents);
    if at < reach {
        return Stretch {
            used: true,
            end: reach,
        };
    }
    Stretch {
        used: false,
        end: next_of(at, end, extents),
    }
}

// Adds the bytes between two offsets, if they are not all zeros.
fn push_gap(gaps: &mut Vec<Extent>, file: &[u8], from: usize, end: usize) -> Result<(), AllocError>
    ensures { OnOk result (gaps.new.items ≡ gaps.old.items ++ gap_at file.now from end) }
{
    if is_zeros(bytes_between(from, end, file)) {
        return Ok(());
    }
    gaps.push(Extent {
        kind: Kind::Unknown,
        from,
        end,
    })?;
    Ok(())
}

// The same if no item has them.
fn push_unused(
    gaps: &mut Vec<Extent>,
    file: &[u8],
    at: usize,
    stretch: Stretch,
) -> Result<(), AllocError>
    ensures { OnOk result (gaps.new.items ≡ gaps.old.items ++ unused_at file.now at stretch) }
{
    if stretch.used {
        return Ok(());
    }
    push_gap(gaps, file, at, stretch.end)
}

// Adds what of the content of a span with items' data is in no extent.
fn push_gaps(
    gaps: &mut Vec<Extent>,
    file: &[u8],
    extents: &[Extent],
    span: Span,
) -> Result<(), AllocError>
    ensures { OnOk result
        (gaps.new.items ≡ gaps.old.items ++ span_gaps file.now extents.now span) }
{
    if !may_hold(span.role) {
        return Ok(());
    }
    let mut at = span.content;
    while at < span.end {
        let stretch = stretch_at(at, span.end, extents);
        push_unused(gaps, file, at, stretch)?;
        at = stretch.end;
    }
    Ok(())
}

// The same of all spans.
fn gaps_of(
    alloc: Global,
    file: &[u8],
    extents: &[Extent],
    spans: &[Span],
) -> Result<Vec<Extent>, AllocError>
    ensures { IfOk result (λ gaps. gaps.items ≡ gaps_of file.now extents.now spans.now) }
{
    let mut gaps = Vec::new(alloc);
    for span in spans {
        push_gaps(&mut gaps, file, extents, *span)?;
    }
    Ok(gaps)
}

/// Judged spans with the bytes cut out that are in none of these extents, but for zeros. Where these
/// are too many, what is left of the spans with items' data is not judged.
pub fn gaps_cut(
    alloc: Global,
    file: &[u8],
    extents: &[Extent],
    carving: Layout,
) -> Result<Layout, AllocError>
    ensures { IfOk result
        (λ c. layout_view c ≡ gaps_cut file.now extents.now (layout_view carving)) }
{
    let Layout { spans, judged } = carving;
    if !judged || extents.len() > SEARCH_LIMIT {
        return Ok(Layout {
            spans,
            judged: false,
        });
    }
    let gaps = gaps_of(alloc, file, extents, &spans)?;
    carved(alloc, file, &gaps, Layout { spans, judged })
}

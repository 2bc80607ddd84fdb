//! What is left of a file without its metadata.

ghost use Rattle.std.specs.List.{list_all};
ghost use Rattle.std.specs.Prelude.{◌≡◌, ◌≤◌, ◌++◌, length, All, IfOk, OnOk};
ghost use Rattle.exif_inventory_heif.specs.Walks.{IsInside};
ghost use Rattle.exif_scrub.specs.HeifScrubbing.{is_other, is_settled, left_of, left_parts, parts_made, settled, stays};

use crate::heif::fault::Fault;
use exif_blanks::blank::{Blank, is_blank, span_blank};
use exif_inventory::{Kind, Part};
use exif_inventory_heif::{Layout, Span, layout, part_of};
use std::alloc::{AllocError, Global};

// Whether nothing becomes of a span's bytes.
fn stays(how: Blank) -> bool
    ensures { result ≡ stays how }
{
    matches!(how, Blank::Nothing)
}

// Whether a part is not the picture's.
fn is_other(kind: Kind) -> bool
    ensures { result ≡ is_other kind }
{
    !matches!(kind, Kind::Picture)
}

// Notes the part that a span is, if it stays and may hold metadata.
fn note_left(judged: bool, span: Span, left: &mut Vec<Part>) -> Result<(), AllocError>
    ensures { OnOk result (left.new.items ≡ left.old.items ++ left_of judged span) }
{
    let part = part_of(judged, span);
    if stays(span_blank(judged, span)) && is_other(part.kind) {
        left.push(part)?;
        return Ok(());
    }
    Ok(())
}

// Of these spans, the parts that stay and may hold metadata.
fn left_parts(alloc: Global, judged: bool, spans: &[Span]) -> Result<Vec<Part>, AllocError>
    ensures { IfOk result (λ left. left.items ≡ left_parts judged spans.now) }
{
    let mut left = Vec::new(alloc);
    for span in spans {
        note_left(judged, *span, &mut left)?;
    }
    Ok(left)
}

// Whether scrubbing would leave the bytes of a span as they are.
fn is_settled(judged: bool, file: &[u8], span: Span) -> bool
    requires ordered { span.from ≤ span.end }
    requires within { span.end ≤ length file.now }
    ensures { result ≡ is_settled judged file.now span }
{
    is_blank(span_blank(judged, span), &file[span.from..span.end])
}

// The same of all spans.
fn are_settled(judged: bool, file: &[u8], spans: &[Span]) -> bool
    requires { All (IsInside (length file.now)) spans.now }
    ensures { result ≡ list_all (is_settled judged file.now) spans.now }
{
    for span in spans {
        if !is_settled(judged, file, *span) {
            return false;
        }
    }
    true
}

/// The parts of a file without its metadata that stay though they may hold some, in their order.
/// A file that [`scrub`](crate::heif::scrub) would change is refused, and one that is no HEIF file.
pub fn parts_left(alloc: Global, file: &[u8]) -> Result<Result<Vec<Part>, Fault>, AllocError>
    ensures { IfOk result (λ made. parts_made made ≡ settled file.now) }
{
    let Some(found) = layout(alloc, file)? else {
        return Ok(Err(Fault::Unstable));
    };
    let Layout { spans, judged } = found;
    if !are_settled(judged, file, &spans) {
        return Ok(Err(Fault::Unstable));
    }
    Ok(Ok(left_parts(alloc, judged, &spans)?))
}

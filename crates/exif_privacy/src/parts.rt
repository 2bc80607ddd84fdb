//! The parts of a file in which locations are erased.

ghost use Rattle.std.specs.Prelude.{◌≡◌, ◌∷◌, ◌≤◌, [], length, map, All, IfOk, IfSome};
ghost use Rattle.std.specs.Option.{option_map};
ghost use Rattle.exif_inventory.specs.Promises.{EndsIn};
ghost use Rattle.exif_inventory_heif.specs.Walks.{IsInside};
ghost use Rattle.exif_privacy.specs.Files.{heif_part, heif_parts, holds_more, is_tiff, parts_of, tiff_part};

use exif_blanks::blank::{is_blank, span_blank};
use exif_inventory::{Kind, Part};
use exif_inventory_heif::{Layout, Span, layout, part_of};
use exif_lengths::inventory;
use std::alloc::{AllocError, Global};

// Whether a file is TIFF data.
fn is_tiff(file: &[u8]) -> bool
    ensures { result ≡ is_tiff file.now }
{
    file.starts_with(b"II*\0") || file.starts_with(b"MM\0*")
}

// A TIFF file: one part.
fn tiff_parts(alloc: Global, len: usize) -> Result<Vec<Part>, AllocError>
    ensures value { IfOk result (λ parts. parts.items ≡ tiff_part len ∷ []) }
    ensures inside { IfOk result (λ parts. All (EndsIn len) parts.items) }
{
    let mut parts = Vec::new(alloc);
    parts.push(Part {
        kind: Kind::Exif,
        picture: 0,
        offset: 0,
        len,
        data_offset: 0,
        data_len: len,
    })?;
    Ok(parts)
}

// Whether a part of a HEIF file that describes its picture holds something else, too: a name, a
// text, or bytes behind its fields, which would go if the file were scrubbed.
fn holds_more(file: &[u8], judged: bool, span: Span) -> bool
    requires ordered { span.from ≤ span.end }
    requires within { span.end ≤ length file.now }
    ensures { result ≡ holds_more file.now judged span }
{
    let how = span_blank(judged, span);
    matches!(part_of(judged, span).kind, Kind::Picture)
        && !is_blank(how, &file[span.from..span.end])
}

// The part of a HEIF file that a span is: one that holds something else, too, is not known.
fn heif_part(file: &[u8], judged: bool, span: Span) -> Part
    requires ordered { span.from ≤ span.end }
    requires within { span.end ≤ length file.now }
    ensures { result ≡ heif_part file.now judged span }
{
    let mut part = part_of(judged, span);
    if holds_more(file, judged, span) {
        part.kind = Kind::Unknown;
    }
    part
}

// The parts of a HEIF file with this layout.
fn layout_parts(alloc: Global, file: &[u8], layout: &Layout) -> Result<Vec<Part>, AllocError>
    requires { All (IsInside (length file.now)) layout.now.spans.items }
    ensures { IfOk result (λ parts. parts.items
        ≡ map (heif_part file.now layout.now.judged) layout.now.spans.items) }
{
    let mut parts = Vec::with_capacity(alloc, layout.spans.len())?;
    for span in layout.spans.iter() {
        parts.push(heif_part(file, layout.judged, *span))?;
    }
    Ok(parts)
}

// The parts of a HEIF or AVIF file.
fn heif_parts(alloc: Global, file: &[u8]) -> Result<Option<Vec<Part>>, AllocError>
    ensures value { IfOk result (λ parts. option_map (λ v. v.items) parts ≡ heif_parts file.now) }
    ensures inside { IfOk result (λ found. IfSome found
        (λ parts. All (EndsIn (length file.now)) parts.items)) }
{
    let Some(found) = layout(alloc, file)? else {
        return Ok(None);
    };
    let parts = layout_parts(alloc, file, &found)?;
    Ok(Some(parts))
}

/// The parts of a JPEG, WebP, PNG, JPEG XL, HEIF or AVIF file in the order of their bytes, and that
/// of a TIFF file: all of it is Exif data. A piece of the picture that has another length than its
/// standard gives is a part that is not known, and so is a box of a HEIF file that describes the
/// picture and holds a name, a text or other bytes, too. `None` for a file of another format.
pub fn parts_of(alloc: Global, file: &[u8]) -> Result<Option<Vec<Part>>, AllocError>
    ensures value { IfOk result (λ parts. option_map (λ v. v.items) parts ≡ parts_of file.now) }
    ensures inside { IfOk result (λ found. IfSome found
        (λ parts. All (EndsIn (length file.now)) parts.items)) }
{
    if is_tiff(file) {
        return Ok(Some(tiff_parts(alloc, file.len())?));
    }
    match inventory(alloc, file)? {
        Some(parts) => Ok(Some(parts)),
        None => heif_parts(alloc, file),
    }
}

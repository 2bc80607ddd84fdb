//! A file without its metadata.

ghost use Rattle.std.specs.Prelude.{◌≡◌, ◌≤◌, length, IfOk};
ghost use Rattle.exif_inventory_heif.specs.Inventories.{heif_layout};
ghost use Rattle.exif_scrub.specs.HeifPromises.{AllBecome};
ghost use Rattle.exif_scrub.specs.HeifScrubbing.{answered, emptied, scrubbed, span_emptied};

use crate::heif::fault::Fault;
use crate::heif::settled::parts_left;
use exif_blanks::blank::{overwrite, span_blank};
use exif_inventory::Part;
use exif_inventory_heif::{Layout, Span, layout};
use std::alloc::{AllocError, Global};

// Takes the metadata of a span out.
fn empty_span(file: &mut [u8], judged: bool, span: Span)
    requires ordered { span.from ≤ span.end }
    requires within { span.end ≤ length file.old }
    ensures { file.new ≡ span_emptied judged span file.old }
{
    let how = span_blank(judged, span);
    overwrite(how, &mut file[span.from..span.end]);
}

/// Takes all metadata out of a HEIF or AVIF file, in place, and answers whether it is one: the
/// first half of [`scrub`]. A file of another format stays as it is. Out of memory leaves each part
/// as it was, or scrubbed.
pub fn empty(alloc: Global, file: &mut [u8]) -> Result<bool, AllocError>
    ensures new { IfOk result (λ is_heif. (is_heif, file.new) ≡ emptied file.old) }
    ensures each { IfOk result (λ _. AllBecome file.old file.new (heif_layout file.old)) }
{
    let Some(found) = layout(alloc, file)? else {
        return Ok(false);
    };
    let Layout { spans, judged } = found;
    for span in spans.iter() {
        empty_span(file, judged, *span);
    }
    Ok(true)
}

/// Takes all metadata out of a HEIF or AVIF file, in place, and answers the parts that stay though
/// they may hold some, in their order: `None` for a file of another format, which stays as it is.
///
/// The data of Exif and XMP items become empty data of their kind. Those of items that are not
/// known become zeros, and so do bytes that no item has in boxes with the items' data. Boxes with
/// an XMP packet or content credentials, and boxes that are not known, become free space of the
/// same size. The names of the handler and of items become zeros and spaces, but for those that
/// encoders give every file (`Color`, `PictureHandler`).
///
/// Of properties those stay that describe a picture, with their fields, and of groups of items
/// those that show alternatives or two eyes; the contents of the others become zeros. So do bytes
/// behind the fields of a group, and behind the entries of the lists of items, of their data,
/// properties and references; the type of an auxiliary picture, if it is not a known one, and what
/// follows it; and the units in the configuration of a HEVC or AV1 decoder that are no parameters,
/// but for their headers.
///
/// No byte moves, and of all other parts none changes: tracks (`moov`), what is cut off, and, where
/// the items are not understood, boxes that are not known and those with the items' data stay, and
/// are answered.
///
/// The answer is found in the new file: each part of it is the picture's, empty, or answered, and
/// scrubbing it again changes nothing ([`crate::heif::laws`]). A file of which that does not hold is
/// refused ([`Fault`]). Then its metadata are overwritten all the same, so don't use the bytes.
///
/// Out of memory leaves each part as it was, or scrubbed.
pub fn scrub(alloc: Global, file: &mut [u8]) -> Result<Result<Option<Vec<Part>>, Fault>, AllocError>
    ensures answer { IfOk result (λ made. answered file.new made ≡ scrubbed file.old) }
    ensures each { IfOk result (λ _. AllBecome file.old file.new (heif_layout file.old)) }
{
    if !empty(alloc, file)? {
        return Ok(Ok(None));
    }
    match parts_left(alloc, file)? {
        Ok(left) => Ok(Ok(Some(left))),
        Err(fault) => Ok(Err(fault)),
    }
}

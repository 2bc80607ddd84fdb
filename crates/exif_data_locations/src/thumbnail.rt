//! The thumbnail of Exif data (Exif 2.32, 4.5.8): a JPEG stream with metadata of its own.

ghost use Rattle.std.specs.Prelude.{◌≡◌, ◌+◌, ◌≤◌, false, drop, length, All, IfNone, IfOk, IfSome, IsErr, OnOk};
ghost use Rattle.std.specs.Str.{bytes_eq};
ghost use Rattle.exif_data_locations.specs.Erasing.{own_erased};
ghost use Rattle.exif_data_locations.specs.Known.{MayBeRead};
ghost use Rattle.exif_data_locations.specs.Thumbnails.{chain_tag, has_thumbnail, if_same, number_named, other_answer, part_answer, part_erased, parts_erased, read_thumbnail_erased, second, span_erased, span_in, stream_erased, stretch_erased, thumbnail_erased, thumbnail_span, unjudged, what_of, with_further};
ghost use Rattle.exif_edit_base.specs.Readings.{read_of, reading};
ghost use Rattle.exif_inventory.specs.Promises.{EndsIn};
ghost use Rattle.exif_types.specs.Lookup.{is_named};

use crate::erase::erase_own;
use crate::reason::{Reason, note_if};
use crate::region::{What, all_zero, erase_what};
use exif_edit_base::patch::Span;
use exif_edit_base::read::{read, reads_as};
use exif_inventory::{Kind, Part, inventory};
use exif_locations::Unread;
use exif_tiff::stop::Stop;
use exif_tiff::tiff::Parsed;
use exif_types::{Context, Field};
use std::alloc::{AllocError, Global};

// JPEGInterchangeFormat and JPEGInterchangeFormatLength.
const OFFSET: u16 = 0x201;

const LENGTH: u16 = 0x202;

// Whether a field of the second directory has this number in its tag.
fn is_named(number: u16, field: &Field) -> bool
    ensures { result ≡ is_named (chain_tag number) second field.now }
{
    matches!(field.tag.0, Context::Tiff) && field.tag.1 == number && field.ifd_num.0 == 1
}

// The number that the last field of the second directory with a tag holds.
fn number_named(number: u16, fields: &[Field]) -> Option<u32>
    ensures { result ≡ number_named number fields.now }
{
    let mut last = None;
    for field in fields {
        if is_named(number, field) {
            last = field.value.get_uint(0);
        }
    }
    last
}

// This many bytes from an offset on, if data of a length have them.
fn span_in(total: usize, offset: u32, len: u32) -> Option<Span>
    ensures value { result ≡ span_in total offset len }
    ensures within { IfSome result (λ span. span.offset + span.len ≤ total) }
{
    let len = len as usize;
    if offset as usize + len <= total {
        Some(Span { offset, len })
    } else {
        None
    }
}

// Where the thumbnail of data of a length is.
fn thumbnail_span(total: usize, fields: &[Field]) -> Option<Span>
    ensures value { result ≡ thumbnail_span total fields.now }
    ensures within { IfSome result (λ span. span.offset + span.len ≤ total) }
{
    let offset = number_named(OFFSET, fields)?;
    let len = number_named(LENGTH, fields)?;
    span_in(total, offset, len)
}

// What data that are not looked at hold.
fn unjudged(bytes: &[u8]) -> What
    ensures { result ≡ unjudged bytes.now }
{
    if all_zero(bytes) {
        What::Other
    } else {
        What::Residual(Reason::Thumbnail)
    }
}

// The same of those behind so many.
fn unjudged_behind(n: usize, bytes: &[u8]) -> What
    ensures { result ≡ unjudged (drop n bytes.now) }
{
    match bytes.get(n..) {
        Some(rest) => unjudged(rest),
        None => What::Other,
    }
}

// What the data of a part hold that are no Exif data.
fn what_of(kind: Kind, bytes: &[u8]) -> What
    ensures { result ≡ what_of kind bytes.now }
{
    match kind {
        Kind::Xmp | Kind::PhotoshopXmp => What::Xmp,
        Kind::Iptc => What::Iptc,
        Kind::Jfif => unjudged_behind(14, bytes),
        Kind::Adobe => unjudged_behind(12, bytes),
        Kind::JfifThumbnail
        | Kind::PhotoshopOther
        | Kind::ExtendedXmp
        | Kind::Comment
        | Kind::ContentCredentials
        | Kind::Trailer
        | Kind::Unknown
        | Kind::Broken => unjudged(bytes),
        _ => What::Other,
    }
}

// Erases the locations of such data, and answers whether they may still hold one.
fn erase_other(unread: Unread, kind: Kind, bytes: &mut [u8]) -> bool
    ensures { (bytes.new, result) ≡ other_answer unread kind bytes.old }
{
    let what = what_of(kind, bytes);
    erase_what(OFFSET, unread, what, bytes).is_some()
}

// What is read of data, where that is not known already; `None` where their header is wrong.
fn read_if_unknown(
    alloc: Global,
    bytes: &[u8],
    known: Option<Parsed>,
) -> Result<Option<Parsed>, AllocError>
    requires { MayBeRead bytes.now known }
    ensures some { IfOk result (λ parsed. MayBeRead bytes.now parsed) }
    ensures none { IfOk result (λ parsed. IfNone parsed (IsErr (reading bytes.now))) }
{
    if known.is_some() {
        return Ok(known);
    }
    match read(alloc, bytes) {
        Ok(parsed) => Ok(Some(parsed)),
        Err(Stop::Fault(_)) => Ok(None),
        Err(Stop::OutOfMemory) => Err(AllocError),
    }
}

// Whether data have a thumbnail.
fn has_thumbnail(alloc: Global, bytes: &[u8], known: Option<Parsed>) -> Result<bool, AllocError>
    requires { MayBeRead bytes.now known }
    ensures { IfOk result (λ has. has ≡ has_thumbnail bytes.now) }
{
    match read_if_unknown(alloc, bytes, known)? {
        Some(parsed) => Ok(thumbnail_span(bytes.len(), parsed.fields.as_slice()).is_some()),
        None => Ok(false),
    }
}

// Erases the locations of Exif data but for those in a further thumbnail, and answers whether they
// may still hold one.
fn erase_further(alloc: Global, unread: Unread, bytes: &mut [u8]) -> Result<bool, AllocError>
    ensures { IfOk result (λ left. (bytes.new, left)
        ≡ with_further (own_erased unread bytes.old)) }
{
    let (whys, parsed) = erase_own(alloc, unread, bytes)?;
    let further = has_thumbnail(alloc, bytes, parsed)?;
    Ok(!whys.is_empty() || further)
}

// Erases the locations in the data of a part, and answers whether they may still hold one.
fn erase_part(
    alloc: Global,
    unread: Unread,
    kind: Kind,
    bytes: &mut [u8],
) -> Result<bool, AllocError>
    ensures { IfOk result (λ left. (bytes.new, left) ≡ part_answer unread kind bytes.old) }
{
    match kind {
        Kind::Exif | Kind::PhotoshopExif => erase_further(alloc, unread, bytes),
        _ => Ok(erase_other(unread, kind, bytes)),
    }
}

// Erases the locations in one part of a stream, and answers whether it may still hold one.
fn erase_in_part(
    alloc: Global,
    unread: Unread,
    bytes: &mut [u8],
    part: Part,
) -> Result<bool, AllocError>
    requires { EndsIn (length bytes.old) part }
    ensures { IfOk result (λ left. (bytes.new, left) ≡ part_erased unread part bytes.old) }
{
    let end = part.data_offset + part.data_len;
    erase_part(alloc, unread, part.kind, &mut bytes[part.data_offset..end])
}

// Erases the locations in parts one after the other, and answers whether one may still hold one.
fn erase_parts(
    alloc: Global,
    unread: Unread,
    bytes: &mut [u8],
    parts: &[Part],
) -> Result<bool, AllocError>
    requires { All (EndsIn (length bytes.old)) parts.now }
    ensures { IfOk result (λ left. (bytes.new, left)
        ≡ parts_erased unread parts.now false bytes.old) }
{
    let mut left = false;
    for part in parts {
        let found = erase_in_part(alloc, unread, bytes, *part)?;
        left = left || found;
    }
    Ok(left)
}

// Erases the locations in a stream, and answers whether it may still hold one.
fn erase_stream(alloc: Global, unread: Unread, bytes: &mut [u8]) -> Result<bool, AllocError>
    ensures { IfOk result (λ left. (bytes.new, left) ≡ stream_erased unread bytes.old) }
{
    match inventory(alloc, bytes)? {
        Some(parts) => erase_parts(alloc, unread, bytes, parts.as_slice()),
        None => Ok(false),
    }
}

// Erases the locations in a stream that is so many bytes of data, and answers whether it may still
// hold one.
fn erase_stretch(
    alloc: Global,
    unread: Unread,
    bytes: &mut [u8],
    offset: usize,
    len: usize,
) -> Result<bool, AllocError>
    requires { offset + len ≤ length bytes.old }
    ensures { IfOk result (λ left. (bytes.new, left) ≡ stretch_erased unread offset len bytes.old) }
{
    let end = offset + len;
    erase_stream(alloc, unread, &mut bytes[offset..end])
}

// Whether new data are the old ones.
fn are_same(old: &[u8], new: &[u8]) -> bool
    ensures { result ≡ bytes_eq old.now new.now }
{
    old == new
}

// Puts new data that are not the old ones over these, if they are read as these.
fn put_if_same(
    alloc: Global,
    bytes: &mut [u8],
    new: &[u8],
    parsed: &Parsed,
    whys: &mut Vec<Reason>,
) -> Result<(), AllocError>
    requires { length new.now ≡ length bytes.old }
    ensures { OnOk result ((bytes.new, whys.new.items)
        ≡ if_same (read_of parsed.now) bytes.old new.now whys.old.items) }
{
    if are_same(bytes, new) {
        return Ok(());
    }
    if reads_as(alloc, new, parsed)? {
        bytes.copy_from_slice(new);
    } else {
        whys.push(Reason::Shared)?;
    }
    Ok(())
}

// Erases the locations in a stream in data.
fn erase_span(
    alloc: Global,
    unread: Unread,
    bytes: &mut [u8],
    span: Span,
    parsed: &Parsed,
    whys: &mut Vec<Reason>,
) -> Result<(), AllocError>
    requires { span.offset + span.len ≤ length bytes.old }
    ensures { OnOk result ((bytes.new, whys.new.items)
        ≡ span_erased unread (read_of parsed.now) bytes.old whys.old.items span) }
{
    let mut new = Vec::from_slice(alloc, bytes)?;
    let data = new.as_mut_slice();
    let left = erase_stretch(alloc, unread, data, span.offset as usize, span.len)?;
    note_if(left, Reason::Thumbnail, whys)?;
    put_if_same(alloc, bytes, new.as_slice(), parsed, whys)
}

// Erases the locations in the thumbnail of data that were read.
fn erase_read(
    alloc: Global,
    unread: Unread,
    bytes: &mut [u8],
    parsed: &Parsed,
    whys: &mut Vec<Reason>,
) -> Result<(), AllocError>
    ensures { OnOk result ((bytes.new, whys.new.items)
        ≡ read_thumbnail_erased unread (read_of parsed.now) bytes.old whys.old.items) }
{
    match thumbnail_span(bytes.len(), parsed.fields.as_slice()) {
        Some(span) => erase_span(alloc, unread, bytes, span, parsed, whys),
        None => Ok(()),
    }
}

/// Erases the locations in the thumbnail of data, and notes why there may still be one. What is
/// read of the data is not read again, if it is known.
pub fn erase_thumbnail(
    alloc: Global,
    unread: Unread,
    bytes: &mut [u8],
    known: Option<Parsed>,
    whys: &mut Vec<Reason>,
) -> Result<(), AllocError>
    requires { MayBeRead bytes.old known }
    ensures { OnOk result ((bytes.new, whys.new.items)
        ≡ thumbnail_erased unread (bytes.old, whys.old.items)) }
{
    match read_if_unknown(alloc, bytes, known)? {
        Some(parsed) => erase_read(alloc, unread, bytes, &parsed, whys),
        None => Ok(()),
    }
}

//! A JPEG file written again (ITU-T T.81, B.1.1; Exif 2.32, 4.7.2).

ghost use Rattle.std.specs.Prelude.{◌≡◌, ◌≤◌, ◌+◌, ◌∷◌, [], false, length, IfOk};
ghost use Rattle.exif_types.specs.Refusals.{Gives, is_io};
ghost use Rattle.exif_segments.specs.Removing.{behind, payload_of};
ghost use Rattle.exif_parts.specs.Jpeg.{exif_segment, filtered, inserted, is_scanned, pending, resources_len, rewritten, segment_of};
ghost use Rattle.exif_parts.specs.Written.{written_of};

use crate::kept::add_kept;
use crate::marker::{flaw, is_broken, is_end, is_insertion_point, marker_of, split};
use crate::rewritten::{Ended, Rewritten, finish};
use exif_inventory::{Piece, State, is_jpeg, stream_piece};
use exif_segments::Remove;
use exif_types::Error;
use std::alloc::{AllocError, Global};

// The most bytes that new Exif data may have: the length of a segment counts two bytes of its own
// and six of the identifier besides them.
const MAX_EXIF_LEN: usize = 65_527;

// How many bytes of resources follow the front of a segment.
fn resources_len(state: State) -> usize
    ensures { result ≡ resources_len state }
{
    match state {
        State::Resources(_, _, len) => len,
        _ => 0,
    }
}

/// How many bytes a piece has with all resources that it begins.
pub fn full_len(piece: Piece, stream: &[u8]) -> usize
    requires { piece.len + resources_len piece.next ≤ length stream.now }
    ensures { result ≡ piece.len + resources_len piece.next }
{
    piece.len + resources_len(piece.next)
}

// Whether a scan began.
fn is_scanned(state: State) -> bool
    ensures { result ≡ is_scanned state }
{
    match state {
        State::Stream(_, scanned) | State::Resources(_, scanned, _) => scanned,
        _ => false,
    }
}

// The segment of new Exif data.
fn exif_segment(alloc: Global, payload: &[u8]) -> Result<Vec<u8>, AllocError>
    requires { length payload.now ≤ 65527 }
    ensures { IfOk result (λ v. v.items ≡ exif_segment payload.now) }
{
    let len = 8 + payload.len() as u16;
    let mut segment = Vec::from_slice(alloc, &[0xff, 0xe1])?;
    segment.extend_from_slice(&len.to_be_bytes())?;
    segment.extend_from_slice(b"Exif\0\0")?;
    segment.extend_from_slice(payload)?;
    Ok(segment)
}

// The segment of new Exif data if there are some, and no bytes if there are none.
fn segment_of(alloc: Global, put: Option<&[u8]>) -> Result<Vec<u8>, Error>
    ensures gives { Gives (λ v. v.items) result (segment_of (payload_of put.entry)) }
    ensures no_device { is_io result ≡ false }
{
    let Some(payload) = put else {
        return Ok(Vec::new(alloc));
    };
    if payload.len() > MAX_EXIF_LEN {
        return Err(Error::TooBig("Exif data too large"));
    }
    Ok(exif_segment(alloc, payload)?)
}

/// New bytes at their insertion point, and else none.
pub fn inserted(here: bool, new: &[u8]) -> &[u8]
    ensures { result.now ≡ inserted here new.now }
{
    if here { new } else { &[] }
}

/// What is left to be inserted behind a piece.
pub fn pending(here: bool, new: &[u8]) -> &[u8]
    ensures { result.now ≡ pending here new.now }
{
    if here { &[] } else { new }
}

/// What stays of the bytes behind the image.
pub fn behind(remove: Remove, rest: &[u8]) -> &[u8]
    ensures { result.now ≡ behind remove rest.now }
{
    match remove {
        Remove::Exif => rest,
        Remove::Metadata => &[],
    }
}

// The pieces that stay of a stream behind its first marker, and the new segment.
fn filtered(alloc: Global, remove: Remove, new: &[u8], stream: &[u8]) -> Result<Rewritten, Error>
    ensures gives { Gives written_of result
        (filtered (length stream.now) remove false new.now stream.now (255 ∷ 216 ∷ [])) }
    ensures no_device { is_io result ≡ false }
{
    let mut out = Vec::from_slice(alloc, &[0xff, 0xd8])?;
    let mut rest = stream;
    let mut left = new;
    let mut scanned = false;
    while !rest.is_empty() {
        let piece = stream_piece(0, scanned, rest);
        if is_broken(piece.kind) {
            return Ok(finish(out, left, Ended::Cut)?);
        }
        let (bytes, next) = split(full_len(piece, rest), rest);
        if let Some(flaw) = flaw(bytes) {
            return Err(Error::InvalidFormat(flaw));
        }
        let marker = marker_of(bytes);
        let here = is_insertion_point(marker);
        out.extend_from_slice(inserted(here, left))?;
        add_kept(&mut out, remove, piece.kind, bytes)?;
        if is_end(marker) {
            return Ok(finish(out, behind(remove, next), Ended::Whole)?);
        }
        left = pending(here, left);
        scanned = is_scanned(piece.next);
        rest = next;
    }
    Ok(finish(out, left, Ended::Cut)?)
}

/// Writes a JPEG file again: without its Exif data or without all metadata, and with new Exif data
/// if there are some.
///
/// `Remove::Exif` takes out the segments of Exif data, and all else stays byte for byte, in its
/// order. `Remove::Metadata` leaves what shows the picture: the picture's own segments and scans,
/// the headers of JFIF and Adobe with their fields alone, the colour profile, and segments that the
/// standard reserves, of which no one knows what they hold. What is between segments in front of
/// the first scan goes, and so does what follows the image. The orientation is among what goes: new
/// data can hold it.
///
/// New data, which are TIFF data of at most 65,527 bytes, are in front of the first marker segment
/// that is no APP0. Where the file ends before its image does, a segment that is cut off is left
/// out, new data that were not inserted yet are at the end, and [`Ended::Cut`] reports it.
///
/// The file is held in memory, and so is the new one.
///
/// # Errors
///
/// `TooBig` with `Exif data too large`; `InvalidFormat` with `Broken JPEG file` where there are
/// fewer than two bytes, and with `Not a JPEG file`, `Unexpected SOI` and `Invalid segment length`;
/// `OutOfMemory`.
pub fn rewrite_jpeg(
    alloc: Global,
    file: &[u8],
    remove: Remove,
    put: Option<&[u8]>,
) -> Result<Rewritten, Error>
    ensures gives { Gives written_of result (rewritten remove (payload_of put.entry) file.now) }
    ensures no_device { is_io result ≡ false }
{
    let new = segment_of(alloc, put)?;
    if file.len() < 2 {
        return Err(Error::InvalidFormat("Broken JPEG file"));
    }
    if !is_jpeg(file) {
        return Err(Error::InvalidFormat("Not a JPEG file"));
    }
    filtered(alloc, remove, new.as_slice(), split(2, file).1)
}

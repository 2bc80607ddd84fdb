//! A WebP file written again (WebP Container Specification, "Extended File Format", "Metadata",
//! "Animation").

ghost use Rattle.std.specs.Prelude.{◌≡◌, ◌++◌, [], false, codes, IfOk, OnOk};
ghost use Rattle.exif_types.specs.Refusals.{Answers, Gives, is_io};
ghost use Rattle.exif_segments.specs.Removing.{payload_of};
ghost use Rattle.exif_parts.specs.Webp.{canvas_where, file_bytes, file_of, filtered, is_put, named_chunk, new_chunks, webp_rewritten, with_kept};
ghost use Rattle.exif_parts.specs.WebpChunks.{body_space};
ghost use Rattle.exif_parts.specs.WebpViews.{kept_view};

mod canvas;
pub mod chunk;
mod frame;
mod staying;

use crate::jpeg::behind;
use crate::marker::split;
use crate::webp::canvas::canvas;
use crate::webp::chunk::{add_chunk, space_behind, whole_chunk};
use crate::webp::staying::add_kept;
use exif_inventory::is_webp;
use exif_segments::Remove;
use exif_types::Error;
use std::alloc::{AllocError, Global};

// Chunks of so many bytes and the form type are more than four bytes count.
const TOO_LONG: usize = 4_294_967_292;

// The chunks of a body that stay, and the bytes behind it.
#[derive(Drop)]
struct Kept<'a> {
    chunks: Vec<u8>,
    rest: &'a [u8],
}

/// The space of a file behind its header.
pub fn body_space(file: &[u8]) -> Result<u64, Error>
    ensures { Answers (λ space. space) result (body_space file.now) }
{
    if file.len() < 12 {
        return Err(Error::InvalidFormat("Broken WebP file"));
    }
    if !is_webp(file) {
        return Err(Error::InvalidFormat("Not a WebP file"));
    }
    let size = u32::from_le_bytes([file[4], file[5], file[6], file[7]]);
    if size < 4 {
        return Err(Error::InvalidFormat("Invalid header file size"));
    }
    Ok(u64::from(size - 4))
}

// What stays of the chunks in so much space.
fn filtered(
    alloc: Global,
    remove: Remove,
    put: bool,
    space: u64,
    body: &[u8],
) -> Result<Kept, Error>
    ensures gives { Gives kept_view result (filtered space remove put space body.now []) }
    ensures no_device { is_io result ≡ false }
{
    let mut chunks = Vec::new(alloc);
    let mut rest = body;
    let mut left = space;
    while left > 0 {
        let piece = whole_chunk(left, rest)?;
        add_kept(alloc, &mut chunks, remove, put, piece, rest)?;
        let behind = space_behind(piece.next);
        rest = split(left.saturating_sub(behind) as usize, rest).1;
        left = behind;
    }
    Ok(Kept { chunks, rest })
}

// The canvas that is made, where data are put.
fn canvas_where(put: Option<&[u8]>, chunks: &[u8]) -> Result<Option<[u8; 10]>, Error>
    ensures { Answers (λ made. made) result (canvas_where (payload_of put.entry) chunks.now) }
{
    match put {
        Some(_) => canvas(chunks),
        None => Ok(None),
    }
}

// These chunks, behind that of a canvas if one was made.
fn with_canvas(
    alloc: Global,
    made: Option<[u8; 10]>,
    chunks: Vec<u8>,
) -> Result<Vec<u8>, AllocError>
    ensures { IfOk result (λ v. v.items ≡ named_chunk (codes "VP8X") made ++ chunks.items) }
{
    let Some(payload) = made else {
        return Ok(chunks);
    };
    let mut new = Vec::new(alloc);
    add_chunk(&mut new, b"VP8X", &[], &payload)?;
    new.extend_from_slice(&chunks)?;
    Ok(new)
}

// Adds the chunk of new Exif data, if there are some.
fn add_put(out: &mut Vec<u8>, put: Option<&[u8]>) -> Result<(), AllocError>
    ensures { OnOk result
        (out.new.items ≡ out.old.items ++ named_chunk (codes "EXIF") (payload_of put.entry)) }
{
    match put {
        Some(payload) => add_chunk(out, b"EXIF", &[], payload),
        None => Ok(()),
    }
}

// The chunks of the new file.
fn new_chunks(
    alloc: Global,
    made: Option<[u8; 10]>,
    chunks: Vec<u8>,
    put: Option<&[u8]>,
) -> Result<Vec<u8>, AllocError>
    ensures { IfOk result (λ v. v.items ≡ new_chunks made chunks.items (payload_of put.entry)) }
{
    let mut new = with_canvas(alloc, made, chunks)?;
    add_put(&mut new, put)?;
    Ok(new)
}

// The file of these chunks, where four bytes hold its size.
fn file_of(alloc: Global, chunks: &[u8]) -> Result<Vec<u8>, Error>
    ensures gives { Gives (λ v. v.items) result (file_of chunks.now) }
    ensures no_device { is_io result ≡ false }
{
    if chunks.len() >= TOO_LONG {
        return Err(Error::TooBig("Exif data too large"));
    }
    let size = chunks.len() as u32 + 4;
    let mut file = Vec::from_slice(alloc, b"RIFF")?;
    file.extend_from_slice(&size.to_le_bytes())?;
    file.extend_from_slice(b"WEBP")?;
    file.extend_from_slice(chunks)?;
    Ok(file)
}

// The file of what was kept, and of new data.
fn with_kept(
    alloc: Global,
    remove: Remove,
    put: Option<&[u8]>,
    kept: Kept,
) -> Result<Vec<u8>, Error>
    ensures gives { Gives (λ v. v.items) result
        (with_kept remove (payload_of put.entry) (kept_view kept.entry)) }
    ensures no_device { is_io result ≡ false }
{
    let Kept { chunks, rest } = kept;
    let made = canvas_where(put, &chunks)?;
    let chunks = new_chunks(alloc, made, chunks, put)?;
    let mut file = file_of(alloc, &chunks)?;
    file.extend_from_slice(behind(remove, rest))?;
    Ok(file)
}

// Whether data are put.
fn is_put(put: Option<&[u8]>) -> bool
    ensures { result ≡ is_put (payload_of put.entry) }
{
    put.is_some()
}

/// Writes a WebP file again: without its Exif data or without all metadata, and with new Exif data
/// if there are some.
///
/// `Remove::Exif` takes out the chunks `EXIF`, and all else stays byte for byte, in its order.
/// `Remove::Metadata` leaves what shows the picture, its colours among it: XMP and chunks that are
/// not known go, and so does what follows the RIFF file. An animation frame keeps its fields and
/// the chunks of its picture; whatever else is within it goes, and its size is set right. The flags
/// of `VP8X` are set to what is there.
///
/// New data, which are TIFF data, are in a last chunk `EXIF`. A file that has no `VP8X` is given
/// one, made of the header of its image. The size of the file is set right, and odd payloads are
/// padded with a zero.
///
/// The file is held in memory, and so is the new one, for a time twice.
///
/// # Errors
///
/// `InvalidFormat` with `Broken WebP file`, `Not a WebP file`, `Invalid header file size` and
/// `Chunk overflowing parent`; `NotSupported` with `WebP file without an image header`; `TooBig`
/// with `Exif data too large` where four bytes no longer hold the size of the file; `OutOfMemory`.
pub fn rewrite_webp(
    alloc: Global,
    file: &[u8],
    remove: Remove,
    put: Option<&[u8]>,
) -> Result<Vec<u8>, Error>
    ensures gives { Gives (λ v. v.items) result
        (webp_rewritten remove (payload_of put.entry) file.now) }
    ensures no_device { is_io result ≡ false }
{
    let space = body_space(file)?;
    let kept = filtered(alloc, remove, is_put(put), space, split(12, file).1)?;
    with_kept(alloc, remove, put, kept)
}

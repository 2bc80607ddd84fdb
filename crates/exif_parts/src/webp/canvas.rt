//! The canvas of a WebP file: what its extended format says of the image.

ghost use Rattle.std.specs.Prelude.{◌≡◌, ◌<◌};
ghost use Rattle.exif_types.specs.Refusals.{Answers};
ghost use Rattle.exif_parts.specs.Webp.{canvas, extended, image_canvas, lossless, lossy, new_flags, without, without_xmp};

use crate::webp::chunk::{name_in, payload_in};
use exif_segments::Remove;
use exif_types::Error;

// The flags of a canvas: Exif data, XMP and alpha.
const EXIF: u8 = 0x08;

const XMP: u8 = 0x04;

const ALPHA: u8 = 0x10;

// The flags without one of them.
fn without(flag: u8, flags: u8) -> u8
    requires { 0 < flag }
    ensures { result ≡ without flag flags }
{
    if (flags / flag) % 2 == 1 {
        flags - flag
    } else {
        flags
    }
}

// The flags without that of XMP, where all metadata go.
fn without_xmp(remove: Remove, flags: u8) -> u8
    ensures { result ≡ without_xmp remove flags }
{
    match remove {
        Remove::Exif => flags,
        Remove::Metadata => without(XMP, flags),
    }
}

/// The flags of a file: that of Exif data is set where some are put.
pub fn new_flags(remove: Remove, put: bool, flags: u8) -> u8
    ensures { result ≡ new_flags remove put flags }
{
    let others = without(EXIF, without_xmp(remove, flags));
    if put { others + EXIF } else { others }
}

// The payload of a VP8X chunk: flags, and two sizes less one.
fn extended(flags: u8, width: u32, height: u32) -> [u8; 10]
    ensures { result ≡ extended flags width height }
{
    let [a, b, c, _] = width.saturating_sub(1).to_le_bytes();
    let [d, e, f, _] = height.saturating_sub(1).to_le_bytes();
    [flags, 0, 0, 0, a, b, c, d, e, f]
}

// The canvas of a lossy image.
fn lossy(payload: &[u8]) -> Option<[u8; 10]>
    ensures { result ≡ lossy payload.now }
{
    if payload.len() < 10 || payload[3..6] != [0x9d, 0x01, 0x2a] {
        return None;
    }
    let width = u16::from_le_bytes([payload[6], payload[7]]) % 16384;
    let height = u16::from_le_bytes([payload[8], payload[9]]) % 16384;
    Some(extended(EXIF, u32::from(width), u32::from(height)))
}

// The canvas of a lossless image.
fn lossless(payload: &[u8]) -> Option<[u8; 10]>
    ensures { result ≡ lossless payload.now }
{
    if payload.len() < 5 || payload[0] != 0x2f {
        return None;
    }
    let bits = u32::from_le_bytes([payload[1], payload[2], payload[3], payload[4]]);
    let flags = if (bits / 268_435_456) % 2 == 1 {
        EXIF + ALPHA
    } else {
        EXIF
    };
    Some(extended(flags, bits % 16384 + 1, (bits / 16384) % 16384 + 1))
}

// The canvas of the image in the first chunk.
fn image_canvas(chunks: &[u8]) -> Option<[u8; 10]>
    ensures { result ≡ image_canvas chunks.now }
{
    let name = name_in(chunks);
    if name == &b"VP8 "[..] {
        return lossy(payload_in(chunks));
    }
    if name == &b"VP8L"[..] {
        return lossless(payload_in(chunks));
    }
    None
}

/// The payload of the VP8X chunk that a file is to be given, whose chunks these are: none where it
/// has one.
pub fn canvas(chunks: &[u8]) -> Result<Option<[u8; 10]>, Error>
    ensures { Answers (λ made. made) result (canvas chunks.now) }
{
    if name_in(chunks) == &b"VP8X"[..] {
        return Ok(None);
    }
    match image_canvas(chunks) {
        Some(payload) => Ok(Some(payload)),
        None => Err(Error::NotSupported("WebP file without an image header")),
    }
}

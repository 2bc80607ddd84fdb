//! The marker at the front of a piece of a JPEG stream (ITU-T T.81, B.1.1).

ghost use Rattle.std.specs.Prelude.{◌≡◌, ◌≤◌, ◌-◌, length, take, drop};
ghost use Rattle.std.specs.Option.{option_map};
ghost use Rattle.exif_segments.specs.Jpeg.{stands_alone, two_bytes};
ghost use Rattle.exif_parts.specs.Markers.{body_of, flaw, is_broken, is_end, is_insertion_point, is_reserved, marker_of, prefix_of, segment_flaw};

use exif_inventory::{Kind, fill_len};

// The start and the end of an image.
const SOI: u8 = 0xd8;

const EOI: u8 = 0xd9;
// The segment of an application that JFIF uses.
const APP0: u8 = 0xe0;

/// The first bytes of a list, as many as there are up to `len`, and the rest.
pub fn split(len: usize, bytes: &[u8]) -> (&[u8], &[u8])
    ensures first { result.0.now ≡ take len bytes.now }
    ensures most { length result.0.now ≤ len }
    ensures rest { result.1.now ≡ drop len bytes.now }
    ensures left { length result.1.now ≡ length bytes.now - len }
{
    if len < bytes.len() {
        (&bytes[..len], &bytes[len..])
    } else {
        (bytes, &[])
    }
}

/// The second byte of its marker, if a piece begins with one.
pub fn marker_of(piece: &[u8]) -> Option<u8>
    ensures { result ≡ marker_of piece.now }
{
    let fill = fill_len(piece);
    if fill == 0 || fill == piece.len() {
        return None;
    }
    Some(piece[fill])
}

/// The bytes of a piece up to its marker, and the marker.
pub fn prefix_of(piece: &[u8]) -> &[u8]
    ensures { result.now ≡ prefix_of piece.now }
{
    split(fill_len(piece) + 1, piece).0
}

/// What follows the marker of a piece.
pub fn body_of(piece: &[u8]) -> &[u8]
    ensures { result.now ≡ body_of piece.now }
{
    split(fill_len(piece) + 1, piece).1
}

// Whether no length follows a marker.
fn has_no_length(marker: u8) -> bool
    ensures { result ≡ stands_alone marker }
{
    matches!(marker, 0x00 | 0x01 | 0xd0..=0xd9)
}

// The length that a body gives for itself: a big-endian u16.
fn given_len(body: &[u8]) -> usize
    ensures { result ≡ two_bytes body.now }
{
    if body.len() < 2 {
        return 0;
    }
    usize::from(u16::from_be_bytes([body[0], body[1]]))
}

// Why a marker with this body is refused.
fn segment_flaw(marker: u8, body: &[u8]) -> Option<&'static str>
    ensures { option_map (λ text. text.now) result ≡ segment_flaw marker body.now }
{
    if marker == SOI {
        return Some("Unexpected SOI");
    }
    if !has_no_length(marker) && given_len(body) < 2 {
        return Some("Invalid segment length");
    }
    None
}

/// Why a piece is refused, if it is.
pub fn flaw(piece: &[u8]) -> Option<&'static str>
    ensures { option_map (λ text. text.now) result ≡ flaw piece.now }
{
    match marker_of(piece) {
        Some(marker) => segment_flaw(marker, body_of(piece)),
        None => None,
    }
}

/// Whether a piece is cut off.
pub fn is_broken(kind: Kind) -> bool
    ensures { result ≡ is_broken kind }
{
    matches!(kind, Kind::Broken)
}

/// Whether new Exif data go in front of a piece that begins with this marker.
pub fn is_insertion_point(marker: Option<u8>) -> bool
    ensures { result ≡ is_insertion_point marker }
{
    match marker {
        Some(marker) => marker != APP0,
        None => false,
    }
}

/// Whether a marker is the end of an image.
pub fn is_end(marker: Option<u8>) -> bool
    ensures { result ≡ is_end marker }
{
    match marker {
        Some(marker) => marker == EOI,
        None => false,
    }
}

/// Whether the standard keeps a marker for later use: no one knows what such a segment holds, and
/// it may be the picture's.
pub fn is_reserved(marker: Option<u8>) -> bool
    ensures { result ≡ is_reserved marker }
{
    match marker {
        Some(marker) => matches!(marker, 0x02..=0xbf | 0xf9..=0xfd),
        None => false,
    }
}

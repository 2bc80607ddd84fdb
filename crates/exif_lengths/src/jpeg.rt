//! How many bytes the segments of a JPEG stream have (ITU-T T.81, B.2; T.87, C.2).

ghost use Rattle.std.specs.Prelude.{◌≡◌, ◌<◌, ◌≤◌, length};
ghost use Rattle.exif_inventory.specs.JpegPieces.{fill_len};
ghost use Rattle.exif_lengths.specs.Jpeg.{frame_fits, is_frame, jpeg_step, mapping_fits, marked_step, oversize_fits, parameters_fit, piece_step, scan_fits, segment_fits};

use crate::step::Step;
use crate::tables::{huffman_fits, quantization_fits};
use exif_inventory::{fill_len, stream_piece};

// The start and the end of an image.
const SOI: u8 = 0xd8;

const EOI: u8 = 0xd9;
// The start of a scan.
const SOS: u8 = 0xda;

// Whether a frame header has three bytes for each component behind its own six.
fn frame_fits(content: &[u8]) -> bool
    ensures { result ≡ frame_fits content.now }
{
    content.len() >= 6 && content.len() == 6 + 3 * usize::from(content[5])
}

// Whether a scan header has two bytes for each component beside its own four.
fn scan_fits(content: &[u8]) -> bool
    ensures { result ≡ scan_fits content.now }
{
    content.len() >= 4 && content.len() == 4 + 2 * usize::from(content[0])
}

// Whether a mapping table has whole entries.
fn mapping_fits(content: &[u8]) -> bool
    ensures { result ≡ mapping_fits content.now }
{
    content.len() >= 3 && content[2] > 0 && (content.len() - 3) % usize::from(content[2]) == 0
}

// Whether the size of an oversize image has two numbers.
fn oversize_fits(content: &[u8]) -> bool
    ensures { result ≡ oversize_fits content.now }
{
    content.len() >= 2
        && content[1] >= 2
        && content[1] <= 4
        && content.len() == 2 + 2 * usize::from(content[1])
}

// Whether parameters of JPEG-LS have the length that their identifier gives.
fn parameters_fit(content: &[u8]) -> bool
    ensures { result ≡ parameters_fit content.now }
{
    if content.is_empty() {
        return false;
    }
    match content[0] {
        1 => content.len() == 11,
        2 | 3 => mapping_fits(content),
        4 => oversize_fits(content),
        _ => false,
    }
}

// Whether a segment begins a frame, or a sequence of them.
fn is_frame(code: u8) -> bool
    ensures { result ≡ is_frame code }
{
    matches!(
        code,
        0xc0..=0xc3 | 0xc5..=0xc7 | 0xc9..=0xcb | 0xcd..=0xcf | 0xde | 0xf7
    )
}

// Whether the content of a segment has the length that its standard gives it.
fn segment_fits(code: u8, content: &[u8]) -> bool
    ensures { result ≡ segment_fits code content.now }
{
    if is_frame(code) {
        return frame_fits(content);
    }
    match code {
        0xc4 => huffman_fits(content),
        0xcc => content.len() % 2 == 0,
        SOS => scan_fits(content),
        0xdb => quantization_fits(content),
        0xdc | 0xdd => content.len() == 2,
        0xdf => content.len() == 1,
        0xf8 => parameters_fit(content),
        _ => false,
    }
}

// A piece that begins with so many ffs, which fill the space before its marker.
fn marked_step(scanning: bool, fill: usize, piece: &[u8]) -> Step
    requires { fill ≤ length piece.now }
    ensures { result ≡ marked_step scanning fill piece.now }
{
    let len = piece.len();
    if len < fill + 1 || len == fill + 2 {
        return Step {
            len,
            fits: false,
            scanning: false,
        };
    }
    let code = piece[fill];
    if len == fill + 1 {
        return Step {
            len,
            fits: scanning || code == SOI || code == EOI,
            scanning,
        };
    }
    Step {
        len,
        fits: segment_fits(code, &piece[fill + 3..]),
        scanning: code == SOS,
    }
}

// A piece of a stream: bytes outside of segments, a marker without a length, or a segment.
fn piece_step(scanning: bool, piece: &[u8]) -> Step
    ensures { result ≡ piece_step scanning piece.now }
{
    let fill = fill_len(piece);
    if fill == 0 {
        return Step {
            len: piece.len(),
            fits: scanning,
            scanning,
        };
    }
    marked_step(scanning, fill, piece)
}

/// The piece at the front of bytes.
pub fn jpeg_step(scanning: bool, bytes: &[u8]) -> Step
    requires { 0 < length bytes.now }
    ensures value { result ≡ jpeg_step scanning bytes.now }
    ensures some { 0 < result.len }
    ensures within { result.len ≤ length bytes.now }
{
    let len = stream_piece(0, true, bytes).len;
    piece_step(scanning, &bytes[..len])
}

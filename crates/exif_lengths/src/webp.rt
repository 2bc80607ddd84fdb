//! How many bytes the chunks of a WebP file have (RFC 9649, 2.7).

ghost use Rattle.std.specs.Prelude.{◌≡◌, ◌<◌, ◌≤◌, length};
ghost use Rattle.exif_lengths.specs.Webp.{chunk_fits, chunk_step, webp_step};

use crate::step::Step;
use exif_inventory::{chunk_piece, is_webp};

// Whether a chunk of this name has data of this size.
fn chunk_fits(name: &[u8], size: u32) -> bool
    ensures { result ≡ chunk_fits name.now size }
{
    match name {
        b"VP8X" => size == 10,
        b"ANIM" => size == 6,
        b"VP8 " | b"VP8L" | b"ALPH" | b"ANMF" => true,
        _ => false,
    }
}

// A chunk that takes so many bytes at the front.
fn chunk_step(len: usize, bytes: &[u8]) -> Step
    requires { len ≤ length bytes.now }
    ensures { result ≡ chunk_step len bytes.now }
{
    if len < 8 {
        return Step {
            len,
            fits: false,
            scanning: false,
        };
    }
    let size = u32::from_le_bytes([bytes[4], bytes[5], bytes[6], bytes[7]]);
    Step {
        len,
        fits: chunk_fits(&bytes[..4], size),
        scanning: false,
    }
}

/// The header of a file, or the chunk, at the front of bytes.
pub fn webp_step(bytes: &[u8]) -> Step
    requires { 0 < length bytes.now }
    ensures value { result ≡ webp_step bytes.now }
    ensures some { 0 < result.len }
    ensures within { result.len ≤ length bytes.now }
{
    if is_webp(bytes) {
        return Step {
            len: 12,
            fits: true,
            scanning: false,
        };
    }
    chunk_step(chunk_piece(bytes.len() as u64, bytes).len, bytes)
}

//! How many bytes the boxes of a JPEG XL file have (ISO/IEC 18181-2, clause 9).

ghost use Rattle.std.specs.Prelude.{◌≡◌, ◌<◌, ◌≤◌, length};
ghost use Rattle.exif_inventory.specs.BoxHeaders.{head_of};
ghost use Rattle.exif_lengths.specs.Jxl.{box_fits, content_fits, is_stream, jxl_step};

use crate::index::index_fits;
use crate::step::Step;
use exif_inventory::box_piece;
use exif_inventory::boxes::{content_of, head_of, name_of};

// Whether a box of this type has the length that its standard gives it.
fn content_fits(name: &[u8], content: &[u8]) -> bool
    ensures { result ≡ content_fits name.now content.now }
{
    match name {
        b"JXL " => content.len() == 4,
        b"ftyp" => content.len() == 12,
        b"jxll" => content.len() == 1,
        b"jxli" => index_fits(content),
        b"jxlp" => content.len() >= 4,
        b"jxlc" => true,
        _ => false,
    }
}

// Whether a box is a codestream, or a part of one.
fn is_stream(name: &[u8]) -> bool
    ensures { result ≡ is_stream name.now }
{
    matches!(name, b"jxlc" | b"jxlp")
}

// Whether the box at the front of bytes has the length that its standard gives it.
fn box_fits(bytes: &[u8]) -> bool
    ensures { result ≡ box_fits bytes.now (head_of bytes.now) }
{
    match head_of(bytes) {
        Some(head) => content_fits(name_of(bytes), content_of(head, bytes)),
        None => bytes.len() >= 8 && is_stream(name_of(bytes)),
    }
}

/// The box at the front of bytes.
pub fn jxl_step(bytes: &[u8]) -> Step
    requires { 0 < length bytes.now }
    ensures value { result ≡ jxl_step bytes.now }
    ensures some { 0 < result.len }
    ensures within { result.len ≤ length bytes.now }
{
    Step {
        len: box_piece(bytes).len,
        fits: box_fits(bytes),
        scanning: false,
    }
}

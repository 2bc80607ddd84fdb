//! The headers of the boxes of a video (ISO/IEC 14496-12:2015, 4.2).

ghost use Rattle.std.specs.Prelude.{◌≡◌, ◌≤◌, length, IfSome};
ghost use Rattle.exif_movie.specs.Boxes.{has_size, head_at};

use exif_inventory::boxes::{Head, box_header, head_of};

// Whether bytes begin with the header of a box that states its size.
fn has_size(bytes: &[u8]) -> bool
    ensures { result ≡ has_size bytes.now }
{
    match box_header(bytes) {
        Some(header) => header.size.is_some(),
        None => false,
    }
}

/// The header of the box that bytes begin with, if the box is whole.
///
/// Only a box of the file itself may have no size, and extend to the end: within other boxes such
/// headers are the zeros that QuickTime ends user data with.
pub fn head_at(is_file: bool, bytes: &[u8]) -> Option<Head>
    ensures value { result ≡ head_at is_file bytes.now }
    ensures least { IfSome result (λ head. 8 ≤ head.front) }
    ensures most { IfSome result (λ head. head.front ≤ 16) }
    ensures front { IfSome result (λ head. head.front ≤ head.len) }
    ensures within { IfSome result (λ head. head.len ≤ length bytes.now) }
{
    if is_file || has_size(bytes) {
        head_of(bytes)
    } else {
        None
    }
}

//! The front of a file, up to the end of its `meta`.

ghost use Rattle.std.specs.Prelude.{◌≡◌, ◌≤◌, ◌++◌, List, ℕ, length, IfSome, Ok};
ghost use Rattle.exif_isobmff.specs.Extents.{behind_meta};
ghost use Rattle.exif_isobmff.specs.HeifFile.{IsHeaderOf, meta_body};
ghost use Rattle.exif_isobmff.specs.Boxes.{sizes_itself};

use crate::file::{Meta, pass};
use crate::{BoxSplitter, Header, Kind};
use byteorder::{BigEndian, ByteOrder};

/// Whether a box says its size, and does not run to the end of the file.
pub fn sizes_itself(bytes: &[u8]) -> bool
    ensures { result ≡ sizes_itself bytes.now }
{
    bytes.len() >= 4 && BigEndian::read_u32(bytes) != 0
}

/// The header that these bytes are, whatever follows: all 8 of them, or 16 where the size is a
/// large one. There is none where the box runs to the end of the file.
pub fn header_of(bytes: &[u8]) -> Option<Header>
    ensures header { IfSome result (λ header. IsHeaderOf header bytes.now) }
    ensures len { IfSome result (λ _. 8 ≤ length bytes.now) }
{
    let mut boxes = BoxSplitter::new(bytes);
    if !boxes.has_header() || !sizes_itself(bytes) {
        return None;
    }
    let Ok(header) = boxes.header() else {
        return None;
    };
    if !boxes.is_empty() {
        return None;
    }
    Some(header)
}

/// The first `meta`, where a prefix of a file settles it, whatever follows.
///
/// A prefix that refuses settles nothing, nor does a box that runs to the end of the file.
pub fn settled_meta(front: &[u8]) -> Option<Meta>
    ensures body { IfSome result
        (λ meta. (rest : List ℕ) → meta_body (front.now ++ rest) ≡ Ok meta.body.now) }
    ensures behind { IfSome result (λ meta. (rest : List ℕ)
        → behind_meta (front.now ++ rest) ≡ meta.behind.now ++ rest) }
{
    let mut rest = front;
    let mut seen = false;
    while sizes_itself(rest) {
        let mut boxes = BoxSplitter::new(rest);
        let Ok((kind, body)) = boxes.child_box() else {
            return None;
        };
        let body = body.into_rest();
        if let Kind::Meta = kind {
            if !seen {
                return None;
            }
            return Some(Meta {
                body,
                behind: boxes.into_rest(),
            });
        }
        let Ok(now) = pass(kind, body.len() as u64, body, seen) else {
            return None;
        };
        seen = now;
        rest = boxes.into_rest();
    }
    None
}

//! A walk over the boxes of some bytes.

ghost use Rattle.std.specs.Prelude.{◌≡◌, ◌<◌, ◌+◌, ◌^◌, ◌++◌, length, OnOk};
ghost use Rattle.exif_movie.specs.Walks.{boxes_in};

use crate::kind::Container;
use crate::part::Part;
use crate::piece::piece_at;
use std::alloc::AllocError;

/// Appends the boxes of some bytes, which begin at an offset in the file.
pub fn push_boxes(
    container: Container,
    level: u8,
    from: usize,
    bytes: &[u8],
    found: &mut Vec<Part>,
) -> Result<(), AllocError>
    requires { from + length bytes.now < 2 ^ 64 }
    ensures { OnOk result
        (found.new.items ≡ found.old.items ++ boxes_in container level from bytes.now) }
{
    let mut at = from;
    let mut rest = bytes;
    while !rest.is_empty() {
        let piece = piece_at(container, rest);
        found.push(Part {
            kind: piece.kind,
            level,
            offset: at,
            data_offset: at + piece.front,
            end: at + piece.len,
        })?;
        at += piece.len;
        rest = &rest[piece.len..];
    }
    Ok(())
}

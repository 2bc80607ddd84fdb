//! A walk over a file, piece after piece.

ghost use Rattle.std.specs.Prelude.{◌≡◌, length, IfOk};
ghost use Rattle.exif_inventory_heif.specs.Walks.{AreSpans, spans_of};

use crate::piece::{State, piece_at};
use crate::span::Span;
use std::alloc::{AllocError, Global};

/// The spans of a file: its boxes, and those in its first `meta`.
pub fn spans_of(alloc: Global, file: &[u8]) -> Result<Vec<Span>, AllocError>
    ensures spans { IfOk result (λ spans. spans.items ≡ spans_of file.now) }
    ensures ordered { IfOk result (λ spans. AreSpans 0 spans.items (length file.now)) }
{
    let mut found = Vec::new(alloc);
    let mut state = State::Before;
    let mut from = 0;
    let mut rest = file;
    while !rest.is_empty() {
        let piece = piece_at(state, rest);
        found.push(Span {
            role: piece.role,
            from,
            content: from + piece.front,
            end: from + piece.len,
        })?;
        from += piece.len;
        state = piece.next;
        rest = &rest[piece.len..];
    }
    Ok(found)
}

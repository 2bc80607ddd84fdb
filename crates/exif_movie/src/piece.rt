//! The box that bytes begin with.

ghost use Rattle.std.specs.Prelude.{◌≡◌, ◌<◌, ◌≤◌, ◌+◌, length};
ghost use Rattle.exif_movie.specs.Pieces.{box_piece, content_front, is_file, is_quicktime_meta, meta_front, piece_at, rest_kind, rest_piece};

use crate::boxes::head_at;
use crate::bytes::is_zeros;
use crate::kind::{Container, Kind};
use crate::nesting::kind_at;
use exif_inventory::boxes::{Head, content_of, name_of};

/// A box, or what follows the last box.
#[derive(Clone, Copy)]
pub struct Piece {
    /// What it holds.
    pub kind: Kind,
    /// How many bytes it has.
    pub len: usize,
    /// How many of its bytes come before its content.
    pub front: usize,
}

// Bytes that are no whole box.
fn rest_kind(bytes: &[u8]) -> Kind
    ensures { result ≡ rest_kind bytes.now }
{
    if is_zeros(bytes) {
        Kind::Free
    } else {
        Kind::Broken
    }
}

// All bytes as one piece.
fn rest_piece(bytes: &[u8]) -> Piece
    ensures { result ≡ rest_piece bytes.now }
{
    Piece {
        kind: rest_kind(bytes),
        len: bytes.len(),
        front: 0,
    }
}

// Whether the content of a box of metadata begins with its handler, as in QuickTime files: there it
// has no version and no flags.
fn is_quicktime_meta(content: &[u8]) -> bool
    ensures { result ≡ is_quicktime_meta content.now }
{
    content.len() >= 8 && &content[4..8] == b"hdlr".as_slice()
}

// How many bytes of a box of metadata come before the boxes in it.
fn meta_front(head: Head, bytes: &[u8]) -> usize
    requires most { head.front ≤ 16 }
    requires front { head.front ≤ head.len }
    requires within { head.len ≤ length bytes.now }
    ensures value { result ≡ meta_front head bytes.now }
    ensures framed { result ≤ head.len }
{
    if is_quicktime_meta(content_of(head, bytes)) {
        head.front
    } else {
        head.len.min(head.front + 4)
    }
}

// How many bytes of a box come before its content.
fn content_front(kind: Kind, head: Head, bytes: &[u8]) -> usize
    requires most { head.front ≤ 16 }
    requires front { head.front ≤ head.len }
    requires within { head.len ≤ length bytes.now }
    ensures value { result ≡ content_front kind head bytes.now }
    ensures framed { result ≤ head.len }
{
    match kind {
        Kind::Unopened(Container::Meta) => meta_front(head, bytes),
        _ => head.front,
    }
}

// A box of this kind.
fn box_piece(kind: Kind, head: Head, bytes: &[u8]) -> Piece
    requires most { head.front ≤ 16 }
    requires front { head.front ≤ head.len }
    requires within { head.len ≤ length bytes.now }
    ensures value { result ≡ box_piece kind head bytes.now }
    ensures len { result.len ≡ head.len }
    ensures framed { result.front ≤ result.len }
{
    Piece {
        kind,
        len: head.len,
        front: content_front(kind, head, bytes),
    }
}

// Whether boxes are those of the file itself.
fn is_file(container: Container) -> bool
    ensures { result ≡ is_file container }
{
    matches!(container, Container::File)
}

/// The piece that bytes begin with.
#[tactic(auto, unfolding(crate::specs::Pieces::piece_at))]
pub fn piece_at(container: Container, bytes: &[u8]) -> Piece
    requires { 0 < length bytes.now }
    ensures value { result ≡ piece_at container bytes.now }
    ensures some { 0 < result.len }
    ensures within { result.len ≤ length bytes.now }
    ensures framed { result.front ≤ result.len }
{
    let Some(head) = head_at(is_file(container), bytes) else {
        return rest_piece(bytes);
    };
    box_piece(
        kind_at(container, name_of(bytes), content_of(head, bytes)),
        head,
        bytes,
    )
}

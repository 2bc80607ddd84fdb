//! The piece of a file that comes next: a box, or the header of `meta`.

ghost use Rattle.std.specs.Prelude.{◌≡◌, ◌<◌, ◌≤◌, ◌+◌, length};
ghost use Rattle.exif_inventory_heif.specs.Pieces.{box_piece, child_piece, content_front, is_meta, meta_piece, piece_at, rest_piece, top_piece};

use crate::role::{Role, child_role, top_role};
use exif_inventory::Kind;
use exif_inventory::boxes::{Head, content_of, head_of, name_of};

/// What the bytes that come next belong to.
#[derive(Clone, Copy)]
pub enum State {
    /// A file before its first `meta`.
    Before,
    /// So much space of a `meta`, and then the rest of the file.
    Inside(usize),
}

/// A piece of a file.
#[derive(Clone, Copy)]
pub struct Piece {
    pub role: Role,
    pub len: usize,
    /// How many of its bytes come before its content.
    pub front: usize,
    /// What comes next.
    pub next: State,
}

// All bytes that are left, as one piece.
fn rest_piece(bytes: &[u8], next: State) -> Piece
    ensures { result ≡ rest_piece bytes.now next }
{
    Piece {
        role: Role::Known(Kind::Broken),
        len: bytes.len(),
        front: 0,
        next,
    }
}

// How many bytes of a box come before its content: a type of its own is named there.
fn content_front(role: Role, head: Head) -> usize
    requires front { head.front ≤ 16 }
    ensures { result ≡ content_front role head }
{
    match role {
        Role::Known(Kind::Picture) => 0,
        Role::Known(Kind::Xmp) => head.len.min(head.front + 16),
        _ => head.front,
    }
}

// A box of this role.
fn box_piece(role: Role, head: Head, next: State) -> Piece
    requires least { head.front ≤ 16 }
    requires front { head.front ≤ head.len }
    ensures value { result ≡ box_piece role head next }
    ensures framed { result.front ≤ result.len }
{
    Piece {
        role,
        len: head.len,
        front: content_front(role, head),
        next,
    }
}

// The header of a `meta`, with its version and flags, if it has them.
fn meta_piece(head: Head) -> Piece
    requires front { head.front ≤ head.len }
    requires least { 8 ≤ head.front }
    ensures value { result ≡ meta_piece head }
    ensures some { 0 < result.len }
    ensures within { result.len ≤ head.len }
    ensures framed { result.front ≤ result.len }
{
    if head.len - head.front < 4 {
        return Piece {
            role: Role::Known(Kind::Broken),
            len: head.len,
            front: 0,
            next: State::Inside(0),
        };
    }
    Piece {
        role: Role::Meta,
        len: head.front + 4,
        front: 0,
        next: State::Inside(head.len - head.front - 4),
    }
}

// Whether a box is the `meta` that is read.
fn is_meta(state: State, name: &[u8]) -> bool
    ensures { result ≡ is_meta state name.now }
{
    match state {
        State::Before => name == b"meta".as_slice(),
        State::Inside(_) => false,
    }
}

// A box of the file, or all bytes that are left.
#[tactic(auto, unfolding(crate::specs::Pieces::top_piece))]
fn top_piece(state: State, bytes: &[u8]) -> Piece
    requires { 0 < length bytes.now }
    ensures value { result ≡ top_piece state bytes.now }
    ensures some { 0 < result.len }
    ensures within { result.len ≤ length bytes.now }
    ensures framed { result.front ≤ result.len }
{
    let Some(head) = head_of(bytes) else {
        return rest_piece(bytes, state);
    };
    if is_meta(state, name_of(bytes)) {
        return meta_piece(head);
    }
    box_piece(
        top_role(name_of(bytes), content_of(head, bytes)),
        head,
        state,
    )
}

// A child of a `meta` with so many bytes, or all of them.
#[tactic(auto, unfolding(crate::specs::Pieces::child_piece))]
fn child_piece(bytes: &[u8]) -> Piece
    requires { 0 < length bytes.now }
    ensures value { result ≡ child_piece bytes.now }
    ensures some { 0 < result.len }
    ensures within { result.len ≤ length bytes.now }
    ensures framed { result.front ≤ result.len }
{
    let Some(head) = head_of(bytes) else {
        return rest_piece(bytes, State::Inside(0));
    };
    box_piece(
        child_role(name_of(bytes), content_of(head, bytes)),
        head,
        State::Inside(bytes.len() - head.len),
    )
}

/// The piece at the front of bytes.
pub fn piece_at(state: State, bytes: &[u8]) -> Piece
    requires { 0 < length bytes.now }
    ensures value { result ≡ piece_at state bytes.now }
    ensures some { 0 < result.len }
    ensures within { result.len ≤ length bytes.now }
    ensures framed { result.front ≤ result.len }
{
    match state {
        State::Before => top_piece(state, bytes),
        State::Inside(0) => top_piece(state, bytes),
        State::Inside(space) => child_piece(&bytes[..bytes.len().min(space)]),
    }
}

//! The pieces of a file that stay, and a new block in its place.

ghost use Rattle.std.specs.Prelude.{◌≡◌, ◌<◌, ◌≤◌, ◌&&◌, true, false, not, nat_lt, length, IfOk};
ghost use Rattle.exif_inventory.specs.Pieces.{piece_at};
ghost use Rattle.exif_blocks.specs.Blocks.{blocks_put, exif_in, has_exif, has_next, is_exif_part, is_over, next_of, unit_len};

use crate::blocks::Block;
use crate::step::{Place, add_unit, left_behind, step_of};
use exif_inventory::{
    Kind, Part, Piece, State, box_piece, chunk_piece, frame_piece, inventory, png_piece,
    stream_piece,
};
use exif_parts::insertion::full_len;
use exif_parts::split;
use std::alloc::{AllocError, Global};

// ---- the pieces of a file

// Whether what comes next is behind the picture.
fn is_over(state: State) -> bool
    ensures { result ≡ is_over state }
{
    match state {
        State::Stream(picture, _) => picture != 0,
        State::Chunks(space) => space == 0,
        State::Frame(inner, outer) => inner == 0 && outer == 0,
        State::PngChunks | State::JxlBoxes => false,
        _ => true,
    }
}

// Whether a piece of the picture's file comes next.
fn has_next(state: State, bytes: &[u8]) -> bool
    ensures answer { result ≡ has_next state bytes.now }
    ensures open { result ≡ true → is_over state ≡ false }
    ensures some { result ≡ true → 0 < length bytes.now }
{
    !is_over(state) && !bytes.is_empty()
}

// The piece that comes next.
fn piece_in(state: State, bytes: &[u8]) -> Piece
    requires open { is_over state ≡ false }
    requires some { 0 < length bytes.now }
    ensures value { result ≡ piece_at state bytes.now }
    ensures some { 0 < result.len }
    ensures within { result.len ≤ length bytes.now }
{
    match state {
        State::Stream(picture, scanned) => stream_piece(picture, scanned, bytes),
        State::Chunks(space) => chunk_piece(space, bytes),
        State::Frame(inner, outer) => frame_piece(inner, outer, bytes),
        State::PngChunks => png_piece(bytes),
        _ => box_piece(bytes),
    }
}

// How many bytes it has with all resources that it begins.
fn unit_len(state: State, bytes: &[u8], piece: Piece) -> usize
    requires open { is_over state ≡ false }
    requires is { piece ≡ piece_at state bytes.now }
    requires some { 0 < piece.len }
    ensures value { result ≡ unit_len state piece }
    ensures some { 0 < result }
{
    match state {
        State::Stream(_, _) => full_len(piece, bytes),
        _ => piece.len,
    }
}

// What follows it.
fn next_of(state: State) -> State
    ensures { result ≡ next_of state }
{
    match state {
        State::Resources(picture, scanned, _) => State::Stream(picture, scanned),
        _ => state,
    }
}

// ---- the new file

/// These bytes, and then the pieces that stay of others, with new bytes in their place: where there
/// is none, they are behind all pieces. What follows them stays.
pub fn blocks_put(
    block: Block,
    place: Place,
    start: State,
    new: &[u8],
    bytes: &[u8],
    front: Vec<u8>,
) -> Result<Vec<u8>, AllocError>
    ensures { IfOk result (λ v. v.items
        ≡ blocks_put (length bytes.now) block place start new.now bytes.now front.items) }
{
    let mut out = front;
    let mut rest = bytes;
    let mut left = new;
    let mut state = start;
    while has_next(state, rest) {
        let piece = piece_in(state, rest);
        let (unit, behind) = split(unit_len(state, rest, piece), rest);
        let step = step_of(block, place, state, piece, unit);
        add_unit(&mut out, step, left, unit)?;
        left = left_behind(step, left);
        state = next_of(piece.next);
        rest = behind;
    }
    out.extend_from_slice(left)?;
    out.extend_from_slice(rest)?;
    Ok(out)
}

// ---- the Exif data of a file

// Whether a part is the Exif data of the first picture.
fn is_exif_part(part: Part) -> bool
    ensures { result ≡ is_exif_part part }
{
    part.picture == 0 && matches!(part.kind, Kind::Exif)
}

// Whether one of these parts is.
fn has_exif(parts: &[Part]) -> bool
    ensures { result ≡ has_exif parts.now }
{
    for part in parts {
        if is_exif_part(*part) {
            return true;
        }
    }
    false
}

/// Whether the first picture of a file has Exif data.
pub fn exif_in(alloc: Global, file: &[u8]) -> Result<bool, AllocError>
    ensures { IfOk result (λ found. found ≡ exif_in file.now) }
{
    match inventory(alloc, file)? {
        Some(parts) => Ok(has_exif(parts.as_slice())),
        None => Ok(false),
    }
}

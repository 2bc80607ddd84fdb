//! A chunk of a WebP file (WebP Container Specification, "RIFF File Format").

ghost use Rattle.std.specs.Prelude.{◌≡◌, ◌<◌, ◌≤◌, ◌-◌, ◌++◌, ◌&&◌, ◌||◌, nat_le, nat_lt, Some, length, IfOk, OnOk};
ghost use Rattle.exif_types.specs.Refusals.{Answers, refusal_of};
ghost use Rattle.exif_inventory.specs.WebpPieces.{number_at};
ghost use Rattle.exif_parts.specs.WebpChunks.{chunk_bytes, cut_refusal, is_cut, name_in, payload_in, space_behind, whole_chunk};

use crate::marker::{is_broken, split};
use exif_inventory::{Piece, State, chunk_piece};
use exif_types::Error;
use std::alloc::AllocError;

// How many bytes come before the payload of a chunk: its name and its size.
const FRONT_LEN: usize = 8;

/// The name of the chunk at the front of bytes.
pub fn name_in(bytes: &[u8]) -> &[u8]
    ensures { result.now ≡ name_in bytes.now }
{
    split(4, bytes).0
}

// The size that it gives for its payload.
fn size_in(bytes: &[u8]) -> u32
    requires { 8 ≤ length bytes.now }
    ensures { result ≡ number_at 4 bytes.now }
{
    u32::from_le_bytes([bytes[4], bytes[5], bytes[6], bytes[7]])
}

/// The payload of the chunk at the front of bytes.
pub fn payload_in(bytes: &[u8]) -> &[u8]
    ensures { result.now ≡ payload_in bytes.now }
{
    if bytes.len() < FRONT_LEN {
        return &[];
    }
    split(size_in(bytes) as usize, split(FRONT_LEN, bytes).1).0
}

/// Adds a chunk of this name, whose payload is in two parts, and its pad byte if it has one.
pub fn add_chunk(
    out: &mut Vec<u8>,
    name: &[u8],
    first: &[u8],
    rest: &[u8],
) -> Result<(), AllocError>
    ensures { OnOk result
        (out.new.items ≡ out.old.items ++ chunk_bytes name.now (first.now ++ rest.now)) }
{
    let len = first.len() + rest.len();
    let size = (len as u64).to_le_bytes();
    out.extend_from_slice(name)?;
    out.extend_from_slice(&size[..4])?;
    out.extend_from_slice(first)?;
    out.extend_from_slice(rest)?;
    if len % 2 == 1 {
        out.push(0)?;
    }
    Ok(())
}

/// The space that is left behind a piece for the chunks of the file.
pub fn space_behind(state: State) -> u64
    ensures { result ≡ space_behind state }
{
    match state {
        State::Chunks(space) | State::Frame(_, space) => space,
        _ => 0,
    }
}

// Whether a chunk that is not whole does not fit into the space.
fn is_overflowing(space: u64, bytes: &[u8]) -> bool
    ensures { result ≡ (nat_lt space 8
        || (nat_le 8 (length bytes.now) && nat_lt (space - 8) (number_at 4 bytes.now))) }
{
    space < 8 || (bytes.len() >= FRONT_LEN && u64::from(size_in(bytes)) > space - 8)
}

// Why a chunk that is not whole is refused.
fn cut_error(space: u64, bytes: &[u8]) -> Error
    ensures { refusal_of result ≡ Some (cut_refusal space bytes.now) }
{
    if is_overflowing(space, bytes) {
        return Error::InvalidFormat("Chunk overflowing parent");
    }
    Error::InvalidFormat("Broken WebP file")
}

// Whether a piece, with all its chunks if it is a frame, ends behind the bytes.
fn is_cut(space: u64, piece: Piece, bytes: &[u8]) -> bool
    ensures { result ≡ is_cut space piece bytes.now }
{
    is_broken(piece.kind) || (bytes.len() as u64) < space.saturating_sub(space_behind(piece.next))
}

/// The piece at the front of so much space, if it is whole with all its chunks.
pub fn whole_chunk(space: u64, bytes: &[u8]) -> Result<Piece, Error>
    requires { 0 < space }
    ensures piece { Answers (λ piece. piece) result (whole_chunk space bytes.now) }
    ensures less { IfOk result (λ piece. space_behind piece.next < space) }
{
    if bytes.is_empty() {
        return Err(cut_error(space, bytes));
    }
    let piece = chunk_piece(space, bytes);
    if is_cut(space, piece, bytes) {
        return Err(cut_error(space, bytes));
    }
    Ok(piece)
}

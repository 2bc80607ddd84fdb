//! What stays of a chunk of a WebP file.

ghost use Rattle.std.specs.Prelude.{◌≡◌, ◌++◌, take, drop, OnOk};
ghost use Rattle.exif_parts.specs.Webp.{kept_chunk, settled};
ghost use Rattle.exif_parts.specs.WebpChunks.{chunk_bytes, frame_chunks, name_in, payload_in};

use crate::kept::stays;
use crate::marker::split;
use crate::webp::canvas::new_flags;
use crate::webp::chunk::{add_chunk, name_in, payload_in};
use crate::webp::frame::frame_chunks;
use exif_inventory::{Piece, State};
use exif_segments::Remove;
use std::alloc::{AllocError, Global};

// The name and the size of a frame, its fields, and both.
const FRONT_LEN: usize = 8;

const FIELDS_LEN: usize = 16;

const FRAME_LEN: usize = FRONT_LEN + FIELDS_LEN;

// Adds a frame with its fields and the chunks of its picture, of which it has so much space.
fn add_frame(alloc: Global, out: &mut Vec<u8>, space: usize, bytes: &[u8]) -> Result<(), AllocError>
    ensures { OnOk result (out.new.items ≡ out.old.items ++ chunk_bytes (name_in bytes.now)
        (take 16 (drop 8 bytes.now) ++ frame_chunks (take space (drop 24 bytes.now)))) }
{
    let chunks = frame_chunks(alloc, split(space, split(FRAME_LEN, bytes).1).0)?;
    let fields = split(FIELDS_LEN, split(FRONT_LEN, bytes).1).0;
    add_chunk(out, name_in(bytes), fields, &chunks)
}

// Adds a chunk with its flags right.
fn add_settled(out: &mut Vec<u8>, remove: Remove, put: bool, bytes: &[u8]) -> Result<(), AllocError>
    ensures { OnOk result (out.new.items ≡ out.old.items ++ chunk_bytes (name_in bytes.now)
        (settled remove put (name_in bytes.now) (payload_in bytes.now))) }
{
    let name = name_in(bytes);
    let payload = payload_in(bytes);
    if name == &b"VP8X"[..] && !payload.is_empty() {
        let flags = [new_flags(remove, put, payload[0])];
        return add_chunk(out, name, &flags, &payload[1..]);
    }
    add_chunk(out, name, &[], payload)
}

/// Adds what stays of the piece at the front of bytes: a frame that is left without metadata has
/// its fields and the chunks of its picture.
pub fn add_kept(
    alloc: Global,
    out: &mut Vec<u8>,
    remove: Remove,
    put: bool,
    piece: Piece,
    bytes: &[u8],
) -> Result<(), AllocError>
    ensures { OnOk result
        (out.new.items ≡ out.old.items ++ kept_chunk remove put piece bytes.now) }
{
    if !stays(remove, piece.kind, None) {
        return Ok(());
    }
    match (remove, piece.next) {
        (Remove::Metadata, State::Frame(space, _)) => {
            add_frame(alloc, out, space as usize, bytes)
        }
        _ => add_settled(out, remove, put, bytes),
    }
}

//! The chunks of an animation frame in a WebP file (WebP Container Specification, "Animation").

ghost use Rattle.std.specs.Prelude.{◌≡◌, ◌++◌, IfOk, OnOk};
ghost use Rattle.exif_parts.specs.WebpChunks.{frame_chunks, frame_kept};

use crate::kept::stays;
use crate::marker::split;
use crate::webp::chunk::{add_chunk, name_in, payload_in};
use exif_inventory::{Kind, frame_piece};
use exif_segments::Remove;
use std::alloc::{AllocError, Global};

// Adds the piece of a frame at the front of bytes, if it is a chunk of the picture.
fn add_piece(out: &mut Vec<u8>, kind: Kind, bytes: &[u8]) -> Result<(), AllocError>
    ensures { OnOk result (out.new.items ≡ out.old.items ++ frame_kept kind bytes.now) }
{
    if stays(Remove::Metadata, kind, None) {
        return add_chunk(out, name_in(bytes), &[], payload_in(bytes));
    }
    Ok(())
}

/// The chunks of the picture in a frame, whose space these bytes are.
pub fn frame_chunks(alloc: Global, bytes: &[u8]) -> Result<Vec<u8>, AllocError>
    ensures { IfOk result (λ v. v.items ≡ frame_chunks bytes.now) }
{
    let mut out = Vec::new(alloc);
    let mut rest = bytes;
    while !rest.is_empty() {
        let piece = frame_piece(rest.len() as u64, 0, rest);
        add_piece(&mut out, piece.kind, rest)?;
        rest = split(piece.len, rest).1;
    }
    Ok(out)
}

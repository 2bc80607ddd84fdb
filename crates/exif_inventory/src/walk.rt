//! A walk over a file, piece after piece.

ghost use Rattle.std.specs.Prelude.{◌≡◌, ◌+◌, ◌<◌, ◌≤◌, ◌^◌, length, All, IfOk, IfSome, OnOk};
ghost use Rattle.std.specs.Option.{option_map};
ghost use Rattle.exif_inventory.specs.Promises.{AreInOrder, EndsIn, IsWithin};
ghost use Rattle.exif_inventory.specs.Walks.{added, inventory, joins, parts_of, walk_view, walked};

use crate::kind::Kind;
use crate::part::Part;
use crate::piece::{Piece, State, piece_at, start_of};
use std::alloc::{AllocError, Global};

// The parts that are whole, and the one that may go on.
#[derive(Drop)]
struct Walk {
    done: Vec<Part>,
    last: Part,
}

// Whether a piece goes on with a part: pieces of the picture are one part, and so are those of a
// trailer.
fn joins(part: Part, piece: Piece) -> bool
    ensures { result ≡ joins part piece }
{
    part.picture == piece.picture
        && match part.kind {
            Kind::Picture => matches!(piece.kind, Kind::Picture),
            Kind::Trailer => matches!(piece.kind, Kind::Trailer),
            _ => false,
        }
}

// Adds a piece to the parts.
fn add(walk: &mut Walk, piece: Piece) -> Result<(), AllocError>
    requires fits { walk.old.last.offset + walk.old.last.len + piece.len < 2 ^ 64 }
    requires framed { piece.front + piece.pad ≤ piece.len }
    requires within { IsWithin walk.old.last }
    ensures { OnOk result (walk_view walk.new ≡ added (walk_view walk.old) piece) }
{
    if joins(walk.last, piece) {
        walk.last.len += piece.len;
        walk.last.data_len += piece.len;
        return Ok(());
    }
    walk.done.push(walk.last)?;
    walk.last = Part {
        kind: piece.kind,
        picture: piece.picture,
        offset: walk.last.offset + walk.last.len,
        len: piece.len,
        data_offset: walk.last.offset + walk.last.len + piece.front,
        data_len: piece.len - piece.front - piece.pad,
    };
    Ok(())
}

// The parts of a file that begins so.
fn parts_from(alloc: Global, start: State, file: &[u8]) -> Result<Vec<Part>, AllocError>
    ensures parts { IfOk result (λ parts. parts.items ≡ parts_of start file.now) }
    ensures covers { IfOk result (λ parts. AreInOrder 0 parts.items (length file.now)) }
    ensures within { IfOk result (λ parts. All IsWithin parts.items) }
    ensures inside { IfOk result (λ parts. All (EndsIn (length file.now)) parts.items) }
{
    let last = Part {
        kind: Kind::Picture,
        picture: 0,
        offset: 0,
        len: 0,
        data_offset: 0,
        data_len: 0,
    };
    let mut walk = Walk {
        done: Vec::new(alloc),
        last,
    };
    let mut state = start;
    let mut rest = file;
    while !rest.is_empty() {
        let piece = piece_at(state, rest);
        add(&mut walk, piece)?;
        state = piece.next;
        rest = &rest[piece.len..];
    }
    let Walk { mut done, last } = walk;
    done.push(last)?;
    Ok(done)
}

/// The parts of a JPEG, WebP, PNG or JPEG XL file, in the order of their bytes: each begins where
/// the one before it ends, and together they are the file. `None` for a file of another format, and
/// for a JPEG XL codestream without a container.
///
/// A picture that follows the first one in a JPEG file, as a gain map or a preview does, has the
/// next number, and parts of its own. It takes memory for the list.
pub fn inventory(alloc: Global, file: &[u8]) -> Result<Option<Vec<Part>>, AllocError>
    ensures answer { IfOk result (λ parts. option_map (λ v. v.items) parts ≡ inventory file.now) }
    ensures covers { IfOk result (λ found. IfSome found
        (λ parts. AreInOrder 0 parts.items (length file.now))) }
    ensures within { IfOk result (λ found. IfSome found (λ parts. All IsWithin parts.items)) }
    ensures inside { IfOk result (λ found. IfSome found
        (λ parts. All (EndsIn (length file.now)) parts.items)) }
{
    match start_of(file) {
        Some(start) => Ok(Some(parts_from(alloc, start, file)?)),
        None => Ok(None),
    }
}

//! What is written of a piece of a file that gets a new block.

ghost use Rattle.std.specs.Prelude.{◌≡◌, ◌++◌, ◌&&◌, ◌||◌, not, OnOk};
ghost use Rattle.exif_blocks.specs.Blocks.{ends_file, is_before, is_behind, is_exif, is_own, is_own_chunk, is_own_there, is_packed_xmp, is_replaced, left_behind, step_of, unit_put};

use crate::blocks::Block;
use exif_inventory::{Kind, Piece, State};
use exif_parts::insertion::{
    inserted, is_broken, is_insertion_point, is_named, marker_of, pending,
};
use exif_parts::split;
use std::alloc::AllocError;

/// Where a new block goes.
#[derive(Clone, Copy)]
pub enum Place {
    /// Behind the first Exif data.
    BehindExif,
    /// Behind the first piece.
    BehindFirst,
    /// In front of the first marker segment that is no APP0.
    BeforeMarker,
}

/// What is written of a piece: the new block in front of it, the piece, the new block behind it.
#[derive(Clone, Copy)]
pub struct Step {
    before: bool,
    stays: bool,
    behind: bool,
}

// ---- what goes

// Whether pieces of a kind hold such a block.
fn is_own(block: Block, kind: Kind) -> bool
    ensures { result ≡ is_own block kind }
{
    match block {
        Block::Xmp => matches!(kind, Kind::Xmp | Kind::ExtendedXmp),
        Block::Profile => matches!(kind, Kind::IccProfile),
    }
}

// Whether the chunk of a PNG file holds such a block.
fn is_own_chunk(block: Block, chunk: &[u8]) -> bool
    ensures { result ≡ is_own_chunk block chunk.now }
{
    match block {
        Block::Xmp => {
            is_named(4, chunk, b"iTXt")
                && split(18, split(8, chunk).1).0 == b"XML:com.adobe.xmp\0".as_slice()
        }
        Block::Profile => {
            is_named(4, chunk, b"iCCP")
                || is_named(4, chunk, b"sRGB")
                || is_named(4, chunk, b"cICP")
        }
    }
}

// Whether a box, whose header has so many bytes, holds an XMP packet compressed.
fn is_packed_xmp(header: usize, bytes: &[u8]) -> bool
    ensures { result ≡ is_packed_xmp header bytes.now }
{
    is_named(4, bytes, b"brob") && is_named(header, bytes, b"xml ")
}

// Whether a chunk or box holds such a block in a way that its kind does not say.
fn is_own_there(block: Block, state: State, piece: Piece, bytes: &[u8]) -> bool
    ensures { result ≡ is_own_there block state piece bytes.now }
{
    match (block, state) {
        (_, State::PngChunks) => is_own_chunk(block, bytes),
        (Block::Xmp, State::JxlBoxes) => is_packed_xmp(piece.front, bytes),
        _ => false,
    }
}

// Whether a piece is replaced by a new block.
fn is_replaced(block: Block, state: State, piece: Piece, bytes: &[u8]) -> bool
    ensures { result ≡ is_replaced block state piece bytes.now }
{
    !is_broken(piece.kind)
        && (is_own(block, piece.kind) || is_own_there(block, state, piece, bytes))
}

// ---- where the new block goes

// Whether a piece is Exif data.
fn is_exif(kind: Kind) -> bool
    ensures { result ≡ is_exif kind }
{
    matches!(kind, Kind::Exif)
}

// Whether no piece can be behind this one: it is a box that goes to the end of the file.
fn ends_file(state: State, bytes: &[u8]) -> bool
    ensures { result ≡ ends_file state bytes.now }
{
    match state {
        State::JxlBoxes => split(4, bytes).0 == [0, 0, 0, 0].as_slice(),
        _ => false,
    }
}

// Whether the new block goes in front of a piece.
fn is_before(place: Place, state: State, kind: Kind, bytes: &[u8]) -> bool
    ensures { result ≡ is_before place state kind bytes.now }
{
    match place {
        Place::BehindExif => is_exif(kind) && ends_file(state, bytes),
        Place::BehindFirst => false,
        Place::BeforeMarker => is_insertion_point(marker_of(bytes)),
    }
}

// Whether it goes behind it.
fn is_behind(place: Place, state: State, kind: Kind, bytes: &[u8]) -> bool
    ensures { result ≡ is_behind place state kind bytes.now }
{
    match place {
        Place::BehindExif => is_exif(kind) && !ends_file(state, bytes),
        Place::BehindFirst => true,
        Place::BeforeMarker => false,
    }
}

// ---- the step

/// What is written of a piece, where nothing was put yet.
pub fn step_of(block: Block, place: Place, state: State, piece: Piece, bytes: &[u8]) -> Step
    ensures { result ≡ step_of block place state piece bytes.now }
{
    Step {
        before: is_before(place, state, piece.kind, bytes),
        stays: !is_replaced(block, state, piece, bytes),
        behind: is_behind(place, state, piece.kind, bytes),
    }
}

/// Adds a piece, and what is left to be put, as a step says.
pub fn add_unit(out: &mut Vec<u8>, step: Step, new: &[u8], bytes: &[u8]) -> Result<(), AllocError>
    ensures { OnOk result (out.new.items ≡ out.old.items ++ unit_put step new.now bytes.now) }
{
    out.extend_from_slice(inserted(step.before, new))?;
    out.extend_from_slice(inserted(step.stays, bytes))?;
    out.extend_from_slice(inserted(step.behind, new))
}

/// What is left to be put behind it.
pub fn left_behind(step: Step, new: &[u8]) -> &[u8]
    ensures { result.now ≡ left_behind step new.now }
{
    pending(step.before || step.behind, new)
}

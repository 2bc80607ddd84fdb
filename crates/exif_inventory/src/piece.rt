//! The piece of a file that comes next.

ghost use Rattle.std.specs.Prelude.{◌≡◌, ◌<◌, ◌≤◌, ◌+◌, length};
ghost use Rattle.exif_inventory.specs.Pieces.{piece_at, start_of};

use crate::jpeg::{between_piece, is_jpeg, start_piece, stream_piece};
use crate::jxl::{box_piece, is_jxl};
use crate::kind::Kind;
use crate::png::{behind_png, is_png, png_piece, signature_piece};
use crate::resource::resource_piece;
use crate::webp::{chunk_piece, frame_piece, header_piece, is_webp};

/// What the bytes that come next belong to.
#[derive(Clone, Copy)]
pub enum State {
    /// The first marker of a JPEG file.
    Opening,
    /// A JPEG stream behind its first marker: which picture it is, and whether a scan began.
    Stream(u64, bool),
    /// The resources of Photoshop in a segment of a stream, which have so much space.
    Resources(u64, bool, usize),
    /// What follows a JPEG stream: the number of the next picture.
    Between(u64),
    /// The header of a WebP file.
    Header,
    /// The chunks of a WebP file: so much space is left for them.
    Chunks(u64),
    /// The chunks of an animation frame in a WebP file: so much space is left for them, and so much
    /// for the chunks that follow the frame.
    Frame(u64, u64),
    /// The signature of a PNG file.
    PngSignature,
    /// The chunks of a PNG file.
    PngChunks,
    /// What follows the last chunk of a PNG file.
    PngEnd,
    /// The boxes of a JPEG XL file.
    JxlBoxes,
}

/// A piece of a file.
#[derive(Clone, Copy)]
pub struct Piece {
    /// What it holds.
    pub kind: Kind,
    /// The picture that it belongs to.
    pub picture: u64,
    /// How many bytes it has.
    pub len: usize,
    /// How many of its bytes come before its data.
    pub front: usize,
    /// How many follow them.
    pub pad: usize,
    /// What comes next.
    pub next: State,
}

/// What a file begins with, if its format is known.
pub fn start_of(file: &[u8]) -> Option<State>
    ensures { result ≡ start_of file.now }
{
    if is_jpeg(file) {
        Some(State::Opening)
    } else if is_webp(file) {
        Some(State::Header)
    } else if is_png(file) {
        Some(State::PngSignature)
    } else if is_jxl(file) {
        Some(State::JxlBoxes)
    } else {
        None
    }
}

/// The piece at the front of bytes.
pub fn piece_at(state: State, bytes: &[u8]) -> Piece
    requires { 0 < length bytes.now }
    ensures value { result ≡ piece_at state bytes.now }
    ensures some { 0 < result.len }
    ensures within { result.len ≤ length bytes.now }
    ensures framed { result.front + result.pad ≤ result.len }
{
    match state {
        State::Opening => start_piece(bytes),
        State::Stream(picture, scanned) => stream_piece(picture, scanned, bytes),
        State::Resources(picture, scanned, space) => {
            resource_piece(picture, scanned, space, bytes)
        }
        State::Between(picture) => between_piece(picture, bytes),
        State::Header => header_piece(bytes),
        State::Chunks(space) => chunk_piece(space, bytes),
        State::Frame(inner, outer) => frame_piece(inner, outer, bytes),
        State::PngSignature => signature_piece(bytes),
        State::PngChunks => png_piece(bytes),
        State::PngEnd => behind_png(bytes),
        State::JxlBoxes => box_piece(bytes),
    }
}

//! The pieces of a WebP file (WebP Container Specification, "RIFF File Format").

ghost use Rattle.std.specs.Prelude.{◌≡◌, ◌<◌, ◌≤◌, ◌+◌, length};
ghost use Rattle.exif_inventory.specs.WebpPieces.{chunk_kind, chunk_piece, frame_chunk, frame_front, frame_kind, frame_piece, frame_rest, front_of, header_piece, is_webp, kind_chunk, pad_of, padded, rest_of, sized_chunk};

use crate::kind::Kind;
use crate::piece::{Piece, State};

// The header: `RIFF`, a size, and `WEBP`.
const HEADER_LEN: usize = 12;
// The name and the size of a chunk.
const NAME_LEN: usize = 8;
// The fields of an animation frame, before its chunks.
const FRAME_LEN: u64 = 16;

/// Whether bytes begin as a WebP file does.
pub fn is_webp(bytes: &[u8]) -> bool
    ensures { result ≡ is_webp bytes.now }
{
    bytes.len() >= HEADER_LEN && bytes[..4] == b"RIFF"[..] && bytes[8..12] == b"WEBP"[..]
}

// What a chunk is, by its name.
fn chunk_kind(name: &[u8]) -> Kind
    ensures { result ≡ chunk_kind name.now }
{
    match name {
        b"VP8 " | b"VP8L" | b"VP8X" | b"ALPH" | b"ANIM" => Kind::Picture,
        b"ICCP" => Kind::IccProfile,
        b"EXIF" => Kind::Exif,
        b"XMP " => Kind::Xmp,
        _ => Kind::Unknown,
    }
}

// All bytes that are left, as one piece.
fn rest_of(kind: Kind, bytes: &[u8]) -> Piece
    ensures { result ≡ rest_of kind bytes.now }
{
    Piece {
        kind,
        picture: 0,
        len: bytes.len(),
        front: 0,
        pad: 0,
        next: State::Chunks(0),
    }
}

/// The header of a file, or all that there is of it.
pub fn header_piece(bytes: &[u8]) -> Piece
    requires { 0 < length bytes.now }
    ensures value { result ≡ header_piece bytes.now }
    ensures some { 0 < result.len }
    ensures within { result.len ≤ length bytes.now }
    ensures framed { result.front + result.pad ≤ result.len }
{
    if bytes.len() < HEADER_LEN {
        return rest_of(Kind::Broken, bytes);
    }
    let size = u32::from_le_bytes([bytes[4], bytes[5], bytes[6], bytes[7]]);
    Piece {
        kind: Kind::Picture,
        picture: 0,
        len: HEADER_LEN,
        front: 0,
        pad: 0,
        next: State::Chunks(u64::from(size.saturating_sub(4))),
    }
}

// The length of a payload in a space, with its pad byte if it is odd and has one.
fn padded(size: u64, space: u64) -> u64
    requires { size ≤ space }
    ensures value { result ≡ padded size space }
    ensures within { result ≤ space }
    ensures least { size ≤ result }
{
    if size % 2 == 1 && size < space {
        size + 1
    } else {
        size
    }
}

// How many bytes of a chunk come before its data.
fn front_of(kind: Kind) -> usize
    ensures value { result ≡ front_of kind }
    ensures most { result ≤ 8 }
{
    match kind {
        Kind::Picture => 0,
        _ => NAME_LEN,
    }
}

// How many bytes follow the data of a chunk.
fn pad_of(kind: Kind, size: usize, len: usize) -> usize
    requires { size ≤ len }
    ensures { result ≡ pad_of kind size len }
{
    match kind {
        Kind::Picture => 0,
        _ => len - size,
    }
}

// The front of an animation frame, with its fields: so much space is left for its chunks, and so
// much for those that follow the frame.
fn frame_front(inner: u64, outer: u64) -> Piece
    ensures { result ≡ frame_front inner outer }
{
    Piece {
        kind: Kind::Picture,
        picture: 0,
        len: NAME_LEN + FRAME_LEN as usize,
        front: 0,
        pad: 0,
        next: State::Frame(inner, outer),
    }
}

// A chunk of this kind and length, whose payload has this size.
fn kind_chunk(kind: Kind, size: usize, len: usize, next: State) -> Piece
    requires { 8 + size ≤ len }
    ensures value { result ≡ kind_chunk kind size len next }
    ensures framed { result.front + result.pad ≤ result.len }
    ensures same { result.len ≡ len }
{
    Piece {
        kind,
        picture: 0,
        len,
        front: front_of(kind),
        pad: pad_of(kind, size, len - NAME_LEN),
        next,
    }
}

// A whole chunk, whose payload has this size, at the front of so much space. Its pad byte may be
// missing at the end of the file.
fn sized_chunk(space: u64, bytes: &[u8], size: u64) -> Piece
    requires space { 8 + size ≤ space }
    requires within { 8 + size ≤ length bytes.now }
    ensures value { result ≡ sized_chunk space bytes.now size }
    ensures some { 0 < result.len }
    ensures within { result.len ≤ length bytes.now }
    ensures framed { result.front + result.pad ≤ result.len }
{
    let taken = padded(size, space - 8);
    let behind = space - 8 - taken;
    if bytes[..4] == b"ANMF"[..] && size >= FRAME_LEN {
        return frame_front(taken - FRAME_LEN, behind);
    }
    let kind = chunk_kind(&bytes[..4]);
    let len = (NAME_LEN as u64 + taken).min(bytes.len() as u64) as usize;
    kind_chunk(kind, size as usize, len, State::Chunks(behind))
}

/// The chunk at the front of so much space, its pad byte included; or all bytes that are left,
/// where they hold no whole chunk, or follow the last one.
#[tactic(auto, unfolding(crate::specs::WebpPieces::chunk_piece))]
pub fn chunk_piece(space: u64, bytes: &[u8]) -> Piece
    requires { 0 < length bytes.now }
    ensures value { result ≡ chunk_piece space bytes.now }
    ensures some { 0 < result.len }
    ensures within { result.len ≤ length bytes.now }
    ensures framed { result.front + result.pad ≤ result.len }
{
    if space == 0 {
        return rest_of(Kind::Trailer, bytes);
    }
    if space < 8 || bytes.len() < NAME_LEN {
        return rest_of(Kind::Broken, bytes);
    }
    let size = u64::from(u32::from_le_bytes([bytes[4], bytes[5], bytes[6], bytes[7]]));
    if space - 8 < size || ((bytes.len() - NAME_LEN) as u64) < size {
        return rest_of(Kind::Broken, bytes);
    }
    sized_chunk(space, bytes, size)
}

// What a chunk of an animation frame is, by its name.
fn frame_kind(name: &[u8]) -> Kind
    ensures { result ≡ frame_kind name.now }
{
    match name {
        b"VP8 " | b"VP8L" | b"ALPH" => Kind::Picture,
        _ => Kind::Unknown,
    }
}

// A whole chunk of an animation frame, whose payload has this size.
fn frame_chunk(inner: u64, outer: u64, bytes: &[u8], size: u64) -> Piece
    requires space { 8 + size ≤ inner }
    requires within { 8 + size ≤ length bytes.now }
    ensures value { result ≡ frame_chunk inner outer bytes.now size }
    ensures some { 0 < result.len }
    ensures within { result.len ≤ length bytes.now }
    ensures framed { result.front + result.pad ≤ result.len }
{
    let taken = padded(size, inner - 8);
    let kind = frame_kind(&bytes[..4]);
    let len = (NAME_LEN as u64 + taken).min(bytes.len() as u64) as usize;
    kind_chunk(
        kind,
        size as usize,
        len,
        State::Frame(inner - 8 - taken, outer),
    )
}

// What is left of an animation frame and holds no whole chunk.
fn frame_rest(inner: u64, outer: u64, bytes: &[u8]) -> Piece
    requires space { 0 < inner }
    requires bytes { 0 < length bytes.now }
    ensures value { result ≡ frame_rest inner outer bytes.now }
    ensures some { 0 < result.len }
    ensures within { result.len ≤ length bytes.now }
    ensures framed { result.front + result.pad ≤ result.len }
{
    Piece {
        kind: Kind::Broken,
        picture: 0,
        len: inner.min(bytes.len() as u64) as usize,
        front: 0,
        pad: 0,
        next: State::Chunks(outer),
    }
}

/// The chunk at the front of so much space of an animation frame; behind its last one, the chunk
/// that follows the frame.
#[tactic(auto, unfolding(crate::specs::WebpPieces::frame_piece))]
pub fn frame_piece(inner: u64, outer: u64, bytes: &[u8]) -> Piece
    requires { 0 < length bytes.now }
    ensures value { result ≡ frame_piece inner outer bytes.now }
    ensures some { 0 < result.len }
    ensures within { result.len ≤ length bytes.now }
    ensures framed { result.front + result.pad ≤ result.len }
{
    if inner == 0 {
        return chunk_piece(outer, bytes);
    }
    if inner < 8 || bytes.len() < NAME_LEN {
        return frame_rest(inner, outer, bytes);
    }
    let size = u64::from(u32::from_le_bytes([bytes[4], bytes[5], bytes[6], bytes[7]]));
    if inner - 8 < size || ((bytes.len() - NAME_LEN) as u64) < size {
        return frame_rest(inner, outer, bytes);
    }
    frame_chunk(inner, outer, bytes, size)
}

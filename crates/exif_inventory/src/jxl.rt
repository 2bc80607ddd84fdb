//! The pieces of a JPEG XL file in its container (ISO/IEC 18181-2, clause 9).

ghost use Rattle.std.specs.Prelude.{◌≡◌, ◌<◌, ◌≤◌, ◌+◌, length};
ghost use Rattle.exif_inventory.specs.JxlPieces.{box_front, box_kind, box_piece, cut_box, cut_kind, exif_box, is_cut_box, is_jxl, kind_box, other_box, rest_of_jxl, whole_box};

use crate::boxes::{head_of, name_of};
use crate::bytes::is_named;
use crate::kind::Kind;
use crate::piece::{Piece, State};

// The first box of a file.
const SIGNATURE: [u8; 12] = [0, 0, 0, 12, b'J', b'X', b'L', b' ', 0x0d, 0x0a, 0x87, 0x0a];
// The size and the type of a box.
const HEADER_LEN: usize = 8;

/// Whether bytes begin as a JPEG XL file in its container does.
pub fn is_jxl(bytes: &[u8]) -> bool
    ensures { result ≡ is_jxl bytes.now }
{
    bytes.len() >= 12 && bytes[..12] == SIGNATURE[..]
}

// What a box is, by its type.
fn box_kind(name: &[u8]) -> Kind
    ensures { result ≡ box_kind name.now }
{
    match name {
        b"JXL " | b"ftyp" | b"jxlc" | b"jxlp" | b"jxll" | b"jxli" => Kind::Picture,
        b"xml " => Kind::Xmp,
        b"jumb" => Kind::ContentCredentials,
        _ => Kind::Unknown,
    }
}

// All bytes that are left, as one piece.
fn rest_of_jxl(kind: Kind, bytes: &[u8]) -> Piece
    ensures { result ≡ rest_of_jxl kind bytes.now }
{
    Piece {
        kind,
        picture: 0,
        len: bytes.len(),
        front: 0,
        pad: 0,
        next: State::JxlBoxes,
    }
}

// What a box that is cut off is: the picture goes as far as it does.
fn cut_kind(kind: Kind) -> Kind
    ensures { result ≡ cut_kind kind }
{
    match kind {
        Kind::Picture => Kind::Picture,
        _ => Kind::Broken,
    }
}

// A box that is cut off, which has its type.
fn cut_box(bytes: &[u8]) -> Piece
    requires { 8 ≤ length bytes.now }
    ensures value { result ≡ cut_box bytes.now }
    ensures len { result.len ≡ length bytes.now }
    ensures framed { result.front + result.pad ≤ result.len }
{
    rest_of_jxl(cut_kind(box_kind(name_of(bytes))), bytes)
}

// A box of this kind and length, of which so many bytes come before its data.
fn kind_box(kind: Kind, len: usize, front: usize) -> Piece
    ensures { result ≡ kind_box kind len front }
{
    Piece {
        kind,
        picture: 0,
        len,
        front,
        pad: 0,
        next: State::JxlBoxes,
    }
}

// How many bytes of a box come before its data, where its header has so many.
fn box_front(kind: Kind, header: usize) -> usize
    ensures value { result ≡ box_front kind header }
    ensures most { result ≤ header }
{
    match kind {
        Kind::Picture => 0,
        _ => header,
    }
}

// A box of this type.
fn other_box(name: &[u8], header: usize, len: usize) -> Piece
    requires { header ≤ len }
    ensures value { result ≡ other_box name.now header len }
    ensures len { result.len ≡ len }
    ensures framed { result.front + result.pad ≤ result.len }
{
    let kind = box_kind(name);
    kind_box(kind, len, box_front(kind, header))
}

// A box with Exif data, which is not known where its TIFF data do not lie in it.
fn exif_box(bytes: &[u8], header: usize, len: usize) -> Piece
    requires header { header ≤ 16 }
    requires least { header ≤ len }
    requires most { len ≤ length bytes.now }
    ensures value { result ≡ exif_box bytes.now header len }
    ensures len { result.len ≡ len }
    ensures framed { result.front + result.pad ≤ result.len }
{
    if len - header < 4 {
        return kind_box(Kind::Unknown, len, header);
    }
    let at = &bytes[header..][..4];
    let offset = u32::from_be_bytes([at[0], at[1], at[2], at[3]]);
    let front = header + 4 + offset as usize;
    if len < front {
        kind_box(Kind::Unknown, len, header)
    } else {
        kind_box(Kind::Exif, len, front)
    }
}

// A box whose header has so many bytes, and which has this length in all.
fn whole_box(bytes: &[u8], header: usize, len: usize) -> Piece
    requires header { header ≤ 16 }
    requires some { 8 ≤ header }
    requires least { header ≤ len }
    requires most { len ≤ length bytes.now }
    ensures value { result ≡ whole_box bytes.now header len }
    ensures len { result.len ≡ len }
    ensures framed { result.front + result.pad ≤ result.len }
{
    let name = name_of(bytes);
    if is_named(name, b"Exif") {
        exif_box(bytes, header, len)
    } else {
        other_box(name, header, len)
    }
}

/// The box at the front of bytes, or all bytes that are left, where they hold no whole box.
#[tactic(auto, unfolding(crate::specs::JxlPieces::box_piece))]
pub fn box_piece(bytes: &[u8]) -> Piece
    requires { 0 < length bytes.now }
    ensures value { result ≡ box_piece bytes.now }
    ensures some { 0 < result.len }
    ensures within { result.len ≤ length bytes.now }
    ensures framed { result.front + result.pad ≤ result.len }
{
    if bytes.len() < HEADER_LEN {
        return rest_of_jxl(Kind::Broken, bytes);
    }
    match head_of(bytes) {
        Some(head) => whole_box(bytes, head.front, head.len),
        None => cut_box(bytes),
    }
}

/// Whether the box at the front of bytes is cut off: they have no header of a box, or other bytes
/// than its size says.
pub fn is_cut_box(bytes: &[u8]) -> bool
    ensures { result ≡ is_cut_box bytes.now }
{
    head_of(bytes).is_none()
}

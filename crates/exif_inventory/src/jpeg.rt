//! The pieces of a JPEG stream, and of what follows it (ITU-T T.81, B.1.1).

ghost use Rattle.std.specs.Prelude.{◌≡◌, ◌≢◌, true, ℕ, ◌<◌, ◌≤◌, ◌+◌, ◌-◌, ◌^◌, length, take, drop, slice_index};
ghost use Rattle.exif_inventory.specs.JpegKinds.{app0_kind, app1_kind, app2_kind, app_kind, begins, front_len, has_no_length, has_resources, id_len, named, segment_kind, unsegmented, xmp_kind};
ghost use Rattle.exif_inventory.specs.JpegPieces.{between_piece, fill_len, first_piece, free_len, gap_len, given_len, is_jpeg, is_stream, marker_piece, rest_piece, segment_piece, sized_segment, start_piece, stream_piece, unit_piece};

use crate::kind::Kind;
use crate::piece::{Piece, State};
use memchr::memchr;

// The first byte of a marker.
const MARK: u8 = 0xff;
// The end of an image.
const EOI: u8 = 0xd9;
// The start of a scan.
const SOS: u8 = 0xda;

/// Whether a file begins with the first marker of a JPEG stream.
pub fn is_jpeg(file: &[u8]) -> bool
    ensures { result ≡ is_jpeg file.now }
{
    file.len() >= 2 && file[0] == MARK && file[1] == 0xd8
}

// Whether bytes within a file begin as a JPEG stream does: with its first marker, and another one.
fn is_stream(bytes: &[u8]) -> bool
    ensures { result ≡ is_stream bytes.now }
{
    bytes.len() >= 3 && bytes[0] == MARK && bytes[1] == 0xd8 && bytes[2] == MARK
}

// The index of the first ff, or the length where there is none.
fn first_mark(bytes: &[u8]) -> usize
    ensures within { result ≤ length bytes.now }
    ensures before { (k : ℕ) → k < result → slice_index bytes.now k ≢ 255 }
    ensures at { result < length bytes.now → slice_index bytes.now result ≡ 255 }
{
    memchr(MARK, bytes).unwrap_or(bytes.len())
}

// How many bytes come before the first ff.
fn free_len(bytes: &[u8]) -> usize
    ensures value { result ≡ free_len bytes.now }
    ensures within { result ≤ length bytes.now }
{
    first_mark(bytes)
}

/// How many ffs are at the front.
pub fn fill_len(bytes: &[u8]) -> usize
    ensures value { result ≡ fill_len bytes.now }
    ensures within { result ≤ length bytes.now }
{
    let mut n = 0;
    while n < bytes.len() && bytes[n] == MARK {
        n += 1;
    }
    n
}

// How many bytes come before the next JPEG stream.
fn gap_len(bytes: &[u8]) -> usize
    ensures value { result ≡ gap_len bytes.now }
    ensures within { result ≤ length bytes.now }
{
    let mut n = 0;
    while n < bytes.len() && !is_stream(&bytes[n..]) {
        n += 1;
    }
    n
}

// Whether a marker has no length.
fn has_no_length(code: u8) -> bool
    ensures { result ≡ has_no_length code }
{
    matches!(code, 0x00 | 0x01 | 0xd0..=0xd9)
}

/// Whether a content begins with an identifier.
pub fn begins(content: &[u8], id: &[u8]) -> bool
    ensures value { result ≡ begins id.now content.now }
    ensures long { result ≡ true → length id.now ≤ length content.now }
{
    content.len() >= id.len() && content[..id.len()] == id[..]
}

// What bytes outside of segments are: the data of a scan, once one began.
fn unsegmented(scanned: bool) -> Kind
    ensures { result ≡ unsegmented scanned }
{
    if scanned {
        Kind::Picture
    } else {
        Kind::Unknown
    }
}

// The kind that an identifier names, if a content begins with it.
fn named(content: &[u8], id: &[u8], kind: Kind) -> Kind
    requires { id_len kind ≤ length id.now }
    ensures value { result ≡ named id.now kind content.now }
    ensures long { id_len result ≤ length content.now }
{
    if begins(content, id) {
        kind
    } else {
        Kind::Unknown
    }
}

// What an APP0 segment is.
fn app0_kind(content: &[u8]) -> Kind
    ensures value { result ≡ app0_kind content.now }
    ensures long { id_len result ≤ length content.now }
{
    if begins(content, b"JFIF\0") {
        Kind::Jfif
    } else {
        named(content, b"JFXX\0", Kind::JfifThumbnail)
    }
}

// What an APP1 segment with XMP is.
fn xmp_kind(content: &[u8]) -> Kind
    ensures value { result ≡ xmp_kind content.now }
    ensures long { id_len result ≤ length content.now }
{
    if begins(content, b"http://ns.adobe.com/xap/1.0/\0") {
        Kind::Xmp
    } else {
        named(
            content,
            b"http://ns.adobe.com/xmp/extension/\0",
            Kind::ExtendedXmp,
        )
    }
}

// What an APP1 segment is.
fn app1_kind(content: &[u8]) -> Kind
    ensures value { result ≡ app1_kind content.now }
    ensures long { id_len result ≤ length content.now }
{
    if begins(content, b"Exif\0\0") {
        Kind::Exif
    } else {
        xmp_kind(content)
    }
}

// What an APP2 segment is.
fn app2_kind(content: &[u8]) -> Kind
    ensures value { result ≡ app2_kind content.now }
    ensures long { id_len result ≤ length content.now }
{
    if begins(content, b"ICC_PROFILE\0") {
        Kind::IccProfile
    } else {
        named(content, b"MPF\0", Kind::MultiPicture)
    }
}

// What the segment of an application is, by its marker and its identifier.
fn app_kind(code: u8, content: &[u8]) -> Kind
    ensures value { result ≡ app_kind code content.now }
    ensures long { id_len result ≤ length content.now }
{
    match code {
        0xe0 => app0_kind(content),
        0xe1 => app1_kind(content),
        0xe2 => app2_kind(content),
        0xeb => named(content, b"JP", Kind::ContentCredentials),
        0xed => named(content, b"Photoshop 3.0\0", Kind::Photoshop),
        0xee => named(content, b"Adobe", Kind::Adobe),
        _ => Kind::Unknown,
    }
}

// What a segment is.
fn segment_kind(code: u8, content: &[u8]) -> Kind
    ensures value { result ≡ segment_kind code content.now }
    ensures long { id_len result ≤ length content.now }
{
    match code {
        0xc0..=0xdf | 0xf0..=0xf8 => Kind::Picture,
        0xe0..=0xef => app_kind(code, content),
        0xfe => Kind::Comment,
        _ => Kind::Unknown,
    }
}

// How long the identifier of a kind is.
fn id_len(kind: Kind) -> usize
    ensures value { result ≡ id_len kind }
    ensures most { result ≤ 35 }
{
    match kind {
        Kind::Exif => 6,
        Kind::Xmp => 29,
        Kind::ExtendedXmp => 35,
        Kind::Photoshop => 14,
        Kind::IccProfile => 12,
        Kind::MultiPicture => 4,
        _ => 0,
    }
}

// How many bytes of a segment come before its data, where its marker is at this index: none, where
// it is not known or the picture's own.
fn front_len(kind: Kind, at: usize) -> usize
    requires { at < 2 ^ 63 }
    ensures { result ≡ front_len kind at }
{
    match kind {
        Kind::Picture | Kind::Unknown | Kind::Trailer | Kind::Broken => 0,
        _ => at + 3 + id_len(kind),
    }
}

// Whether a segment of this kind has resources, which take so many bytes.
fn has_resources(kind: Kind, len: usize) -> bool
    ensures { result ≡ has_resources kind len }
{
    matches!(kind, Kind::Photoshop) && 0 < len
}

// All bytes that are left, as one piece.
fn rest_piece(picture: u64, bytes: &[u8]) -> Piece
    ensures { result ≡ rest_piece picture bytes.now }
{
    Piece {
        kind: Kind::Broken,
        picture,
        len: bytes.len(),
        front: 0,
        pad: 0,
        next: State::Between(picture),
    }
}

// A marker that has no length, behind so many ffs.
fn marker_piece(picture: u64, scanned: bool, fill: usize, code: u8) -> Piece
    requires { fill < 2 ^ 63 }
    ensures { result ≡ marker_piece picture scanned fill code }
{
    let kind = match code {
        EOI => Kind::Picture,
        0xd8 => Kind::Unknown,
        _ => unsegmented(scanned),
    };
    let next = match code {
        EOI => State::Between(picture.saturating_add(1)),
        _ => State::Stream(picture, scanned),
    };
    Piece {
        kind,
        picture,
        len: fill + 1,
        front: 0,
        pad: 0,
        next,
    }
}

// The length that a segment's first two bytes give, themselves included.
fn given_len(at: usize, bytes: &[u8]) -> usize
    requires { at + 2 < length bytes.now }
    ensures value { result ≡ given_len at bytes.now }
    ensures least { 2 ≤ result }
    ensures most { result < 2 ^ 16 }
{
    let len = 256 * usize::from(bytes[at + 1]) + usize::from(bytes[at + 2]);
    if len < 2 { 2 } else { len }
}

// The content of a segment of this length, whose marker is at this index.
fn content(at: usize, len: usize, bytes: &[u8]) -> &[u8]
    requires least { 2 ≤ len }
    requires within { at + 1 + len ≤ length bytes.now }
    ensures { result.now ≡ take (len - 2) (drop (at + 3) bytes.now) }
{
    &bytes[at + 3..][..len - 2]
}

// A segment of this length, whose marker has this code and is at this index.
fn sized_segment(
    picture: u64,
    scanned: bool,
    at: usize,
    code: u8,
    bytes: &[u8],
    len: usize,
) -> Piece
    requires at { at < length bytes.now }
    requires least { 2 ≤ len }
    ensures value { result ≡ sized_segment picture scanned at code bytes.now len }
    ensures some { 0 < result.len }
    ensures within { result.len ≤ length bytes.now }
    ensures framed { result.front + result.pad ≤ result.len }
{
    if bytes.len() - at - 1 < len {
        return rest_piece(picture, bytes);
    }
    let kind = segment_kind(code, content(at, len, bytes));
    let front = front_len(kind, at);
    let resources = at + 1 + len - front;
    if has_resources(kind, resources) {
        return Piece {
            kind,
            picture,
            len: front,
            front,
            pad: 0,
            next: State::Resources(picture, scanned, resources),
        };
    }
    Piece {
        kind,
        picture,
        len: at + 1 + len,
        front,
        pad: 0,
        next: State::Stream(picture, scanned | (code == SOS)),
    }
}

// A segment, whose marker has this code and is at this index.
fn segment_piece(picture: u64, scanned: bool, at: usize, code: u8, bytes: &[u8]) -> Piece
    requires { at < length bytes.now }
    ensures value { result ≡ segment_piece picture scanned at code bytes.now }
    ensures some { 0 < result.len }
    ensures within { result.len ≤ length bytes.now }
    ensures framed { result.front + result.pad ≤ result.len }
{
    if bytes.len() - at < 3 {
        return rest_piece(picture, bytes);
    }
    let len = given_len(at, bytes);
    sized_segment(picture, scanned, at, code, bytes, len)
}

// A marker behind so many ffs, with its segment if it has one.
fn unit_piece(picture: u64, scanned: bool, fill: usize, bytes: &[u8]) -> Piece
    requires some { 0 < length bytes.now }
    requires fill { fill ≤ length bytes.now }
    ensures value { result ≡ unit_piece picture scanned fill bytes.now }
    ensures some { 0 < result.len }
    ensures within { result.len ≤ length bytes.now }
    ensures framed { result.front + result.pad ≤ result.len }
{
    if fill == bytes.len() {
        return rest_piece(picture, bytes);
    }
    let code = bytes[fill];
    if has_no_length(code) {
        marker_piece(picture, scanned, fill, code)
    } else {
        segment_piece(picture, scanned, fill, code, bytes)
    }
}

/// The piece at the front of a stream behind its first marker: bytes outside of segments, a marker
/// without a length, or a segment. Ffs that fill the space before a marker belong to it.
#[tactic(auto, unfolding(crate::specs::JpegPieces::stream_piece))]
pub fn stream_piece(picture: u64, scanned: bool, bytes: &[u8]) -> Piece
    requires { 0 < length bytes.now }
    ensures value { result ≡ stream_piece picture scanned bytes.now }
    ensures some { 0 < result.len }
    ensures within { result.len ≤ length bytes.now }
    ensures framed { result.front + result.pad ≤ result.len }
{
    let free = free_len(bytes);
    if 0 < free {
        return Piece {
            kind: unsegmented(scanned),
            picture,
            len: free,
            front: 0,
            pad: 0,
            next: State::Stream(picture, scanned),
        };
    }
    unit_piece(picture, scanned, fill_len(bytes), bytes)
}

// The first marker of a stream.
fn first_piece(picture: u64) -> Piece
    ensures value { result ≡ first_piece picture }
    ensures two { result.len ≡ 2 }
    ensures framed { result.front + result.pad ≤ result.len }
{
    Piece {
        kind: Kind::Picture,
        picture,
        len: 2,
        front: 0,
        pad: 0,
        next: State::Stream(picture, false),
    }
}

/// The first marker of a file, or all that there is of it.
pub fn start_piece(bytes: &[u8]) -> Piece
    requires { 0 < length bytes.now }
    ensures value { result ≡ start_piece bytes.now }
    ensures some { 0 < result.len }
    ensures within { result.len ≤ length bytes.now }
    ensures framed { result.front + result.pad ≤ result.len }
{
    if bytes.len() < 2 {
        return rest_piece(0, bytes);
    }
    first_piece(0)
}

/// The piece at the front of what follows a stream: the first marker of the next one, or what comes
/// before that.
#[tactic(auto, unfolding(crate::specs::JpegPieces::between_piece))]
pub fn between_piece(picture: u64, bytes: &[u8]) -> Piece
    requires { 0 < length bytes.now }
    ensures value { result ≡ between_piece picture bytes.now }
    ensures some { 0 < result.len }
    ensures within { result.len ≤ length bytes.now }
    ensures framed { result.front + result.pad ≤ result.len }
{
    let gap = gap_len(bytes);
    if 0 < gap {
        return Piece {
            kind: Kind::Trailer,
            picture,
            len: gap,
            front: 0,
            pad: 0,
            next: State::Between(picture),
        };
    }
    first_piece(picture)
}

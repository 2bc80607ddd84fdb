//! The resources of Photoshop, in a segment of a JPEG stream or in Exif data (Photoshop File
//! Formats, "Image Resource Blocks", "Image Resource IDs").

ghost use Rattle.std.specs.Prelude.{◌≡◌, ◌<◌, ◌≤◌, ◌+◌, ◌^◌, length};
ghost use Rattle.exif_inventory.specs.Resources.{after_resource, front_len, is_whole, named_resource, number_of, numbers_len, piece_of, plain_resource, resource_at, resource_kind, resource_piece, size_of, small_len, space_of, whole_len, whole_resource};

use crate::kind::Kind;
use crate::piece::{Piece, State};

// The shortest front of a resource: signature, number, an empty name and its size.
const MIN_LEN: usize = 12;

/// A resource at the front of bytes.
#[derive(Clone, Copy)]
pub struct Resource {
    /// What it holds.
    pub kind: Kind,
    /// How many bytes come before its data.
    pub front: usize,
    /// How many bytes its data have.
    pub size: usize,
    /// How many bytes all of it has, with the padding.
    pub len: usize,
}

// How many bytes the numbers take that are all of a small resource.
fn small_len(number: usize) -> usize
    ensures { result ≡ small_len number }
{
    match number {
        1034 | 1040 | 1041 | 1042 => 1,
        1019 | 1024 | 1026 | 1046 | 1047 => 2,
        1022 => 3,
        1037 | 1044 | 1049 => 4,
        1009 => 6,
        1011 => 9,
        _ => 0,
    }
}

// The same of the others.
fn numbers_len(number: usize) -> usize
    ensures { result ≡ numbers_len number }
{
    match number {
        1000 | 1010 | 10000 => 10,
        1064 => 12,
        1007 | 1062 => 14,
        1005 | 1032 | 1061 => 16,
        1012 => 18,
        1015 => 28,
        1013 | 1014 => 72,
        1016 | 1017 => 112,
        _ => small_len(number),
    }
}

// What a resource without a name is, by its number and the size of its data.
fn resource_kind(number: usize, size: usize) -> Kind
    ensures { result ≡ resource_kind number size }
{
    match number {
        0x404 => Kind::Iptc,
        0x422 => Kind::PhotoshopExif,
        0x424 => Kind::PhotoshopXmp,
        _ if size <= numbers_len(number) => Kind::Photoshop,
        _ => Kind::PhotoshopOther,
    }
}

// The length of what comes before the data of a resource: signature, number, name and size.
fn front_len(bytes: &[u8]) -> usize
    requires { 12 ≤ length bytes.now }
    ensures value { result ≡ front_len bytes.now }
    ensures least { 12 ≤ result }
    ensures most { result < 1000 }
{
    let name = usize::from(bytes[6]) + 1;
    10 + name + name % 2
}

// The big-endian u32 at an index.
fn number_of(bytes: &[u8], n: usize) -> usize
    requires { n + 4 ≤ length bytes.now }
    ensures value { result ≡ number_of bytes.now n }
    ensures most { result < 2 ^ 32 }
{
    16_777_216 * usize::from(bytes[n])
        + 65_536 * usize::from(bytes[n + 1])
        + 256 * usize::from(bytes[n + 2])
        + usize::from(bytes[n + 3])
}

// The size of the data.
fn size_of(bytes: &[u8]) -> usize
    requires long { 12 ≤ length bytes.now }
    requires front { front_len bytes.now ≤ length bytes.now }
    ensures value { result ≡ size_of bytes.now }
    ensures most { result < 2 ^ 32 }
{
    number_of(bytes, front_len(bytes) - 4)
}

// Whether bytes begin with a whole resource.
fn is_whole(bytes: &[u8]) -> bool
    ensures { result ≡ is_whole bytes.now }
{
    if bytes.len() < MIN_LEN || bytes[..4] != b"8BIM"[..] {
        return false;
    }
    let front = front_len(bytes);
    front <= bytes.len() && size_of(bytes) <= bytes.len() - front
}

// The length of the front and the data, with the padding.
fn whole_len(bytes: &[u8]) -> usize
    requires long { 12 ≤ length bytes.now }
    requires front { front_len bytes.now ≤ length bytes.now }
    ensures { result ≡ whole_len bytes.now }
{
    let size = size_of(bytes);
    (front_len(bytes) + size + size % 2).min(bytes.len())
}

// A resource without a name.
fn plain_resource(bytes: &[u8]) -> Resource
    requires long { 12 ≤ length bytes.now }
    requires front { front_len bytes.now ≤ length bytes.now }
    ensures { result ≡ plain_resource bytes.now }
{
    let number = 256 * usize::from(bytes[4]) + usize::from(bytes[5]);
    let size = size_of(bytes);
    Resource {
        kind: resource_kind(number, size),
        front: front_len(bytes),
        size,
        len: whole_len(bytes),
    }
}

// A resource with a name, which is a text.
fn named_resource(bytes: &[u8]) -> Resource
    requires long { 12 ≤ length bytes.now }
    requires front { front_len bytes.now ≤ length bytes.now }
    ensures { result ≡ named_resource bytes.now }
{
    Resource {
        kind: Kind::PhotoshopOther,
        front: 6,
        size: front_len(bytes) + size_of(bytes) - 6,
        len: whole_len(bytes),
    }
}

// A whole resource.
fn whole_resource(bytes: &[u8]) -> Resource
    requires long { 12 ≤ length bytes.now }
    requires front { front_len bytes.now ≤ length bytes.now }
    requires size { front_len bytes.now + size_of bytes.now ≤ length bytes.now }
    ensures value { result ≡ whole_resource bytes.now }
    ensures some { 0 < result.len }
    ensures within { result.len ≤ length bytes.now }
    ensures framed { result.front + result.size ≤ result.len }
{
    if bytes[6] == 0 {
        plain_resource(bytes)
    } else {
        named_resource(bytes)
    }
}

/// The resource at the front, or all bytes where they begin with no whole one.
///
/// It is searched by its kind where it has no name and holds IPTC data, Exif data or an XMP packet.
/// It is `Photoshop` where its fields are numbers alone, and else `PhotoshopOther`.
#[tactic(auto, unfolding(crate::specs::Resources::resource_at))]
pub fn resource_at(bytes: &[u8]) -> Resource
    requires { 0 < length bytes.now }
    ensures value { result ≡ resource_at bytes.now }
    ensures some { 0 < result.len }
    ensures within { result.len ≤ length bytes.now }
    ensures framed { result.front + result.size ≤ result.len }
{
    if is_whole(bytes) {
        return whole_resource(bytes);
    }
    Resource {
        kind: Kind::Broken,
        front: 0,
        size: bytes.len(),
        len: bytes.len(),
    }
}

// What follows in a segment with so much space left.
fn after_resource(picture: u64, scanned: bool, space: usize) -> State
    ensures { result ≡ after_resource picture scanned space }
{
    if space == 0 {
        State::Stream(picture, scanned)
    } else {
        State::Resources(picture, scanned, space)
    }
}

// A resource at the front of so much space.
fn piece_of(picture: u64, scanned: bool, space: usize, resource: Resource) -> Piece
    requires within { resource.len ≤ space }
    requires framed { resource.front + resource.size ≤ resource.len }
    ensures value { result ≡ piece_of picture scanned space resource }
    ensures same { result.len ≡ resource.len }
    ensures framed { result.front + result.pad ≤ result.len }
{
    Piece {
        kind: resource.kind,
        picture,
        len: resource.len,
        front: resource.front,
        pad: resource.len - resource.front - resource.size,
        next: after_resource(picture, scanned, space - resource.len),
    }
}

// How many bytes of a space are there.
fn space_of(space: usize, bytes: &[u8]) -> usize
    requires { 0 < length bytes.now }
    ensures value { result ≡ space_of space bytes.now }
    ensures some { 0 < result }
    ensures within { result ≤ length bytes.now }
{
    if space == 0 {
        bytes.len()
    } else {
        space.min(bytes.len())
    }
}

/// The resource at the front of so much space of a segment.
#[tactic(auto, unfolding(crate::specs::Resources::resource_piece))]
pub fn resource_piece(picture: u64, scanned: bool, space: usize, bytes: &[u8]) -> Piece
    requires { 0 < length bytes.now }
    ensures value { result ≡ resource_piece picture scanned space bytes.now }
    ensures some { 0 < result.len }
    ensures within { result.len ≤ length bytes.now }
    ensures framed { result.front + result.pad ≤ result.len }
{
    let space = space_of(space, bytes);
    piece_of(picture, scanned, space, resource_at(&bytes[..space]))
}

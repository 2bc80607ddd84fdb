//! What comes in place of metadata.

ghost use Rattle.std.specs.Prelude.{◌≡◌, ◌<◌, ◌≤◌, ◌-◌, length, replicate};
ghost use Rattle.std.specs.Str.{bytes_eq};
ghost use Rattle.exif_blanks.specs.HeifBlanks.{all_are, as_free, blanked, cleared_from, described, free_front, freed, header_front, is_blank, item_or_box, listed_box, no_fields, no_properties, padded, renamed, role_blank, span_blank, unknown_box};

use crate::bytes::all_are;
use crate::steps::{Place, bare, is_bared};
use exif_inventory::Kind;
use exif_inventory::boxes::box_header;
use exif_inventory_heif::{Role, Span};

/// What becomes of the bytes of a span.
#[derive(Clone, Copy, Debug)]
pub enum Blank {
    /// They stay.
    Nothing,
    /// An item: Exif data without fields.
    Fields,
    /// An item: an XMP packet without properties.
    Packet,
    /// An item of another kind: zeros.
    Zeros,
    /// A box: free space.
    Free,
    /// A box that describes pictures, or lists the items: itself, without what does not.
    Described,
}

// Exif data without fields: no bytes before the TIFF data, and these with an empty directory.
const NO_FIELDS: &[u8] = b"\0\0\0\0MM\0*\0\0\0\x08\0\0\0\0\0\0";
// An XMP packet without properties.
const NO_PROPERTIES: &[u8] = b"<x:xmpmeta xmlns:x='adobe:ns:meta/'/>";

// As many bytes: a text, if it fits, and then only this byte.
fn pad(text: &[u8], b: u8, bytes: &mut [u8])
    ensures { bytes.new ≡ padded text.now b bytes.old }
{
    bytes.fill(b);
    if text.len() <= bytes.len() {
        bytes[..text.len()].copy_from_slice(text);
    }
}

// How many bytes come before the content of a box; more than there are, if its header is cut off.
fn free_front(bytes: &[u8]) -> usize
    ensures value { result ≡ free_front bytes.now }
    ensures least { 8 ≤ result }
{
    match box_header(bytes) {
        Some(header) => header.front,
        None => 16,
    }
}

// A box with the name of free space.
fn rename(bytes: &mut [u8])
    requires { 8 ≤ length bytes.old }
    ensures { bytes.new ≡ renamed bytes.old }
{
    bytes[4..8].copy_from_slice(b"free");
}

// Bytes that are zeros from an offset on.
fn clear_from(offset: usize, bytes: &mut [u8])
    requires { offset ≤ length bytes.old }
    ensures { bytes.new ≡ cleared_from offset bytes.old }
{
    bytes[offset..].fill(0);
}

// A box as free space of its size, with a header of so many bytes.
fn make_free(front: usize, bytes: &mut [u8])
    requires { 8 ≤ front }
    ensures { bytes.new ≡ freed front bytes.old }
{
    if bytes.len() < front {
        return;
    }
    rename(bytes);
    clear_from(front, bytes);
}

/// Puts other bytes in place of these.
#[tactic(auto, unfolding(crate::specs::HeifBlanks::blanked))]
pub fn overwrite(how: Blank, bytes: &mut [u8])
    ensures { bytes.new ≡ blanked how bytes.old }
{
    match how {
        Blank::Nothing => {}
        Blank::Fields => pad(NO_FIELDS, 0, bytes),
        Blank::Packet => pad(NO_PROPERTIES, b' ', bytes),
        Blank::Zeros => pad(b"", 0, bytes),
        Blank::Free => {
            let front = free_front(bytes);
            make_free(front, bytes);
        }
        Blank::Described => bare(Place::Box, bytes),
    }
}

// Whether bytes are a text, if it fits, and then only this byte.
fn is_padded(text: &[u8], b: u8, bytes: &[u8]) -> bool
    ensures { result ≡ bytes_eq (padded text.now b bytes.now) bytes.now }
{
    if text.len() <= bytes.len() {
        text == &bytes[..text.len()] && all_are(b, &bytes[text.len()..])
    } else {
        all_are(b, bytes)
    }
}

// Whether a box is free space, behind a header of so many bytes nothing but zeros.
fn is_freed(front: usize, bytes: &[u8]) -> bool
    requires { 8 ≤ front }
    ensures { result ≡ bytes_eq (freed front bytes.now) bytes.now }
{
    bytes.len() < front || (bytes[4..8] == b"free"[..] && all_are(0, &bytes[front..]))
}

/// Whether bytes are what [`overwrite`] puts in their place.
#[tactic(auto, unfolding(crate::specs::HeifBlanks::blanked))]
pub fn is_blank(how: Blank, bytes: &[u8]) -> bool
    ensures { result ≡ is_blank how bytes.now }
{
    match how {
        Blank::Nothing => true,
        Blank::Fields => is_padded(NO_FIELDS, 0, bytes),
        Blank::Packet => is_padded(NO_PROPERTIES, b' ', bytes),
        Blank::Zeros => is_padded(b"", 0, bytes),
        Blank::Free => is_freed(free_front(bytes), bytes),
        Blank::Described => is_bared(Place::Box, bytes, bytes),
    }
}

// An item's data, or a box, which has a header.
fn item_or_box(span: Span, item: Blank, whole: Blank) -> Blank
    ensures { result ≡ item_or_box span item whole }
{
    if span.content == span.from {
        item
    } else {
        whole
    }
}

// What becomes of a box that is not known: where the items are not understood, it may hold data of
// a picture.
fn unknown_box(judged: bool) -> Blank
    ensures { result ≡ unknown_box judged }
{
    if judged { Blank::Free } else { Blank::Nothing }
}

// What becomes of a box that describes pictures, or lists the items: where these are not
// understood, it stays.
fn listed_box(judged: bool) -> Blank
    ensures { result ≡ listed_box judged }
{
    if judged {
        Blank::Described
    } else {
        Blank::Nothing
    }
}

/// What becomes of a span, where the items are or are not understood.
pub fn span_blank(judged: bool, span: Span) -> Blank
    ensures { result ≡ span_blank judged span }
{
    match span.role {
        Role::Known(Kind::Exif) => Blank::Fields,
        Role::Known(Kind::Xmp) => item_or_box(span, Blank::Packet, Blank::Free),
        Role::Known(Kind::Unknown) => item_or_box(span, Blank::Zeros, unknown_box(judged)),
        Role::Known(Kind::ContentCredentials) => Blank::Free,
        Role::Meta | Role::ItemInfo | Role::ItemLocation => listed_box(judged),
        _ => Blank::Nothing,
    }
}

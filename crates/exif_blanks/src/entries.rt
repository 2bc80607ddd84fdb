//! What stays of the entries of items: their names become spaces, but for known ones.

ghost use Rattle.std.specs.Prelude.{◌≡◌, ◌<◌, ◌≤◌, ◌^◌, length};
ghost use Rattle.exif_inventory.specs.BoxHeaders.{head_of};
ghost use Rattle.exif_inventory_heif.specs.Items.{item_width};
ghost use Rattle.exif_blanks.specs.HeifSteps.{entry_by, entry_step, kept_letter, known_name_len, letter_step, name_step, named_entry, text_step, texts_of, typed_entry, wide_entry};

use crate::bytes::begun_len;
use crate::steps::{EntryTexts, Place, Step, front, whole};
use exif_inventory::boxes::{Head, head_of, name_of};

// How many texts follow the name of an item of this type: its content type and its encoding, or the
// name of its type.
fn texts_of(name: &[u8]) -> usize
    ensures { result ≡ texts_of name.now }
{
    if name == b"mime".as_slice() {
        2
    } else if name == b"uri ".as_slice() {
        1
    } else {
        0
    }
}

// How many bytes a name takes with the zero behind it, if it is one that encoders (libavif, FFmpeg)
// give the items of every file.
fn known_name_len(bytes: &[u8]) -> usize
    ensures value { result ≡ known_name_len bytes.now }
    ensures most { result < 2 ^ 8 }
{
    begun_len(b"Color\0", bytes)
        + begun_len(b"Alpha\0", bytes)
        + begun_len(b"Exif\0", bytes)
        + begun_len(b"XMP\0", bytes)
        + begun_len(b"GMap\0", bytes)
}

// What follows the type of an item, which ends at an index: its name, which stays if it is a known
// one of so many bytes.
fn typed_entry(bytes: &[u8], head: Head, end: usize, known: usize) -> Step
    requires front { 4 ≤ end }
    requires most { end ≤ head.len }
    requires known { known < 2 ^ 8 }
    requires within { head.len ≤ length bytes.now }
    ensures { result ≡ typed_entry bytes.now head end known }
{
    let entry = EntryTexts {
        texts: texts_of(&bytes[end - 4..end]),
        space: (head.len - end).saturating_sub(known),
    };
    if known == 0 {
        whole(end, Place::Name(entry))
    } else {
        whole(end + known, Place::Texts(entry))
    }
}

// The entry of an item, up to its name, if it has one behind a number of this width.
fn wide_entry(bytes: &[u8], head: Head, width: usize) -> Step
    requires front { head.front ≤ 16 }
    requires within { head.len ≤ length bytes.now }
    requires width { width ≤ 4 }
    ensures { result ≡ wide_entry bytes.now head width }
{
    let end = head.front + width + 10;
    if width == 0 || head.len < end {
        return whole(head.len, Place::Entries);
    }
    typed_entry(bytes, head, end, known_name_len(&bytes[..head.len][end..]))
}

// How many bytes the number of an item takes in an entry of this version; 0 is not known.
fn item_width(version: u8) -> usize
    ensures value { result ≡ item_width version }
    ensures most { result ≤ 4 }
{
    match version {
        2 => 2,
        3 => 4,
        _ => 0,
    }
}

// The same by its version, if it has one.
fn named_entry(bytes: &[u8], head: Head) -> Step
    requires front { head.front ≤ 16 }
    requires within { head.len ≤ length bytes.now }
    ensures { result ≡ named_entry bytes.now head }
{
    if head.front < head.len {
        wide_entry(bytes, head, item_width(bytes[head.front]))
    } else {
        whole(head.len, Place::Entries)
    }
}

/// The box at the front of the entries of items. What is no box becomes zeros.
pub fn entry_step(bytes: &[u8]) -> Step
    ensures { result ≡ entry_step bytes.now }
{
    let Some(head) = head_of(bytes) else {
        return front(0, bytes.len(), Place::Rest);
    };
    if name_of(bytes) == b"infe".as_slice() {
        named_entry(bytes, head)
    } else {
        front(head.front, head.len, Place::Entries)
    }
}

// A byte of a name, which becomes a space. The zero that ends it stays.
fn letter_step(entry: EntryTexts, b: u8) -> Step
    ensures { result ≡ letter_step entry b }
{
    let next = EntryTexts {
        texts: entry.texts,
        space: entry.space.saturating_sub(1),
    };
    if b == 0 {
        return whole(1, Place::Texts(next));
    }
    Step {
        len: 1,
        kept: 0,
        fill: b' ',
        next: Place::Name(next),
    }
}

/// The byte at the front of a name, if there is space for one, or the entry behind it.
pub fn name_step(entry: EntryTexts, bytes: &[u8]) -> Step
    requires { 0 < length bytes.now }
    ensures { result ≡ name_step entry bytes.now }
{
    if entry.space == 0 {
        entry_step(bytes)
    } else {
        letter_step(entry, bytes[0])
    }
}

// A byte of a text behind the name, which stays. A zero ends the text.
fn kept_letter(entry: EntryTexts, b: u8) -> Step
    ensures { result ≡ kept_letter entry b }
{
    let next = EntryTexts {
        texts: if b == 0 {
            entry.texts.saturating_sub(1)
        } else {
            entry.texts
        },
        space: entry.space.saturating_sub(1),
    };
    whole(1, Place::Texts(next))
}

/// The byte at the front of the texts behind a name, if there is one, or the entry behind them.
/// What follows the last text becomes zeros.
pub fn text_step(entry: EntryTexts, bytes: &[u8]) -> Step
    requires { 0 < length bytes.now }
    ensures { result ≡ text_step entry bytes.now }
{
    if entry.space == 0 {
        entry_step(bytes)
    } else if entry.texts == 0 {
        front(0, entry.space, Place::Entries)
    } else {
        kept_letter(entry, bytes[0])
    }
}

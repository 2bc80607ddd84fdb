//! How much of its codestream a JPEG XL file has.

ghost use Rattle.std.specs.Prelude.{◌≡◌};
ghost use Rattle.exif_change.specs.Codestreams.{boxed_codestream, codestream_of, cut_off, is_marked, with_box, with_part};

use exif_formats::jxl::is_codestream;
use exif_inventory::boxes::{box_header, name_of};
use exif_inventory::{box_piece, is_cut_box};

// The size and the type of a box.
const HEADER_LEN: usize = 8;

/// How much of its codestream a JPEG XL file has.
#[derive(Clone, Copy)]
pub enum Codestream {
    /// No box has any of it.
    Absent,
    /// The file ends in a box, or before the last part of the codestream.
    CutOff,
    /// All of it.
    Whole,
}

// Whether the first bit of data is set.
fn is_marked(data: &[u8]) -> bool
    ensures { result ≡ is_marked «data».now }
{
    match data {
        [] => false,
        [first, ..] => 128 <= *first,
    }
}

// A codestream behind a part of it.
fn with_part(bytes: &[u8]) -> Codestream
    ensures { result ≡ with_part bytes.now }
{
    match box_header(bytes) {
        Some(header) if is_marked(&bytes[header.front..]) => Codestream::Whole,
        _ => Codestream::CutOff,
    }
}

// A codestream behind a box.
fn with_box(found: Codestream, bytes: &[u8]) -> Codestream
    ensures { result ≡ with_box found bytes.now }
{
    if bytes.len() < HEADER_LEN {
        return found;
    }
    match name_of(bytes) {
        b"jxlc" => Codestream::Whole,
        b"jxlp" => with_part(bytes),
        _ => found,
    }
}

// A codestream of a file that is cut off.
fn cut_off(found: Codestream) -> Codestream
    ensures { result ≡ cut_off found }
{
    match found {
        Codestream::Absent => Codestream::Absent,
        Codestream::CutOff | Codestream::Whole => Codestream::CutOff,
    }
}

// The codestream of boxes.
fn boxed_codestream(bytes: &[u8]) -> Codestream
    ensures { result ≡ boxed_codestream bytes.now }
{
    let mut found = Codestream::Absent;
    let mut rest = bytes;
    while !rest.is_empty() {
        let len = box_piece(rest).len;
        found = with_box(found, &rest[..len]);
        if is_cut_box(rest) {
            return cut_off(found);
        }
        rest = &rest[len..];
    }
    found
}

/// How much of its codestream a JPEG XL file has. Of a file without a container it is not known
/// where it ends.
pub fn codestream_of(file: &[u8]) -> Codestream
    ensures { result ≡ codestream_of file.now }
{
    if is_codestream(file) {
        return Codestream::Whole;
    }
    boxed_codestream(file)
}

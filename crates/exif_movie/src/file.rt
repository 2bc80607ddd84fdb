//! The parts of a file.

ghost use Rattle.std.specs.Prelude.{◌≡◌, length, All, IfOk, Some};
ghost use Rattle.exif_movie.specs.Files.{begins_as_video, has_movie, is_picture_brand, is_video, parts_of, parts_view};
ghost use Rattle.exif_movie.specs.Parts.{AreParts, IsInside};

use crate::boxes::head_at;
use crate::kind::{Container, Kind};
use crate::named::named;
use crate::open::opened_file;
use crate::part::Part;
use exif_inventory::boxes::{content_of, name_of};
use std::alloc::{AllocError, Global};
use std::fmt;

/// Why the parts of a file are not listed.
#[derive(Clone, Copy, Debug, PartialEq, Eq)]
pub enum Refusal {
    /// It does not begin as a QuickTime or MP4 video does, or its brand is one of pictures.
    Format,
    /// It has no movie box (`moov`), as a fragment alone.
    NoMovie,
}

impl fmt::Display for Refusal {
    ghost use Rattle.exif_movie.specs.RefusalTexts.{refusal_text};

    ghost output = { λ refusal. Some (refusal_text refusal) };

    fn fmt<W: fmt::Write>(&self, f: &mut fmt::Formatter<W>) -> fmt::Result {
        f.write_str(match self {
            Refusal::Format => "the file is no QuickTime or MP4 video",
            Refusal::NoMovie => "the video has no movie box",
        })
    }
}

// Whether a brand is one of pictures: HEIF, AVIF, CR3, JPEG XL, JPEG 2000.
fn is_picture_brand(brand: &[u8]) -> bool
    ensures { result ≡ is_picture_brand brand.now }
{
    match brand {
        b"heic"
        | b"heix"
        | b"heim"
        | b"heis"
        | b"mif1"
        | b"avif"
        | b"avis"
        | b"crx "
        | b"jxl "
        | b"jp2 " => true,
        _ => false,
    }
}

// Whether a video may begin with a box of this type and content.
fn begins_as_video(name: &[u8], content: &[u8]) -> bool
    ensures { result ≡ begins_as_video name.now content.now }
{
    match name {
        b"ftyp" => content.len() >= 4 && !is_picture_brand(&content[..4]),
        b"moov" | b"mdat" | b"wide" | b"free" | b"skip" | b"pnot" => true,
        _ => false,
    }
}

// Whether a file begins as a video does.
fn is_video(file: &[u8]) -> bool
    ensures { result ≡ is_video file.now }
{
    let Some(head) = head_at(true, file) else {
        return false;
    };
    begins_as_video(name_of(file), content_of(head, file))
}

// Whether one of the parts is the header of the movie box.
fn has_movie(parts: &[Part]) -> bool
    ensures { result ≡ has_movie parts.now }
{
    for part in parts {
        if matches!(part.kind, Kind::Header(Container::Movie)) {
            return true;
        }
    }
    false
}

/// The parts of a QuickTime or MP4 video (ISO/IEC 14496-12:2015; QuickTime File Format), in the
/// order of their bytes.
///
/// Each part begins where the one before it ends, and together they are the file. A part is a whole
/// box, the header of a box that contains others, or bytes that are no whole box. Boxes are opened
/// six levels deep; a deeper box is one part, [`Kind::Unopened`]. Fragments are listed too.
///
/// It takes memory for two lists of one [`Part`] for each box.
///
/// # Errors
///
/// [`Refusal::Format`] if the file does not begin as a video does, and [`Refusal::NoMovie`] if it
/// has no movie box; out of memory.
pub fn parts(alloc: Global, file: &[u8]) -> Result<Result<Vec<Part>, Refusal>, AllocError>
    ensures answer { IfOk result (λ made. parts_view made ≡ parts_of file.now) }
    ensures covers { IfOk result (λ made. IfOk made
        (λ found. AreParts 0 found.items (length file.now))) }
    ensures inside { IfOk result (λ made. IfOk made
        (λ found. All (IsInside (length file.now)) found.items)) }
{
    if !is_video(file) {
        return Ok(Err(Refusal::Format));
    }
    let opened = opened_file(alloc, file)?;
    if !has_movie(&opened) {
        return Ok(Err(Refusal::NoMovie));
    }
    let found = named(alloc, file, &opened)?;
    Ok(Ok(found))
}

//! What becomes of a picture that is scrubbed, by its format.

ghost use Rattle.std.specs.Prelude.{◌≡◌, ◌∷◌, ◌++◌, [], if◌then◌else◌, IfOk, Ok, Some};
ghost use Rattle.exif_change.specs.Changed.{change_of};
ghost use Rattle.exif_change.specs.Changes.{keeps_orientation, with_color};
ghost use Rattle.exif_change.specs.Notes.{scrub_notes};
ghost use Rattle.exif_change.specs.Pictures.{if_cut_off, jxl_scrubbed, jxl_unlocated, jxl_without, no_codestream, picture_notes, picture_scrubbed, picture_scrubbed_with_color, png_scrubbed, png_with_color, raw_refused};
ghost use Rattle.exif_change.specs.Refusals.{Answers, why_of};
ghost use Rattle.exif_change.specs.Rotation.{if_turned};

use crate::changed::{Changed, Residual};
use crate::codestream::{Codestream, codestream_of};
use crate::notes::{Color, Note};
use crate::rotation::{file_turned, note_turned, png_turned};
use crate::scrubbing::{Removed, parts_unlocated, with_color};
use crate::{Refusal, jxl, notes, png, scrubbing};
use exif::Error;
use exif_formats::{PictureFormat, format_of_file};
use exif_inventory::inventory;
use exif_privacy::Unread;
use exif_rewrite::without_color_profile;
use std::alloc::{AllocError, Global};

// Why raw files are not scrubbed.
fn raw_refused() -> Refusal
    ensures { why_of result ≡ Some raw_refused }
{
    let text = "raw files are not changed; export a picture and scrub that";
    Refusal::Reading(Error::NotSupported(text))
}

// A PNG file without what is removed.
fn png_scrubbed(alloc: Global, file: Vec<u8>, removed: Removed) -> Result<Changed, Refusal>
    ensures { Answers change_of result (png_scrubbed removed file.items) }
{
    match removed {
        Removed::Gps(unread) => parts_unlocated(alloc, unread, file),
        Removed::Metadata | Removed::AllButOrientation => {
            png::emptied(alloc, removed, file.as_slice())
        }
    }
}

// A JPEG XL file without the locations of its parts. A codestream without a container has none.
fn jxl_unlocated(alloc: Global, file: Vec<u8>, unread: Unread) -> Result<Changed, Refusal>
    ensures { Answers change_of result (jxl_unlocated unread file.items) }
{
    match inventory(alloc, file.as_slice())? {
        Some(_parts) => parts_unlocated(alloc, unread, file),
        None => Ok(Changed::whole(alloc, file)),
    }
}

// A JPEG XL file without what is removed.
fn jxl_without(alloc: Global, file: Vec<u8>, removed: Removed) -> Result<Changed, Refusal>
    ensures { Answers change_of result (jxl_without removed file.items) }
{
    match removed {
        Removed::Gps(unread) => jxl_unlocated(alloc, file, unread),
        Removed::Metadata | Removed::AllButOrientation => jxl::emptied(alloc, file),
    }
}

/// Why a JPEG XL file without a codestream is refused.
pub fn no_codestream() -> Refusal
    ensures { why_of result ≡ Some no_codestream }
{
    let text = "JPEG XL file without a codestream";
    Refusal::Reading(Error::InvalidFormat(text))
}

/// A change of a file that is cut off.
pub fn cut_off(changed: Changed) -> Result<Changed, Refusal>
    ensures { Answers change_of result (if_cut_off (Ok (change_of changed))) }
{
    let Changed { file, mut left } = changed;
    left.push(Residual::CutOff)?;
    Ok(Changed { file, left })
}

// A JPEG XL file without what is removed, if it has a codestream.
fn jxl_scrubbed(alloc: Global, file: Vec<u8>, removed: Removed) -> Result<Changed, Refusal>
    ensures { Answers change_of result (jxl_scrubbed removed file.items) }
{
    match codestream_of(file.as_slice()) {
        Codestream::Absent => Err(no_codestream()),
        Codestream::CutOff => cut_off(jxl_without(alloc, file, removed)?),
        Codestream::Whole => jxl_without(alloc, file, removed),
    }
}

/// The picture without what is removed.
///
/// JPEG and WebP files are written again without their metadata. In HEIF files they are overwritten
/// where they are ([`exif_scrub::heif::empty`]), and the fields of the Exif data are erased: the
/// picture's own rotation stays. Of TIFF files the directories of the pictures stay
/// ([`exif_scrub::tiff::scrub`]).
///
/// PNG and JPEG XL files are written again without the chunks or boxes that do not show the
/// picture ([`exif_parts::rewrite_png`], [`exif_parts::rewrite_jxl`]). The picture of a JPEG XL
/// file keeps its own orientation. Such a file that is cut off is changed as far as it goes, which
/// is answered; one whose container has no codestream is refused. Where locations are erased no
/// byte moves, and the CRCs of the chunks that were changed are mended. Raw files are refused. It
/// takes the memory of the file and of the new one.
pub fn scrub(alloc: Global, file: Vec<u8>, removed: Removed) -> Result<Changed, Refusal>
    ensures { Answers change_of result (picture_scrubbed removed file.items) }
{
    match format_of_file(file.as_slice()) {
        Some(PictureFormat::Container(_)) | None => scrubbing::scrub(alloc, file, removed),
        Some(PictureFormat::Png) => png_scrubbed(alloc, file, removed),
        Some(PictureFormat::JpegXl) => jxl_scrubbed(alloc, file, removed),
        Some(PictureFormat::Raf | PictureFormat::Orf | PictureFormat::Rw2 | PictureFormat::Cr3) => {
            Err(raw_refused())
        }
    }
}

// A PNG file without its colour profile, and without what is removed beside it.
fn png_with_color(alloc: Global, file: Vec<u8>, removed: Removed) -> Result<Changed, Refusal>
    ensures { Answers change_of result (png_with_color removed file.items) }
{
    match without_color_profile(alloc, file.as_slice())? {
        Some(new) => png_scrubbed(alloc, new, removed),
        None => with_color(png_scrubbed(alloc, file, removed)?),
    }
}

/// The picture without its colour profile, and without what is removed beside it. JPEG XL files
/// keep it, as HEIF and TIFF files do, and this is answered.
pub fn scrub_with_color(alloc: Global, file: Vec<u8>, removed: Removed) -> Result<Changed, Refusal>
    ensures { Answers change_of result (picture_scrubbed_with_color removed file.items) }
{
    match format_of_file(file.as_slice()) {
        Some(PictureFormat::Container(_)) | None => scrubbing::scrub_with_color(
            alloc, file, removed,
        ),
        Some(PictureFormat::Png) => png_with_color(alloc, file, removed),
        Some(PictureFormat::JpegXl) => with_color(jxl_scrubbed(alloc, file, removed)?),
        Some(PictureFormat::Raf | PictureFormat::Orf | PictureFormat::Rw2 | PictureFormat::Cr3) => {
            Err(raw_refused())
        }
    }
}

// The note that a picture keeps its own orientation.
fn own_rotation(alloc: Global, removed: Removed) -> Result<Vec<Note>, AllocError>
    ensures { IfOk result (λ notes. notes.items
        ≡ (if keeps_orientation removed then Note.OwnRotation ∷ [] else [])) }
{
    let mut notes = Vec::new(alloc);
    if let Removed::AllButOrientation = removed {
        notes.push(Note::OwnRotation)?;
    }
    Ok(notes)
}

// The notes on a picture that is no JPEG XL file; whether its orientation is other than upright.
fn notes_with(
    alloc: Global,
    file: &[u8],
    removed: Removed,
    color: Color,
    turned: bool,
) -> Result<Vec<Note>, AllocError>
    ensures { IfOk result (λ notes. notes.items
        ≡ scrub_notes removed color file.now ++ if_turned removed turned) }
{
    let mut notes = notes::scrub_notes(alloc, file, removed, color)?;
    note_turned(removed, turned, &mut notes)?;
    Ok(notes)
}

/// What the user is to know of a picture that is scrubbed: that its colour profile stays; of a JPEG
/// or WebP file how many pictures behind the first one go; that a HEIF file's own rotation decides;
/// and that an orientation other than upright goes with the Exif data.
pub fn scrub_notes(
    alloc: Global,
    file: &[u8],
    removed: Removed,
    color: Color,
) -> Result<Vec<Note>, AllocError>
    ensures { IfOk result (λ notes. notes.items ≡ picture_notes removed color file.now) }
{
    match format_of_file(file) {
        Some(PictureFormat::JpegXl) => own_rotation(alloc, removed),
        Some(PictureFormat::Container(_)) | None => {
            notes_with(alloc, file, removed, color, file_turned(alloc, file)?)
        }
        Some(PictureFormat::Png) => {
            notes_with(alloc, file, removed, color, png_turned(alloc, file)?)
        }
        Some(PictureFormat::Raf | PictureFormat::Orf | PictureFormat::Rw2 | PictureFormat::Cr3) => {
            notes::scrub_notes(alloc, file, removed, color)
        }
    }
}

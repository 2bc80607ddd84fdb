//! What the user is to know of a file that is scrubbed.

ghost use Rattle.std.specs.Prelude.{◌≡◌, ◌++◌, IfOk, OnOk};
ghost use Rattle.exif_change.specs.Notes.{has_profile, highest, if_format_profile, if_own_rotation, if_pictures, if_profile, is_profile, keeps, notes_on, other_notes, scrub_notes};

use crate::profile::has_format_profile;
use crate::scrubbing::Removed;
use exif_containers::container::{Format, format_of};
use exif_inventory::{Kind, Part, inventory};
use std::alloc::{AllocError, Global};

/// What becomes of the colour profile of a file.
#[derive(Clone, Copy)]
pub enum Color {
    /// It stays: without it colours look otherwise.
    Keep,
    /// It is removed.
    Strip,
}

/// What the user is to know of a file that is scrubbed, beside what is left undone.
#[derive(Clone, Copy, Debug)]
pub enum Note {
    /// Its colour profile stays, and can be removed.
    ColorProfile,
    /// Its colour profile stays: files of its format, HEIF, AVIF and TIFF, keep it.
    FormatProfile,
    /// This many pictures behind the first one are removed.
    Pictures(u64),
    /// The orientation goes with the other fields: the rotation that a HEIF file stores with its
    /// picture decides.
    OwnRotation,
    /// An orientation other than upright goes with the other fields: the picture is shown as it is
    /// stored.
    Orientation,
}

// Whether the profile stays.
fn keeps(color: Color) -> bool
    ensures { result ≡ keeps color }
{
    matches!(color, Color::Keep)
}

// Whether a part is of the first picture's colour profile.
fn is_profile(part: Part) -> bool
    ensures { result ≡ is_profile part }
{
    part.picture == 0 && matches!(part.kind, Kind::IccProfile)
}

// Whether one of the parts is.
fn has_profile(parts: &[Part]) -> bool
    ensures { result ≡ has_profile parts.now }
{
    parts.iter().any(|part| is_profile(*part))
}

// The highest number of a picture, the first of which is 0.
fn highest(parts: &[Part]) -> u64
    ensures { result ≡ highest parts.now 0 }
{
    let mut most = 0;
    for part in parts {
        if part.picture > most {
            most = part.picture;
        }
    }
    most
}

// Adds the note of a profile that stays.
fn note_profile(color: Color, parts: &[Part], notes: &mut Vec<Note>) -> Result<(), AllocError>
    ensures { OnOk result (notes.new.items ≡ notes.old.items ++ if_profile color parts.now) }
{
    if keeps(color) && has_profile(parts) {
        notes.push(Note::ColorProfile)?;
    }
    Ok(())
}

// Adds the note of pictures behind the first one.
fn note_pictures(parts: &[Part], notes: &mut Vec<Note>) -> Result<(), AllocError>
    ensures { OnOk result (notes.new.items ≡ notes.old.items ++ if_pictures (highest parts.now 0)) }
{
    let most = highest(parts);
    if most > 0 {
        notes.push(Note::Pictures(most))?;
    }
    Ok(())
}

// The notes on a JPEG or WebP file with these parts.
fn notes_on(alloc: Global, color: Color, parts: &[Part]) -> Result<Vec<Note>, AllocError>
    ensures { IfOk result (λ notes. notes.items ≡ notes_on color parts.now) }
{
    let mut notes = Vec::new(alloc);
    note_profile(color, parts, &mut notes)?;
    note_pictures(parts, &mut notes)?;
    Ok(notes)
}

// Adds the note of a profile that the file's format keeps.
fn note_format_profile(
    alloc: Global,
    color: Color,
    file: &[u8],
    notes: &mut Vec<Note>,
) -> Result<(), AllocError>
    ensures { OnOk result (notes.new.items ≡ notes.old.items ++ if_format_profile color file.now) }
{
    if keeps(color) && has_format_profile(alloc, file)? {
        notes.push(Note::FormatProfile)?;
    }
    Ok(())
}

// Adds the note of a HEIF file's own rotation, where the orientation is kept.
fn note_rotation(kept: bool, file: &[u8], notes: &mut Vec<Note>) -> Result<(), AllocError>
    ensures { OnOk result (notes.new.items ≡ notes.old.items ++ if_own_rotation kept file.now) }
{
    if kept && matches!(format_of(file), Some(Format::Heif)) {
        notes.push(Note::OwnRotation)?;
    }
    Ok(())
}

// The notes on a file of another format, of which the orientation is kept or not.
fn other_notes(
    alloc: Global,
    kept: bool,
    color: Color,
    file: &[u8],
) -> Result<Vec<Note>, AllocError>
    ensures { IfOk result (λ notes. notes.items ≡ other_notes kept color file.now) }
{
    let mut notes = Vec::new(alloc);
    note_format_profile(alloc, color, file, &mut notes)?;
    note_rotation(kept, file, &mut notes)?;
    Ok(notes)
}

/// What the user is to know where all metadata of a file are removed, but maybe for its
/// orientation: that its colour profile stays; of a JPEG or WebP file how many pictures behind the
/// first one go; of a HEIF file that the rotation that it stores with the picture decides.
/// Nothing where only locations are erased.
pub fn scrub_notes(
    alloc: Global,
    file: &[u8],
    removed: Removed,
    color: Color,
) -> Result<Vec<Note>, AllocError>
    ensures { IfOk result (λ notes. notes.items ≡ scrub_notes removed color file.now) }
{
    let kept = match removed {
        Removed::Metadata => false,
        Removed::AllButOrientation => true,
        Removed::Gps(_) => return Ok(Vec::new(alloc)),
    };
    match inventory(alloc, file)? {
        Some(parts) => notes_on(alloc, color, &parts),
        None => other_notes(alloc, kept, color, file),
    }
}

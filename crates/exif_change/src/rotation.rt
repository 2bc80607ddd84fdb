//! Whether a picture will be shown otherwise without its Exif data, by its orientation.

ghost use Rattle.std.specs.Prelude.{◌≡◌, ◌++◌, IfOk, OnOk};
ghost use Rattle.std.specs.Option.{option_map};
ghost use Rattle.exif_change.specs.Reading.{file_contents};
ghost use Rattle.exif_change.specs.Rotation.{file_turned, has_turned, if_turned, is_turned, png_turned};

use crate::notes::Note;
use crate::read;
use crate::scrubbing::Removed;
use exif::Error;
use exif_containers::container::{Format, format_of};
use exif_formats::png_data;
use exif_summary::find_orientation;
use std::alloc::{AllocError, Global};

// Whether an orientation is other than upright.
fn is_turned(orientation: Option<u32>) -> bool
    ensures { result ≡ is_turned orientation }
{
    match orientation {
        Some(orientation) => orientation > 1,
        None => false,
    }
}

// Whether the fields of a file name such a one.
fn has_turned(alloc: Global, file: &[u8]) -> Result<bool, AllocError>
    ensures { IfOk result (λ has. has ≡ has_turned (file_contents file.now)) }
{
    match read(alloc, file) {
        Ok(exif) => Ok(is_turned(find_orientation(&exif))),
        Err(Error::OutOfMemory | Error::Io(_) | Error::PartialResult(_)) => Err(AllocError),
        Err(_no_fields) => Ok(false),
    }
}

/// Whether the Exif data of a JPEG, WebP or TIFF file do. A HEIF file has its own rotation.
pub(crate) fn file_turned(alloc: Global, file: &[u8]) -> Result<bool, AllocError>
    ensures { IfOk result (λ has. has ≡ file_turned file.now) }
{
    if matches!(format_of(file), Some(Format::Heif)) {
        return Ok(false);
    }
    has_turned(alloc, file)
}

/// Whether the Exif data of a PNG file do.
pub(crate) fn png_turned(alloc: Global, file: &[u8]) -> Result<bool, AllocError>
    ensures { IfOk result (λ has. has ≡ png_turned file.now) }
{
    match png_data(alloc, file) {
        Ok(exif) => has_turned(alloc, exif.as_slice()),
        Err(Error::OutOfMemory | Error::Io(_) | Error::PartialResult(_)) => Err(AllocError),
        Err(_no_data) => Ok(false),
    }
}

/// Adds the note of an orientation other than upright that is removed.
pub(crate) fn note_turned(
    removed: Removed,
    turned: bool,
    notes: &mut Vec<Note>,
) -> Result<(), AllocError>
    ensures { OnOk result (notes.new.items ≡ notes.old.items ++ if_turned removed turned) }
{
    if let Removed::Metadata = removed {
        if turned {
            notes.push(Note::Orientation)?;
        }
    }
    Ok(())
}

//! What programs set in a picture, by its format.

ghost use Rattle.std.specs.Prelude.{◌≡◌, Some};
ghost use Rattle.exif_change.specs.Changed.{change_of};
ghost use Rattle.exif_change.specs.Pictures.{format_of};
ghost use Rattle.exif_change.specs.Refusals.{Answers, why_of};
ghost use Rattle.exif_setting.specs.Edits.{edit_of};
ghost use Rattle.exif_setting.specs.Pictures.{edited_by, jxl_edited, picture_fields_set, picture_set, picture_shifted, raw_refused};

use crate::contained::{Container, DataEdit, data_changed, edited};
use crate::dates::Dates;
use crate::other_dates::{assigns_date, has_date, has_other_dates, leaves_dates, with_other_dates};
use exif::{Error, Field};
use exif_assign::Assignment;
use exif_change::codestream::{Codestream, codestream_of};
use exif_change::{Changed, Refusal, cut_off, no_codestream};
use exif_datetime::ClockShift;
use exif_formats::{PictureFormat, format_of_file};
use std::alloc::Global;

// Why nothing is set in raw files.
fn raw_refused() -> Refusal
    ensures { why_of result ≡ Some raw_refused }
{
    let text = "raw files are not changed; use an XMP sidecar";
    Refusal::Reading(Error::NotSupported(text))
}

// A JPEG XL file with its Exif data changed, if it has a codestream.
fn jxl_edited(alloc: Global, edit: DataEdit<'_, '_>, file: Vec<u8>) -> Result<Changed, Refusal>
    ensures { Answers change_of result (jxl_edited (edit_of edit.entry) file.items) }
{
    match codestream_of(file.as_slice()) {
        Codestream::Absent => Err(no_codestream()),
        Codestream::CutOff => cut_off(edited(alloc, Container::Jxl, edit, file)?),
        Codestream::Whole => edited(alloc, Container::Jxl, edit, file),
    }
}

// The picture with its Exif data changed, by its format.
fn edit_by_format(alloc: Global, edit: DataEdit<'_, '_>, file: Vec<u8>) -> Result<Changed, Refusal>
    ensures { Answers change_of result
        (edited_by (format_of file.items) (edit_of edit.entry) file.items) }
{
    match format_of_file(file.as_slice()) {
        Some(PictureFormat::Container(_)) | None => data_changed(alloc, edit, file),
        Some(PictureFormat::Png) => edited(alloc, Container::Png, edit, file),
        Some(PictureFormat::JpegXl) => jxl_edited(alloc, edit, file),
        Some(PictureFormat::Raf | PictureFormat::Orf | PictureFormat::Rw2 | PictureFormat::Cr3) => {
            Err(raw_refused())
        }
    }
}

/// The picture with values set. A value that fits is written over the old one; another one, or a
/// new field, is appended to the Exif data, in which no old byte moves: maker notes, previews and
/// thumbnails keep their offsets. Those of a HEIF file are then put behind the file; JPEG, WebP,
/// PNG and JPEG XL files are written again. Such files that have no Exif data get new ones; HEIF
/// files without them are refused, and so are raw files, compressed Exif data of a JPEG XL file and
/// a codestream without a container. Of two values of one tag the last is set. A field that the
/// file has keeps its type; one that it lacks has the type of the standard. Where more than one
/// field of the file has a name, each of them is set.
///
/// A JPEG XL file that is cut off is changed as far as it goes, which is answered. Where a date is
/// set and the file has XMP or IPTC data, the answer has that their dates stay. It takes the memory
/// of the file, of the new one, and of what [`exif_grow::set_fields`] takes.
pub fn set(alloc: Global, file: Vec<u8>, assignments: &[Assignment<'_>]) -> Result<Changed, Refusal>
    ensures { Answers change_of result (picture_set assignments.now file.items) }
{
    let others = leaves_dates(alloc, file.as_slice(), assigns_date(assignments))?;
    let edit = DataEdit::Values(assignments);
    with_other_dates(others, edit_by_format(alloc, edit, file)?)
}

/// The picture with these fields set, as [`set`] sets those that texts spell. Each is of the primary
/// image, and no two have one tag. A field that the file has gets the type of the new value. It
/// takes the memory that [`set`] takes, and that of the fields.
pub fn set_fields(alloc: Global, file: Vec<u8>, fields: &[Field]) -> Result<Changed, Refusal>
    ensures { Answers change_of result (picture_fields_set fields.now file.items) }
{
    let others = leaves_dates(alloc, file.as_slice(), has_date(fields))?;
    let edit = DataEdit::Fields(fields);
    with_other_dates(others, edit_by_format(alloc, edit, file)?)
}

/// The picture with its dates moved, in place but in PNG and JPEG XL files, which are written again.
/// A date that can't be moved, or not be set, stays, and the answer says which: a blank one, one of
/// zeros, one that the calendar does not have, one that is cut, and one that shares its bytes. A
/// file without a date is refused. Where the file has XMP or IPTC data, the answer has that their
/// dates stay.
pub fn shift(alloc: Global, file: Vec<u8>, by: ClockShift, dates: Dates) -> Result<Changed, Refusal>
    ensures { Answers change_of result (picture_shifted by dates file.items) }
{
    let others = has_other_dates(alloc, file.as_slice())?;
    let edit = DataEdit::Shift(by, dates);
    with_other_dates(others, edit_by_format(alloc, edit, file)?)
}

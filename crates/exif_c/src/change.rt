//! Files changed.

ghost use Rattle.std.specs.Prelude.{◌≡◌, None, Some, IsUtf8};
ghost use Rattle.exif_assign.specs.Assigning.{assigned_in, parts_of};
ghost use Rattle.exif_edit.specs.declared.edits.Edit.TheVariants.{EraseGps};
ghost use Rattle.exif_edit.specs.InFiles.{edited_file};
ghost use Rattle.exif_change.specs.Changed.{change_of};
ghost use Rattle.exif_setting.specs.Setting.{set_here};
ghost use Rattle.exif_change.specs.declared.scrubbing.Removed.TheVariants.{Metadata};
ghost use Rattle.exif_change.specs.Pictures.{picture_scrubbed};
ghost use Rattle.exif_c.specs.Calls.{Ends, EndsBy, Puts, SetsBy, entry_limit};
ghost use Rattle.exif_c.specs.Statuses.{undone_status};

use crate::buffer::{Answer, given, nothing};
use crate::status::{Status, edit_status, refusal_status};
use exif_change::{Changed, ENTRY_LIMIT, Removed, scrub};
use exif_edit::{Edit, apply_in_file};
use exif_setting::{Assignment, set_here};
use std::alloc::Global;

/// Erases the GPS data in the Exif data of a file, in the caller's buffer: its length stays. After
/// a refusal the buffer is as it was.
#[unsafe(no_mangle)]
pub extern "C" fn mexaldor_erase_gps(alloc: Global, file: &mut [u8]) -> u32
    ensures { Ends result file.old file.new
        (edited_file (Some entry_limit) EraseGps file.old) }
{
    match apply_in_file(alloc, &Edit::EraseGps, Some(ENTRY_LIMIT), file) {
        Ok(()) => Status::Well.number(),
        Err(error) => edit_status(&error).number(),
    }
}

/// Puts a file without its metadata into a buffer. JPEG, WebP, PNG and JPEG XL files are written
/// again without them; in HEIF and TIFF files what is not the picture becomes zeros or empty data
/// in place. The colour profile stays. Raw files are refused. The new file is no longer than
/// the old one, but for a WebP file whose last payload lacks its pad byte, which it gets. The
/// status is 1 where a part that may hold metadata stays, or where a file ends before its
/// picture does, which is written as far as it goes. After a refusal the buffer is as it was.
#[unsafe(no_mangle)]
pub extern "C" fn mexaldor_scrub(alloc: Global, file: &[u8], out: &mut [u8]) -> Answer
    ensures { Puts result out.old out.new (picture_scrubbed Metadata file.now) }
{
    let Ok(file) = Vec::from_slice(alloc, file) else {
        return nothing(Status::OutOfMemory);
    };
    match scrub(alloc, file, Removed::Metadata) {
        Ok(new) => given(out, &new.file, status_of(&new)),
        Err(refusal) => nothing(refusal_status(&refusal)),
    }
}

// The status of a changed file.
fn status_of(changed: &Changed) -> Status
    ensures { result ≡ undone_status (change_of changed.now).undone }
{
    if changed.left.is_empty() {
        Status::Well
    } else {
        Status::Faults
    }
}

// Sets a field by an assignment.
fn set_by(alloc: Global, file: &mut [u8], assignment: &Assignment<'_>) -> u32
    ensures { EndsBy result file.old file.new
        (set_here (parts_of assignment.now) file.old) }
{
    match set_here(alloc, file, assignment) {
        Ok(()) => Status::Well.number(),
        Err(refusal) => refusal_status(&refusal).number(),
    }
}

/// Sets one field of the primary image in place, in the caller's buffer, by `TAG=VALUE`, as
/// `Orientation=6` or `DateTime=2024-05-01T12:30:00`: its length stays. After a refusal the buffer
/// is as it was.
#[unsafe(no_mangle)]
pub extern "C" fn mexaldor_set(alloc: Global, file: &mut [u8], assignment: &[u8]) -> u32
    ensures text { IsUtf8 assignment.now
        → SetsBy result file.old file.new (assigned_in assignment.now) }
    ensures no_text { ¬ IsUtf8 assignment.now → SetsBy result file.old file.new None }
{
    let Ok(word) = str::from_utf8(assignment) else {
        return Status::NoAssignment.number();
    };
    match Assignment::parse(word) {
        Some(assignment) => set_by(alloc, file, &assignment),
        None => Status::NoAssignment.number(),
    }
}

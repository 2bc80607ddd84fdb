//! Locations in files: found, and erased.

ghost use Rattle.std.specs.Prelude.{◌≡◌, length, IfOk, IfSome};
ghost use Rattle.std.specs.Option.{option_map};
ghost use Rattle.exif_privacy.specs.Erasing.{erased};
ghost use Rattle.exif_c.specs.Locations.{Checks, ErasesLocations, erased_as, location_status, stays_status, unread_by};

use crate::buffer::{Answer, given, nothing};
use crate::status::Status;
use exif_check::{Location, check, check_json, location_of};
use exif_formats::format_of;
use exif_privacy::{Remaining, Unread, erase_locations};
use std::alloc::{AllocError, Global};

// The status of a file that was checked.
fn location_status(location: Location) -> Status
    ensures { result ≡ location_status location }
{
    match location {
        Location::Absent => Status::Well,
        Location::Present => Status::LocationFound,
        Location::Unknown => Status::LocationPossible,
    }
}

/// Checks which parts of a file hold a location, and puts the JSON object of them into a buffer:
/// whether the file holds one, and each part with its kind, offset and length. A file of another
/// format, and memory that runs out, leave the buffer as it was.
#[unsafe(no_mangle)]
pub extern "C" fn mexaldor_check(alloc: Global, file: &[u8], out: &mut [u8]) -> Answer
    ensures { Checks result file.now out.old out.new }
{
    let parts = match check(alloc, file) {
        Ok(Some(parts)) => parts,
        Ok(None) => return nothing(Status::InvalidFormat),
        Err(_no_memory) => return nothing(Status::OutOfMemory),
    };
    let status = location_status(location_of(parts.as_slice()));
    match check_json(alloc, b"", format_of(file), parts.as_slice()) {
        Ok(text) => given(out, text.as_slice(), status),
        Err(_no_memory) => nothing(Status::OutOfMemory),
    }
}

// The status of a file with these parts that may still hold a location.
fn stays_status(stays: &[Remaining]) -> Status
    ensures { result ≡ stays_status stays.now }
{
    if stays.is_empty() {
        Status::Well
    } else {
        Status::LocationPossible
    }
}

// The file without its locations, and how that ended.
fn erased(
    alloc: Global,
    file: &[u8],
    unread: Unread,
) -> Result<Option<(Vec<u8>, Status)>, AllocError>
    ensures value { IfOk result (λ made. option_map (λ m. (m.0.items, m.1)) made
        ≡ erased_as (erased unread file.now)) }
    ensures long { IfOk result (λ made. IfSome made
        (λ m. length m.0.items ≡ length file.now)) }
{
    let mut new = Vec::from_slice(alloc, file)?;
    match erase_locations(alloc, new.as_mut_slice(), unread)? {
        Some(stays) => {
            let status = stays_status(stays.as_slice());
            Ok(Some((new, status)))
        }
        None => Ok(None),
    }
}

// What becomes of data that can't be read.
fn unread_by(force_blank: bool) -> Unread
    ensures { result ≡ unread_by force_blank }
{
    if force_blank {
        Unread::Blank
    } else {
        Unread::Keep
    }
}

/// Erases the locations in a file, in the caller's buffer: its length stays. XMP packets and IPTC
/// data that can't be read stay, or are overwritten, if `force_blank` says so. The status says
/// whether a part stays that may hold a location. After a refusal, and where memory runs out, the
/// buffer is as it was.
#[unsafe(no_mangle)]
pub extern "C" fn mexaldor_erase_locations(alloc: Global, file: &mut [u8], force_blank: bool) -> u32
    ensures { ErasesLocations force_blank result file.old file.new }
{
    match erased(alloc, file, unread_by(force_blank)) {
        Ok(Some((new, status))) => {
            file.copy_from_slice(new.as_slice());
            status.number()
        }
        Ok(None) => Status::InvalidFormat.number(),
        Err(_no_memory) => Status::OutOfMemory.number(),
    }
}

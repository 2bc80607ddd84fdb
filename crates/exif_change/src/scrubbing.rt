//! Metadata taken out of a file.

ghost use Rattle.std.specs.Prelude.{◌≡◌, map, IfOk, Ok, Some};
ghost use Rattle.std.specs.Option.{option_map};
ghost use Rattle.exif_types.specs.Refusals.{Gives};
ghost use Rattle.exif_change.specs.Changed.{change_of, stays, undone_of};
ghost use Rattle.exif_change.specs.Changes.{emptied, erased, gps_erased, heif_emptied, heif_left, if_parted, jpeg_emptied, keeps_orientation, kept, orientation_in, scrubbed, scrubbed_as, scrubbed_with_color, tiff_emptied, unlocated, with_color, without_metadata};
ghost use Rattle.exif_scrub.specs.HeifScrubbing.{emptied as heif_file_emptied, settled};
ghost use Rattle.exif_scrub.specs.TiffScrubbing.{scrubbed as tiff_scrubbed};
ghost use Rattle.exif_privacy.specs.Erasing.{erased as privacy_erased};
ghost use Rattle.exif_change.specs.Reading.{file_contents};
ghost use Rattle.exif_change.specs.Refusals.{Answers};

use crate::changed::{Changed, Residual};
use crate::found::{with_found, with_loose, with_parts};
use crate::reading::ENTRY_LIMIT;
use crate::rewriting::rewritten;
use crate::{Refusal, read};
use exif_containers::container::{Format, format_of};
use exif_edit::{Edit, Error, apply_in_file};
use exif_privacy::{Remaining, Unread, erase_locations};
use exif_rewrite::{Remove, UPRIGHT, scrubbed_exif, without_color_profile};
use std::alloc::{AllocError, Global};

/// What is taken out.
#[derive(Clone, Copy)]
pub enum Removed {
    /// All metadata.
    Metadata,
    /// All metadata but for the picture's orientation.
    AllButOrientation,
    /// What says where the picture was taken: the locations of all Exif data, XMP and IPTC, and
    /// what becomes of XMP and IPTC that can't be read.
    Gps(Unread),
}

/// The file without its metadata. JPEG and WebP files are written again without them. In HEIF
/// files they are overwritten where they are ([`exif_scrub::heif::empty`]), and the fields of the
/// Exif data are erased: the picture's own rotation stays. Of TIFF files the directories of the
/// pictures stay ([`exif_scrub::tiff::scrub`]). Where locations are erased, no byte moves. The
/// answer has each part of the new file that is none of the picture's and may hold metadata, or a
/// location ([`erase_locations`]). Of a JPEG stream that ends before its picture does what is there
/// is kept. It takes the memory of the file and of the new one.
pub fn scrub(alloc: Global, file: Vec<u8>, removed: Removed) -> Result<Changed, Refusal>
    ensures { Answers change_of result (scrubbed removed file.items) }
{
    match format_of(file.as_slice()) {
        Some(format) => scrubbed_as(alloc, format, file, removed),
        None => Err(Refusal::UnknownFormat),
    }
}

/// The file without its colour profile, and without what is removed beside it. HEIF and TIFF files
/// keep their profile, which is answered.
pub fn scrub_with_color(alloc: Global, file: Vec<u8>, removed: Removed) -> Result<Changed, Refusal>
    ensures { Answers change_of result (scrubbed_with_color removed file.items) }
{
    match without_color_profile(alloc, file.as_slice())? {
        Some(new) => scrub(alloc, new, removed),
        None => with_color(scrub(alloc, file, removed)?),
    }
}

/// A change that left the colour profile too.
pub fn with_color(changed: Changed) -> Result<Changed, Refusal>
    ensures { Answers change_of result (with_color (Ok (change_of changed))) }
{
    let Changed { file, mut left } = changed;
    left.push(Residual::Color)?;
    Ok(Changed { file, left })
}

// The file of a format without what is taken out.
fn scrubbed_as(
    alloc: Global,
    format: Format,
    file: Vec<u8>,
    removed: Removed,
) -> Result<Changed, Refusal>
    ensures { Answers change_of result (scrubbed_as format removed file.items) }
{
    match removed {
        Removed::Gps(unread) => unlocated(alloc, unread, format, file),
        Removed::Metadata | Removed::AllButOrientation => emptied(alloc, format, file, removed),
    }
}

// The JPEG file without its metadata, but for what is kept.
fn jpeg_emptied(alloc: Global, file: &[u8], removed: Removed) -> Result<Changed, Refusal>
    ensures { Answers change_of result (jpeg_emptied removed file.now) }
{
    let changed = without_metadata(alloc, Format::Jpeg, file, removed)?;
    with_loose(alloc, file, changed)
}

// The file of a format without its metadata, but for what is kept.
fn emptied(
    alloc: Global,
    format: Format,
    file: Vec<u8>,
    removed: Removed,
) -> Result<Changed, Refusal>
    ensures { Answers change_of result (emptied format removed file.items) }
{
    match format {
        Format::Jpeg => jpeg_emptied(alloc, file.as_slice(), removed),
        Format::WebP => without_metadata(alloc, format, file.as_slice(), removed),
        Format::Heif => heif_emptied(alloc, file),
        Format::Tiff => tiff_emptied(alloc, file.as_slice(), removed),
    }
}

// The file without locations, by its format.
fn unlocated(
    alloc: Global,
    unread: Unread,
    format: Format,
    file: Vec<u8>,
) -> Result<Changed, Refusal>
    ensures { Answers change_of result (unlocated unread format file.items) }
{
    match format {
        Format::Jpeg | Format::WebP | Format::Tiff => parts_unlocated(alloc, unread, file),
        Format::Heif => parts_unlocated(alloc, unread, gps_erased(alloc, file)?),
    }
}

// The file with its GPS data erased, or as it is where they can't be: also those of an item in
// several extents, which no part has whole.
fn gps_erased(alloc: Global, mut file: Vec<u8>) -> Result<Vec<u8>, AllocError>
    ensures { IfOk result (λ new. new.items ≡ gps_erased file.items) }
{
    match apply_in_file(
        alloc,
        &Edit::EraseGps,
        Some(ENTRY_LIMIT),
        file.as_mut_slice(),
    ) {
        Err(Error::OutOfMemory) => Err(AllocError),
        Ok(()) | Err(_) => Ok(file),
    }
}

// The HEIF file without its metadata.
fn heif_emptied(alloc: Global, mut file: Vec<u8>) -> Result<Changed, Refusal>
    ensures { Answers change_of result (heif_emptied (heif_file_emptied file.items)) }
{
    if exif_scrub::heif::empty(alloc, file.as_mut_slice())? {
        return heif_left(alloc, erased(alloc, file, &Edit::EraseAll)?);
    }
    erased(alloc, file, &Edit::EraseAll)
}

// A change of a HEIF file with the parts that stay, unless scrubbing the file again changed it.
fn heif_left(alloc: Global, changed: Changed) -> Result<Changed, Refusal>
    ensures { Answers change_of result
        (heif_left (change_of changed) (settled changed.file.items)) }
{
    match exif_scrub::heif::parts_left(alloc, changed.file.as_slice())? {
        Ok(parts) => with_parts(alloc, changed, parts.as_slice()),
        Err(fault) => Err(Refusal::Heif(fault)),
    }
}

// Whether the orientation stays.
fn keeps_orientation(removed: Removed) -> bool
    ensures { result ≡ keeps_orientation removed }
{
    matches!(removed, Removed::AllButOrientation)
}

// The TIFF file without its metadata.
fn tiff_emptied(alloc: Global, file: &[u8], removed: Removed) -> Result<Changed, Refusal>
    ensures { Answers change_of result
        (tiff_emptied (tiff_scrubbed (keeps_orientation removed) file.now)) }
{
    match exif_scrub::tiff::scrub(alloc, file, keeps_orientation(removed))? {
        Ok(new) => Ok(Changed::whole(alloc, new)),
        Err(fault) => Err(Refusal::Tiff(fault)),
    }
}

/// The file without the locations of its parts ([`erase_locations`]), or without its GPS data where
/// no parts of it are known, and what may still hold one.
pub fn parts_unlocated(alloc: Global, unread: Unread, mut file: Vec<u8>) -> Result<Changed, Refusal>
    ensures { Answers change_of result (if_parted (privacy_erased unread file.items)) }
{
    match erase_locations(alloc, file.as_mut_slice(), unread)? {
        Some(parts) => Ok(Changed {
            file,
            left: all_stay(alloc, parts.as_slice())?,
        }),
        None => erased(alloc, file, &Edit::EraseGps),
    }
}

// What is left undone where parts may still hold a location.
fn all_stay(alloc: Global, parts: &[Remaining]) -> Result<Vec<Residual>, AllocError>
    ensures { IfOk result (λ left. map undone_of left.items
        ≡ map (λ part. Some (stays part)) parts.now) }
{
    let mut left = Vec::with_capacity(alloc, parts.len())?;
    for part in parts {
        left.push(Residual::Remaining(*part))?;
    }
    Ok(left)
}

// The file with its fields erased by an edit, or as it is where it has no Exif data.
fn erased(alloc: Global, mut file: Vec<u8>, edit: &Edit) -> Result<Changed, Refusal>
    ensures { Answers change_of result (erased edit.now file.items) }
{
    match apply_in_file(alloc, edit, Some(ENTRY_LIMIT), file.as_mut_slice()) {
        Ok(()) | Err(Error::Container(exif::Error::NotFound(_))) => Ok(Changed::whole(alloc, file)),
        Err(error) => Err(Refusal::Editing(error)),
    }
}

// The JPEG or WebP file without its metadata, but for what is kept.
fn without_metadata(
    alloc: Global,
    format: Format,
    file: &[u8],
    removed: Removed,
) -> Result<Changed, Refusal>
    ensures { Answers change_of result (without_metadata format removed file.now) }
{
    let kept = kept(alloc, file, removed)?;
    let exif = kept.as_deref();
    match rewritten(alloc, format, file, exif, Remove::Metadata) {
        Ok(changed) => with_found(alloc, exif.is_some(), changed),
        Err(error) => Err(Refusal::Reading(error)),
    }
}

/// The Exif data that are put in place of the metadata of a file, if some are kept.
pub fn kept(alloc: Global, file: &[u8], removed: Removed) -> Result<Option<Vec<u8>>, Refusal>
    ensures { Answers (option_map (λ made. made.items)) result (kept removed file.now) }
{
    match removed {
        Removed::AllButOrientation => match orientation_of(alloc, file) {
            Ok(kept) => Ok(kept),
            Err(error) => Err(Refusal::Reading(error)),
        },
        Removed::Metadata | Removed::Gps(_) => Ok(None),
    }
}

// Exif data that hold the orientation of a file's picture alone, if it is told.
fn orientation_of(alloc: Global, file: &[u8]) -> Result<Option<Vec<u8>>, exif::Error>
    ensures { Gives (option_map (λ made. made.items)) result
        (orientation_in (file_contents file.now)) }
{
    match read(alloc, file) {
        Ok(exif) => scrubbed_exif(alloc, &exif, UPRIGHT),
        Err(exif::Error::OutOfMemory | exif::Error::Io(_) | exif::Error::PartialResult(_)) => {
            Err(exif::Error::OutOfMemory)
        }
        Err(_no_fields) => Ok(None),
    }
}

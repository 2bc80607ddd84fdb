//! Dates that a picture may have beside those of its Exif data: in XMP packets and IPTC data.

ghost use Rattle.std.specs.Prelude.{◌≡◌, IfOk, Ok};
ghost use Rattle.std.specs.List.{list_any};
ghost use Rattle.exif_change.specs.Changed.{change_of};
ghost use Rattle.exif_change.specs.Reading.{file_contents};
ghost use Rattle.exif_change.specs.Refusals.{Answers};
ghost use Rattle.exif_setting.specs.OtherDates.{assigns_date, has_dated_field, has_dated_part, has_other_dates, is_date, is_date_field, is_dated_field, is_dated_kind, is_dated_part, is_dated_tag, leaves_dates, with_other_dates};

use exif::{Context, Error, Field, Tag};
use exif_assign::Assignment;
use exif_change::{Changed, Refusal, Residual, read};
use exif_inventory::{Kind, Part};
use exif_privacy::parts_of;
use exif_types::fields_left;
use std::alloc::{AllocError, Global};

// Whether parts of this kind may hold dates.
fn is_dated_kind(kind: Kind) -> bool
    ensures { result ≡ is_dated_kind kind }
{
    matches!(
        kind,
        Kind::Xmp | Kind::ExtendedXmp | Kind::PhotoshopXmp | Kind::Iptc
    )
}

// Whether one of these parts does.
fn has_dated(parts: &[Part]) -> bool
    ensures { result ≡ list_any is_dated_part parts.now }
{
    parts.iter().any(|part| is_dated_kind(part.kind))
}

// Whether a part of a file does.
fn has_dated_part(alloc: Global, file: &[u8]) -> Result<bool, AllocError>
    ensures { IfOk result (λ has. has ≡ has_dated_part file.now) }
{
    match parts_of(alloc, file)? {
        Some(parts) => Ok(has_dated(parts.as_slice())),
        None => Ok(false),
    }
}

// Whether a tag of TIFF data has XMP, IPTC data or the resources of Photoshop.
fn is_dated_tag(tag: Tag) -> bool
    ensures { result ≡ is_dated_tag tag }
{
    match tag.0 {
        Context::Tiff => tag.1 == 700 || tag.1 == 33723 || tag.1 == 34377,
        Context::Exif | Context::Gps | Context::Interop => false,
    }
}

// Whether one of these fields has.
fn has_dated_in(fields: &[Field]) -> bool
    ensures { result ≡ list_any is_dated_field fields.now }
{
    fields.iter().any(|field| is_dated_tag(field.tag))
}

// Whether one of the fields of a file has.
fn has_dated_field(alloc: Global, file: &[u8]) -> Result<bool, AllocError>
    ensures { IfOk result (λ has. has ≡ has_dated_field (file_contents file.now)) }
{
    match read(alloc, file) {
        Ok(exif) => Ok(has_dated_in(fields_left(&exif.fields()))),
        Err(Error::OutOfMemory | Error::Io(_) | Error::PartialResult(_)) => Err(AllocError),
        Err(_no_fields) => Ok(false),
    }
}

/// Whether a file may have dates beside those of its Exif data.
pub(crate) fn has_other_dates(alloc: Global, file: &[u8]) -> Result<bool, AllocError>
    ensures { IfOk result (λ has. has ≡ has_other_dates file.now) }
{
    if has_dated_part(alloc, file)? {
        return Ok(true);
    }
    has_dated_field(alloc, file)
}

// Whether a tag is one of the dates of Exif data.
fn is_date(tag: Tag) -> bool
    ensures { result ≡ is_date tag }
{
    match tag.0 {
        Context::Tiff => tag.1 == 306,
        Context::Exif => tag.1 == 36867 || tag.1 == 36868,
        Context::Gps | Context::Interop => false,
    }
}

/// Whether a value is assigned to a date.
pub(crate) fn assigns_date(assignments: &[Assignment<'_>]) -> bool
    ensures { result ≡ list_any assigns_date assignments.now }
{
    assignments.iter().any(|assignment| is_date(assignment.tag))
}

/// Whether a field is a date.
pub(crate) fn has_date(fields: &[Field]) -> bool
    ensures { result ≡ list_any is_date_field fields.now }
{
    fields.iter().any(|field| is_date(field.tag))
}

/// Whether dates stay in a file in which dates are set, or none.
pub(crate) fn leaves_dates(alloc: Global, file: &[u8], sets_date: bool) -> Result<bool, AllocError>
    ensures { IfOk result (λ leaves. leaves ≡ leaves_dates sets_date file.now) }
{
    if sets_date {
        has_other_dates(alloc, file)
    } else {
        Ok(false)
    }
}

/// A change of dates; whether the file had others, which stay, too.
pub(crate) fn with_other_dates(others: bool, changed: Changed) -> Result<Changed, Refusal>
    ensures { Answers change_of result (with_other_dates others (Ok (change_of changed))) }
{
    let Changed { file, mut left } = changed;
    if others {
        left.push(Residual::OtherDates)?;
    }
    Ok(Changed { file, left })
}

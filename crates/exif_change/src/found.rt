//! Metadata that are found in a new file.

ghost use Rattle.std.specs.Prelude.{◌≡◌, ◌++◌, [], true, IfOk, Ok};
ghost use Rattle.exif_change.specs.Changed.{change_of};
ghost use Rattle.exif_change.specs.Found.{belongs, foreign, found_in, is_loose, loose_behind, loose_parts, with_found, with_parts};
ghost use Rattle.exif_change.specs.Refusals.{Answers};

use crate::Refusal;
use crate::changed::{Changed, Residual};
use exif_inventory::{Kind, Part};
use exif_lengths::inventory;
use std::alloc::{AllocError, Global};

/// Whether a part belongs to a file without metadata: it is what the first picture needs, or Exif
/// data that were put.
pub fn belongs(put: bool, part: Part) -> bool
    ensures { result ≡ belongs put part }
{
    part.picture == 0
        && match part.kind {
            Kind::Picture | Kind::Jfif | Kind::Adobe | Kind::IccProfile => true,
            Kind::Exif => put,
            _ => false,
        }
}

// The parts that do not.
fn foreign(alloc: Global, put: bool, parts: &[Part]) -> Result<Vec<Part>, AllocError>
    ensures { IfOk result (λ found. found.items ≡ foreign put parts.now []) }
{
    let mut found = Vec::new(alloc);
    for part in parts {
        if !belongs(put, *part) {
            found.push(*part)?;
        }
    }
    Ok(found)
}

// Those of a JPEG, WebP, PNG or JPEG XL file; a piece of the picture whose length is not the one
// that its standard gives is one of them.
fn found_in(alloc: Global, put: bool, file: &[u8]) -> Result<Vec<Part>, AllocError>
    ensures { IfOk result (λ found. found.items ≡ found_in put file.now) }
{
    match inventory(alloc, file)? {
        Some(parts) => foreign(alloc, put, &parts),
        None => Ok(Vec::new(alloc)),
    }
}

// Whether a part is bytes outside of segments.
fn is_loose(file: &[u8], part: Part) -> bool
    ensures { result ≡ is_loose file.now part }
{
    matches!(part.kind, Kind::Unknown) && part.offset < file.len() && file[part.offset] != 0xff
}

// Of these parts, the bytes outside of segments that follow a part which goes.
fn loose_behind(alloc: Global, file: &[u8], parts: &[Part]) -> Result<Vec<Part>, AllocError>
    ensures { IfOk result (λ found. found.items ≡ loose_behind file.now true parts.now []) }
{
    let mut found = Vec::new(alloc);
    let mut belonged = true;
    for part in parts {
        if !belonged && is_loose(file, *part) {
            found.push(*part)?;
        }
        belonged = belongs(false, *part);
    }
    Ok(found)
}

// Those of a JPEG file.
fn loose_parts(alloc: Global, file: &[u8]) -> Result<Vec<Part>, AllocError>
    ensures { IfOk result (λ found. found.items ≡ loose_parts file.now) }
{
    match inventory(alloc, file)? {
        Some(parts) => loose_behind(alloc, file, &parts),
        None => Ok(Vec::new(alloc)),
    }
}

/// A JPEG file without its metadata, with the bytes outside of segments that the old one has behind
/// parts which went: they are bytes of a scan then, which no reader tells from its own.
pub(crate) fn with_loose(alloc: Global, old: &[u8], changed: Changed) -> Result<Changed, Refusal>
    ensures { Answers change_of result
        (with_parts (loose_parts old.now) (Ok (change_of changed))) }
{
    let loose = loose_parts(alloc, old)?;
    with_parts(alloc, changed, &loose)
}

/// A change that left these parts too.
pub(crate) fn with_parts(
    alloc: Global,
    changed: Changed,
    parts: &[Part],
) -> Result<Changed, Refusal>
    ensures { Answers change_of result (with_parts parts.now (Ok (change_of changed))) }
{
    let Changed { file, mut left } = changed;
    for part in parts {
        left.push(Residual::Part(*part))?;
    }
    Ok(Changed { file, left })
}

/// A JPEG, WebP, PNG or JPEG XL file that was rewritten, with what is found in it that does not
/// belong there: parts that are not the picture's, and pieces of it whose length is not the one
/// that their standard gives.
pub fn with_found(alloc: Global, put: bool, changed: Changed) -> Result<Changed, Refusal>
    ensures { Answers change_of result (with_found put (Ok (change_of changed))) }
{
    let found = found_in(alloc, put, changed.file.as_slice())?;
    with_parts(alloc, changed, &found)
}

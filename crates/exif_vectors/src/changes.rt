//! Whole files that programs change.

use crate::calls::{end_of, end_of_error, send};
use crate::cases::{Call, Case, CaseError};
use exif::{Sink, Source};
use exif_change::{Changed, Refusal, Removed, Unread, read};
use exif_copy::{Selection, Shape, copy_selected};
use exif_segments::util::read_all;
use exif_setting::{Assignment, ClockShift, Dates};
use exif_thumbnails::held_thumbnail;
use std::alloc::{AllocError, Global};

/// Reads a file, changes it, and sends what it is then. A refusal sends nothing but the old file.
pub fn change<R: Source, W: Sink>(
    alloc: Global,
    case: &Case,
    source: &mut R,
    out: &mut W,
) -> Result<String, CaseError> {
    match read_all(alloc, source) {
        Ok(file) => changed(alloc, case, file, out),
        Err(error) => end_of_error(alloc, error),
    }
}

fn changed<W: Sink>(
    alloc: Global,
    case: &Case,
    file: Vec<u8>,
    out: &mut W,
) -> Result<String, CaseError> {
    let old = file.clone()?;
    let answer = match case.call {
        Call::ScrubFile => exif_change::scrub(alloc, old, removed(case)),
        Call::Assign => assigned(alloc, case, old)?,
        Call::Shift => shifted(alloc, case, old)?,
        Call::CopyExif => copied(alloc, case, old.as_slice()),
        _ => thumbnail_of(alloc, old)?,
    };
    sent(alloc, file, answer, out)
}

// Sends the new file, and answers what was left undone first, or the old one and the text of the
// refusal.
fn sent<W: Sink>(
    alloc: Global,
    old: Vec<u8>,
    answer: Answer,
    out: &mut W,
) -> Result<String, CaseError> {
    match answer {
        Ok(new) => {
            let end = end_of(alloc, send(out, new.file.as_slice()))?;
            match new.left.first() {
                Some(left) if end.is_empty() => Ok(format!(in alloc; "{left}")?),
                _ => Ok(end),
            }
        }
        Err(refusal) => {
            let end = end_of_error(alloc, refusal)?;
            let failure = end_of(alloc, send(out, old.as_slice()))?;
            if failure.is_empty() {
                Ok(end)
            } else {
                Ok(failure)
            }
        }
    }
}

fn removed(case: &Case) -> Removed {
    if case.keeps_orientation {
        Removed::AllButOrientation
    } else if case.removes_all {
        Removed::Metadata
    } else {
        Removed::Gps(Unread::Keep)
    }
}

type Answer = Result<Changed, Refusal>;

fn assigned(alloc: Global, case: &Case, old: Vec<u8>) -> Result<Answer, CaseError> {
    let mut assignments = Vec::new(alloc);
    for word in case.words.as_slice() {
        let Some(parsed) = Assignment::parse_all(alloc, word.as_str())? else {
            return Err(CaseError::Line("no assignment"));
        };
        assignments.extend_from_slice(parsed.as_slice())?;
    }
    Ok(exif_setting::set(alloc, old, assignments.as_slice()))
}

fn shifted(alloc: Global, case: &Case, old: Vec<u8>) -> Result<Answer, CaseError> {
    let Some(by) = ClockShift::parse(case.word()) else {
        return Err(CaseError::Line("no shift"));
    };
    let dates = if case.exif_dates {
        Dates::Exif
    } else {
        Dates::All
    };
    Ok(exif_setting::shift(alloc, old, by, dates))
}

// The file with the metadata of the one that is put.
fn copied(alloc: Global, case: &Case, old: &[u8]) -> Answer {
    let from = case.put.as_deref().unwrap_or(&[]);
    let shape = if case.target_shape {
        Shape::Target
    } else {
        Shape::Source
    };
    let selection = Selection {
        shape,
        xmp: case.xmp,
        color_profile: case.icc,
    };
    copy_selected(alloc, from, old, selection)
}

// The thumbnail of a file; nothing where there is none.
fn thumbnail_of(alloc: Global, file: Vec<u8>) -> Result<Answer, CaseError> {
    match read(alloc, file.as_slice()) {
        Ok(exif) => Ok(Ok(Changed {
            file: copy_of(alloc, held_thumbnail(&exif))?,
            left: Vec::new(alloc),
        })),
        Err(error) => Ok(Err(Refusal::from(error))),
    }
}

fn copy_of(alloc: Global, bytes: Option<&[u8]>) -> Result<Vec<u8>, AllocError> {
    match bytes {
        Some(bytes) => Vec::from_slice(alloc, bytes),
        None => Vec::from_slice(alloc, b"none"),
    }
}

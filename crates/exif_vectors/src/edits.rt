//! Edits: in place, and as patches, which must have the same outcome.

use crate::calls::{OUT_OF_MEMORY, end_of, end_of_error, send};
use crate::cases::{Call, Case, CaseError, Kind};
use exif::{Counted, Field, In, Seekable, Sink, Source, Tag};
use exif_edit::{Edit, Error, Patch, apply, apply_in_file, patches_in, patches_of};
use exif_segments::util::read_all;
use std::alloc::Global;
use std::fmt::Display;
use std::io::Cursor;

/// Reads all bytes, edits them, and sends what they are then. The text is that of the refusal.
pub fn edit<R: Source, W: Sink>(
    alloc: Global,
    case: &Case,
    source: &mut R,
    out: &mut W,
) -> Result<String, CaseError> {
    match read_all(alloc, source) {
        Ok(bytes) => edited(alloc, case, bytes, out),
        Err(error) => end_of_error(alloc, error),
    }
}

fn edited<W: Sink>(
    alloc: Global,
    case: &Case,
    mut bytes: Vec<u8>,
    out: &mut W,
) -> Result<String, CaseError> {
    let old = bytes.clone()?;
    let end = match case.kind {
        Kind::Stream => once(alloc, case, old.as_slice(), bytes.as_mut_slice())?,
        _ => end_of(alloc, in_place(alloc, case, bytes.as_mut_slice()))?,
    };
    if end.as_str() != OUT_OF_MEMORY
        && !is_patched(alloc, case, old, bytes.as_slice(), end.as_str())?
    {
        return Ok(String::from_str(alloc, "the patches differ")?);
    }
    let failure = end_of(alloc, send(out, bytes.as_slice()))?;
    if failure.is_empty() {
        Ok(end)
    } else {
        Ok(failure)
    }
}

// The tag and the directory of the case.
fn name_of(case: &Case) -> (Tag, In) {
    case.tag.unwrap_or((Tag::ImageDescription, In(0)))
}

// The edit of the case.
fn edit_of(alloc: Global, case: &Case) -> Result<Edit, Error> {
    let (tag, ifd_num) = name_of(case);
    match case.call {
        Call::EraseGps => Ok(Edit::EraseGps),
        Call::EraseAll => Ok(Edit::EraseAll),
        Call::EraseField => Ok(Edit::EraseField { tag, ifd_num }),
        _ => set_by(alloc, case),
    }
}

fn set_by(alloc: Global, case: &Case) -> Result<Edit, Error> {
    let Some(field) = case.fields.first() else {
        return Err(Error::FieldNotFound);
    };
    match field.value.clone(alloc) {
        Ok(value) => Ok(Edit::Set {
            tag: field.tag,
            ifd_num: field.ifd_num,
            value,
        }),
        Err(_out_of_memory) => Err(Error::OutOfMemory),
    }
}

fn in_place(alloc: Global, case: &Case, bytes: &mut [u8]) -> Result<(), Error> {
    let edit = edit_of(alloc, case)?;
    match case.kind {
        Kind::Data => apply(alloc, &edit, None, bytes),
        _ => apply_in_file(alloc, &edit, None, bytes),
    }
}

// The patches of data, or of a file that is read once, or one that is sought in.
fn patches(alloc: Global, case: &Case, bytes: &[u8]) -> Result<Vec<Patch>, Error> {
    let edit = edit_of(alloc, case)?;
    match case.kind {
        Kind::Data => patches_of(alloc, &edit, None, bytes),
        Kind::Stream => { patches_in(alloc, &edit, None, &mut Seekable::new(Cursor::new(bytes))) }
        _ => patches_in(alloc, &edit, None, &mut Counted::new(bytes)),
    }
}

// Edits a file by the patches of a source that is read once.
fn once(alloc: Global, case: &Case, old: &[u8], bytes: &mut [u8]) -> Result<String, CaseError> {
    end_of_patches(alloc, bytes, patches_read(alloc, case, old))
}

// The patches of a file that is read once.
fn patches_read(alloc: Global, case: &Case, bytes: &[u8]) -> Result<Vec<Patch>, Error> {
    let edit = edit_of(alloc, case)?;
    patches_in(alloc, &edit, None, &mut Counted::new(bytes))
}

// Whether the patches make the new bytes of the old ones, or are refused with the same text.
fn is_patched(
    alloc: Global,
    case: &Case,
    mut old: Vec<u8>,
    new: &[u8],
    end: &str,
) -> Result<bool, CaseError> {
    let answer = patches(alloc, case, old.as_slice());
    let found = end_of_patches(alloc, old.as_mut_slice(), answer)?;
    Ok(found.as_str() == OUT_OF_MEMORY || (found.as_str() == end && old.as_slice() == new))
}

fn end_of_patches<E: Display + Drop>(
    alloc: Global,
    bytes: &mut [u8],
    answer: Result<Vec<Patch>, E>,
) -> Result<String, CaseError> {
    match answer {
        Ok(patches) => {
            for patch in patches.as_slice() {
                put(bytes, patch.offset as usize, patch.bytes.as_slice());
            }
            Ok(String::new(alloc))
        }
        Err(error) => end_of_error(alloc, error),
    }
}

// Copies new bytes over those at an offset, if there are as many.
fn put(bytes: &mut [u8], offset: usize, new: &[u8]) {
    if new.len() <= bytes.len() && offset <= bytes.len() - new.len() {
        bytes[offset..offset + new.len()].copy_from_slice(new);
    }
}

//! Which files are processed, by what their pictures tell.

ghost use Rattle.std.specs.Prelude.{◌≡◌, false, true, IfOk, IfSome, Ok, OnErr, Result};
ghost use Rattle.exif_summary.specs.Choices.{is_any};
ghost use Rattle.exif_types.specs.Contents.{ExifContents};
ghost use Rattle.exif_types.specs.Failures.{Failure};
ghost use Rattle.exif_inputs.specs.Chosen.{is_chosen};
ghost use Rattle.exif_inputs.specs.Found.{IsExifIn, exif_found, exif_read};
ghost use Rattle.exif_inputs.specs.Uses.{held};
ghost use Rattle.exif_types.specs.declared.error.Error.TheVariants.{OutOfMemory};

use crate::inputs::{Input, open, read};
use exif::{Error, Exif};
use exif_change::ENTRY_LIMIT;
use exif_formats::Options;
use exif_summary::Choice;
use std::alloc::{AllocError, Global};

// How a picture is read: faults are skipped.
const OPTIONS: Options = Options {
    lenient: true,
    limit: Some(ENTRY_LIMIT),
};

/// Whether a file is one of those that are asked for. A file that can't be read is: what is done
/// with it reports that.
pub fn is_chosen(rt: &HostRuntime, choice: &Choice<'_>, path: &str) -> Result<bool, AllocError>
    ensures all { is_any choice.now ≡ false → result ≡ Ok true }
    ensures some { is_any choice.now ≡ true → IfOk result (λ chosen.
        (read : Result ExifContents Failure) × (chosen ≡ is_chosen choice.now read)) }
{
    if !choice.is_any() {
        return Ok(true);
    }
    meets(choice, &exif_of(rt, path))
}

// Whether a picture of which this was read meets the conditions. One without Exif data has neither
// date, camera nor location, and one that can't be read is processed.
fn meets(choice: &Choice<'_>, read: &Result<Exif, Error>) -> Result<bool, AllocError>
    ensures value { IfOk result (λ chosen. chosen ≡ is_chosen choice.now read.now) }
    ensures memory { OnErr result (read.now ≡ Err OutOfMemory) }
{
    match read {
        Ok(exif) => Ok(choice.takes_picture(Some(exif))),
        Err(Error::NotFound(_)) => Ok(choice.takes_picture(None)),
        Err(Error::OutOfMemory) => Err(AllocError),
        Err(_unreadable) => Ok(true),
    }
}

/// The Exif data of a file. Faults are skipped.
pub fn exif_of(rt: &HostRuntime, path: &str) -> Result<Exif, Error> {
    let input = open(rt, path)?;
    exif_in(rt.alloc(), input)
}

// The Exif data of what is read. Faults are skipped.
fn exif_in(alloc: Global, input: Input) -> Result<Exif, Error>
    ensures { IfSome (held input) (λ bytes. IsExifIn bytes result) }
{
    match read(alloc, OPTIONS, input) {
        Ok(picture) => exif_read(picture.answer),
        Err(error) => Err(error),
    }
}

/// The Exif data of a picture of which this was read. Faults are skipped.
pub fn exif_read(read: Result<Exif, Error>) -> Result<Exif, Error>
    ensures { result ≡ exif_read read.entry }
{
    match read {
        Ok(exif) => Ok(exif),
        Err(Error::PartialResult(partial)) => Ok(partial.into_inner().0),
        Err(error) => Err(error),
    }
}

/// The same; nothing where the picture has no Exif data.
pub fn exif_if_any(rt: &HostRuntime, path: &str) -> Result<Option<Exif>, Error> {
    exif_found(exif_of(rt, path))
}

// What was read of a picture, where one without Exif data was read, too.
fn exif_found(read: Result<Exif, Error>) -> Result<Option<Exif>, Error>
    ensures { result ≡ exif_found read.entry }
{
    match read {
        Ok(exif) => Ok(Some(exif)),
        Err(Error::NotFound(_)) => Ok(None),
        Err(error) => Err(error),
    }
}

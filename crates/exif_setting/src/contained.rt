//! PNG and JPEG XL files whose Exif data are changed as a TIFF file is, and put into them again.

ghost use Rattle.std.specs.Prelude.{◌≡◌, []};
ghost use Rattle.std.specs.Option.{option_map};
ghost use Rattle.exif_types.specs.Refusals.{Gives};
ghost use Rattle.exif_change.specs.Changed.{change_of};
ghost use Rattle.exif_change.specs.Refusals.{Answers};
ghost use Rattle.exif_setting.specs.Contained.{contained, created, data_changed, data_with, edited_in, new_data_for, put_change, put_data, put_new};
ghost use Rattle.exif_setting.specs.Edits.{edit_of};

use crate::dates::{Dates, shift};
use crate::fields::set_fields;
use crate::growing::new_data;
use crate::setting::{assigned, set};
use exif::{Error, Field};
use exif_assign::Assignment;
use exif_change::{Changed, Refusal, jxl, png};
use exif_datetime::ClockShift;
use exif_formats::png_data;
use exif_segments::Remove;
use std::alloc::Global;

/// What Exif data are in that are changed as a TIFF file is.
#[derive(Clone, Copy)]
pub(crate) enum Container {
    /// A chunk of a PNG file.
    Png,
    /// A box of a JPEG XL file.
    Jxl,
}

/// What is changed in Exif data.
#[derive(Clone, Copy)]
pub(crate) enum DataEdit<'v, 'a> {
    /// Values are set, which texts spell.
    Values(&'v [Assignment<'a>]),
    /// Fields are set.
    Fields(&'v [Field]),
    /// Dates are moved.
    Shift(ClockShift, Dates),
}

/// TIFF data, or a file that the reader knows, with its Exif data changed.
pub(crate) fn data_changed(
    alloc: Global,
    edit: DataEdit<'_, '_>,
    file: Vec<u8>,
) -> Result<Changed, Refusal>
    ensures { Answers change_of result (data_changed (edit_of edit.entry) file.items) }
{
    match edit {
        DataEdit::Values(assignments) => set(alloc, file, assignments),
        DataEdit::Fields(fields) => set_fields(alloc, file, fields),
        DataEdit::Shift(by, dates) => shift(alloc, file, by, dates),
    }
}

// The Exif data of a file.
fn data_of(alloc: Global, container: Container, file: &[u8]) -> Result<Vec<u8>, Error>
    ensures { Gives (λ v. v.items) result (contained container file.now) }
{
    match container {
        Container::Png => png_data(alloc, file),
        Container::Jxl => jxl::data_of(alloc, file),
    }
}

// A file with these Exif data in place of its own.
fn put_data(
    alloc: Global,
    container: Container,
    file: &[u8],
    exif: &[u8],
) -> Result<Vec<u8>, Refusal>
    ensures { Answers (λ v. v.items) result (put_data container file.now exif.now) }
{
    match container {
        Container::Png => png::rewritten(alloc, file, Some(exif), Remove::Exif),
        Container::Jxl => jxl::rewritten(alloc, file, Some(exif), Remove::Exif),
    }
}

// The same with a change of its Exif data.
fn put_change(
    alloc: Global,
    container: Container,
    file: &[u8],
    changed: Changed,
) -> Result<Changed, Refusal>
    ensures { Answers change_of result (put_change container file.now (change_of changed)) }
{
    let Changed { file: exif, left } = changed;
    let new = put_data(alloc, container, file, exif.as_slice())?;
    Ok(Changed { file: new, left })
}

// New Exif data that hold fields, or none.
fn data_with(alloc: Global, fields: &[Field]) -> Result<Option<Vec<u8>>, Refusal>
    ensures { Answers (option_map (λ v. v.items)) result (data_with fields.now) }
{
    if fields.is_empty() {
        return Ok(None);
    }
    match new_data(alloc, fields) {
        Ok(exif) => Ok(Some(exif)),
        Err(error) => Err(Refusal::Reading(error)),
    }
}

// A file that has no Exif data with new ones, if there are some.
fn put_new(
    alloc: Global,
    container: Container,
    file: Vec<u8>,
    exif: Option<Vec<u8>>,
) -> Result<Changed, Refusal>
    ensures { Answers change_of result
        (put_new container file.items (option_map (λ v. v.items) exif)) }
{
    match exif {
        Some(exif) => {
            let new = put_data(alloc, container, file.as_slice(), exif.as_slice())?;
            Ok(Changed::whole(alloc, new))
        }
        None => Ok(Changed::whole(alloc, file)),
    }
}

// The new Exif data of a file that has none. No dates are moved in them.
fn new_data_for(
    alloc: Global,
    edit: DataEdit<'_, '_>,
    what: &'static str,
) -> Result<Option<Vec<u8>>, Refusal>
    ensures { Answers (option_map (λ v. v.items)) result
        (new_data_for (edit_of edit.entry) what.now) }
{
    match edit {
        DataEdit::Values(assignments) => {
            let sets = assigned(alloc, None, assignments)?;
            data_with(alloc, sets.single.as_slice())
        }
        DataEdit::Fields(fields) => data_with(alloc, fields),
        DataEdit::Shift(..) => Err(Refusal::Reading(Error::NotFound(what))),
    }
}

// A file that has no Exif data with new ones.
fn created(
    alloc: Global,
    container: Container,
    edit: DataEdit<'_, '_>,
    what: &'static str,
    file: Vec<u8>,
) -> Result<Changed, Refusal>
    ensures { Answers change_of result
        (created container (edit_of edit.entry) what.now file.items) }
{
    let exif = new_data_for(alloc, edit, what)?;
    put_new(alloc, container, file, exif)
}

/// A file with its Exif data changed as a TIFF file is, or with new ones.
pub(crate) fn edited(
    alloc: Global,
    container: Container,
    edit: DataEdit<'_, '_>,
    file: Vec<u8>,
) -> Result<Changed, Refusal>
    ensures { Answers change_of result (edited_in container (edit_of edit.entry) file.items) }
{
    match data_of(alloc, container, file.as_slice()) {
        Ok(exif) => {
            let changed = data_changed(alloc, edit, exif)?;
            put_change(alloc, container, file.as_slice(), changed)
        }
        Err(Error::NotFound(what)) => created(alloc, container, edit, what, file),
        Err(error) => Err(Refusal::Reading(error)),
    }
}

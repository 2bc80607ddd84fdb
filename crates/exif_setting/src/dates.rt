//! Dates of a file moved by as much as a camera's clock was wrong.

ghost use Rattle.std.specs.Prelude.{◌≡◌, [], ◌∷◌, ◌++◌, map, IfOk, OnOk};
ghost use Rattle.exif_change.specs.Changed.{change_of, undone_of, whole};
ghost use Rattle.exif_setting.specs.InPlace.{field_set};
ghost use Rattle.exif_datetime.specs.Shift.{moved_value};
ghost use Rattle.exif_change.specs.Refusals.{Answers};
ghost use Rattle.exif_setting.specs.Shifting.{date, date_moved, date_set, dates_moved, has_date, has_dates, shifted, tag_moved, tags_moved, tags_of};

use crate::in_place::set_field;
use exif::{Exif, Field, In, Tag, Value};
use exif_change::{Changed, Refusal, Residual, read};
use exif_datetime::{ClockShift, moved_value};
use std::alloc::{AllocError, Global};

/// Which dates are moved.
#[derive(Clone, Copy)]
pub enum Dates {
    /// `DateTime`, `DateTimeOriginal` and `DateTimeDigitized`.
    All,
    /// The last two, which are in the Exif directory: programs set the first when they change a
    /// file.
    Exif,
}

impl Dates {
    fn tags(self) -> &'static [Tag]
        ensures { result.now ≡ tags_of self }
    {
        match self {
            Dates::All => &[Tag::DateTime, Tag::DateTimeOriginal, Tag::DateTimeDigitized],
            Dates::Exif => &[Tag::DateTimeOriginal, Tag::DateTimeDigitized],
        }
    }
}

/// The file with its dates moved, in place. A date that can't be moved, or not be set, stays, and
/// the answer says which: a blank one, one of zeros, one that the calendar does not have, one that
/// is cut, and one that shares its bytes. A file without a date is refused.
pub fn shift(alloc: Global, file: Vec<u8>, by: ClockShift, dates: Dates) -> Result<Changed, Refusal>
    ensures { Answers change_of result (shifted by dates file.items) }
{
    match read(alloc, &file) {
        Ok(exif) => dates_moved(alloc, &exif, by, dates, file),
        Err(error) => Err(Refusal::Reading(error)),
    }
}

// The file with the dates moved that were read of it.
fn dates_moved(
    alloc: Global,
    exif: &Exif,
    by: ClockShift,
    dates: Dates,
    file: Vec<u8>,
) -> Result<Changed, Refusal>
    ensures { Answers change_of result (dates_moved by dates exif.now.fields file.items) }
{
    if !has_dates(exif, dates.tags()) {
        return Err(Refusal::NoDate);
    }
    Ok(tags_moved(alloc, exif, by, dates.tags(), file)?)
}

// Whether one of the dates was read.
fn has_dates(exif: &Exif, tags: &[Tag]) -> bool
    ensures { result ≡ has_dates exif.now.fields tags.now }
{
    for tag in tags {
        if has_date(exif, *tag) {
            return true;
        }
    }
    false
}

// Whether a date was read.
fn has_date(exif: &Exif, tag: Tag) -> bool
    ensures { result ≡ has_date exif.now.fields tag }
{
    exif.get_field(tag, In::PRIMARY).is_some()
}

// The file with its dates moved, one after the other.
fn tags_moved(
    alloc: Global,
    exif: &Exif,
    by: ClockShift,
    tags: &[Tag],
    file: Vec<u8>,
) -> Result<Changed, AllocError>
    ensures { IfOk result (λ changed. change_of changed
        ≡ tags_moved by exif.now.fields tags.now (whole file.items)) }
{
    let mut changed = Changed::whole(alloc, file);
    for tag in tags {
        if let Some(field) = exif.get_field(*tag, In::PRIMARY) {
            date_moved(alloc, by, *tag, &field.value, &mut changed)?;
        }
    }
    Ok(changed)
}

// Sets a date, moved.
fn date_moved(
    alloc: Global,
    by: ClockShift,
    tag: Tag,
    value: &Value,
    changed: &mut Changed,
) -> Result<(), AllocError>
    ensures { OnOk result (change_of changed.new
        ≡ date_moved tag (moved_value by value.now) (change_of changed.old)) }
{
    match moved_value(alloc, by, value)? {
        Ok(value) => date_set(alloc, tag, value, changed),
        Err(why) => Ok(changed.left.push(Residual::Date(tag, why))?),
    }
}

// Sets a date in place.
fn date_set(alloc: Global, tag: Tag, value: Value, changed: &mut Changed) -> Result<(), AllocError>
    ensures { OnOk result (change_of changed.new
        ≡ date_set tag (field_set (date tag value) (change_of changed.old).file)
        (change_of changed.old)) }
{
    match set_field(alloc, changed.file.as_mut_slice(), date(tag, value)) {
        Ok(()) => Ok(()),
        Err(exif_edit::Error::OutOfMemory) => Err(AllocError),
        Err(error) => left_unset(changed, tag, error),
    }
}

// Notes that a date was not set.
fn left_unset(changed: &mut Changed, tag: Tag, error: exif_edit::Error) -> Result<(), AllocError>
    ensures { OnOk result (change_of changed.new ≡ record {
      file = changed.old.file.items;
      undone = map undone_of changed.old.left.items ++ undone_of (Residual.Edit tag error) ∷ [];
    }) }
{
    changed.left.push(Residual::Edit(tag, error))?;
    Ok(())
}

// A date of the primary image.
fn date(tag: Tag, value: Value) -> Field
    ensures { result ≡ date tag value }
{
    Field {
        tag,
        ifd_num: In::PRIMARY,
        value,
    }
}

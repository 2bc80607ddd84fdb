//! Fields set in a file whose values are at hand.

ghost use Rattle.std.specs.Prelude.{◌≡◌, [], IfOk, OnOk};
ghost use Rattle.exif_change.specs.Changed.{change_of};
ghost use Rattle.exif_setting.specs.Fields.{fields_behind, fields_set, fields_set_as, given_fields};
ghost use Rattle.exif_setting.specs.InPlace.{sets_of};
ghost use Rattle.exif_change.specs.Refusals.{Answers};
ghost use Rattle.exif_change.specs.Reading.{fields_read};
ghost use Rattle.exif_setting.specs.Setting.{with_field};

use crate::in_place::Sets;
use crate::setting::{add_field, set_sets};
use exif::{Exif, Field};
use exif_change::{Changed, Refusal, read};
use exif_containers::container::{Format, format_of};
use std::alloc::{AllocError, Global};

/// The file with these fields set, as [`set`](crate::set) sets those that texts spell. Each is of
/// the primary image, and no two have one tag. A field that the file has gets the type of the new
/// value. It takes the memory that [`set`](crate::set) takes, and that of the fields.
pub fn set_fields(alloc: Global, file: Vec<u8>, fields: &[Field]) -> Result<Changed, Refusal>
    ensures { Answers change_of result (fields_set fields.now file.items) }
{
    match format_of(file.as_slice()) {
        Some(format) => set_fields_as(alloc, format, fields, file),
        None => Err(Refusal::UnknownFormat),
    }
}

// The file of a format with fields set.
fn set_fields_as(
    alloc: Global,
    format: Format,
    fields: &[Field],
    file: Vec<u8>,
) -> Result<Changed, Refusal>
    ensures { Answers change_of result (fields_set_as format fields.now file.items) }
{
    let sets = given_fields(alloc, file.as_slice(), fields)?;
    set_sets(alloc, format, sets, file)
}

// The fields that are to be set in a file: in place, or in its data.
fn given_fields(alloc: Global, file: &[u8], fields: &[Field]) -> Result<Sets, Refusal>
    ensures { Answers sets_of result (given_fields file.now fields.now) }
{
    match read(alloc, file) {
        Ok(exif) => Ok(sets_for(alloc, Some(&exif), fields)?),
        Err(exif::Error::NotFound(_)) => Ok(sets_for(alloc, None, fields)?),
        Err(error) => Err(Refusal::Reading(error)),
    }
}

// The same where these were read.
fn sets_for(alloc: Global, exif: Option<&Exif>, fields: &[Field]) -> Result<Sets, AllocError>
    ensures { IfOk result (λ sets. sets_of sets
        ≡ fields_behind (fields_read exif.entry) fields.now ([], [])) }
{
    let mut sets = Sets {
        single: Vec::new(alloc),
        repeated: Vec::new(alloc),
    };
    for field in fields {
        add_copy(alloc, exif, field, &mut sets)?;
    }
    Ok(sets)
}

// Adds a copy of a field.
fn add_copy(
    alloc: Global,
    exif: Option<&Exif>,
    field: &Field,
    sets: &mut Sets,
) -> Result<(), AllocError>
    ensures { OnOk result (sets_of sets.new
        ≡ with_field (fields_read exif.entry) field.now (sets_of sets.old)) }
{
    match field.clone(alloc) {
        Ok(copy) => add_field(exif, copy, sets),
        Err(_memory) => Err(AllocError),
    }
}

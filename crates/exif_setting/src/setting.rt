//! Values set in a file.

ghost use Rattle.std.specs.Prelude.{◌≡◌, [], false, OnOk};
ghost use Rattle.exif_assign.specs.Assigning.{parts_of};
ghost use Rattle.exif_change.specs.Changed.{change_of};
ghost use Rattle.exif_setting.specs.InPlace.{sets_of};
ghost use Rattle.exif_change.specs.Refusals.{Answers, Changes};
ghost use Rattle.exif_change.specs.Reading.{fields_read};
ghost use Rattle.exif_setting.specs.Setting.{assigned_behind, assigned_fields, field_for, field_here, is_assigned, known_type, occurs_again, set_as, set_file, set_here, set_rest, sets_set, type_for, with_assigned, with_field};

use crate::growing::grown_file;
use crate::in_place::{Fitted, Sets, set_field, set_what_fits};
use exif::{Exif, Field, In, Tag};
use exif_assign::{Assignment, ValueError, type_of_new, value_of};
use exif_change::{Changed, Refusal, read};
use exif_containers::container::{Format, format_of};
use exif_edit_base::find::is_named;
use exif_types::FieldType;
use std::alloc::{AllocError, Global};

/// The file with values set. A value that fits is written over the old one; another one, or a new
/// field, is appended to the Exif data, in which no old byte moves: maker notes, previews and
/// thumbnails keep their offsets. Those of a HEIF file are then put behind the file. JPEG and WebP
/// files that have no Exif data get new ones; HEIF files without them are refused. Of two values of
/// one tag the last is set. A field that the file has keeps its type; one that it lacks has the
/// type of the standard.
///
/// Where more than one field of the file has a name, each of them is set, so that every program
/// reads the new value, whichever of the entries it takes. This is done in the data, as for a
/// longer value.
///
/// It takes the memory of the file, of the new one, and of what
/// [`set_fields`](exif_grow::set_fields) takes.
pub fn set(alloc: Global, file: Vec<u8>, assignments: &[Assignment<'_>]) -> Result<Changed, Refusal>
    ensures { Answers change_of result (set_file assignments.now file.items) }
{
    match format_of(file.as_slice()) {
        Some(format) => set_as(alloc, format, assignments, file),
        None => Err(Refusal::UnknownFormat),
    }
}

// The file of a format with values set.
fn set_as(
    alloc: Global,
    format: Format,
    assignments: &[Assignment<'_>],
    file: Vec<u8>,
) -> Result<Changed, Refusal>
    ensures { Answers change_of result (set_as format assignments.now file.items) }
{
    let sets = assigned_fields(alloc, &file, assignments)?;
    set_sets(alloc, format, sets, file)
}

/// The file of a format with fields set: in place where they fit, and else in its data.
pub(crate) fn set_sets(
    alloc: Global,
    format: Format,
    sets: Sets,
    file: Vec<u8>,
) -> Result<Changed, Refusal>
    ensures { Answers change_of result (sets_set format (sets_of sets) file.items) }
{
    let fitted = set_what_fits(alloc, file, sets)?;
    set_rest(alloc, format, fitted)
}

// The file with the fields set that were left over.
fn set_rest(alloc: Global, format: Format, fitted: Fitted) -> Result<Changed, Refusal>
    ensures { Answers change_of result
        (set_rest format (fitted.file.items, fitted.left.items)) }
{
    if fitted.left.is_empty() {
        return Ok(Changed::whole(alloc, fitted.file));
    }
    grown_file(
        alloc,
        format,
        fitted.left.as_slice(),
        fitted.file.as_slice(),
    )
}

/// Sets one field of the primary image of a file in place: the file keeps its length. Of two fields
/// of its name the last is set, as [`shift`](crate::shift) does; [`set`] sets both. After a refusal
/// the file is as it was.
pub fn set_here(alloc: Global, file: &mut [u8], assignment: &Assignment<'_>) -> Result<(), Refusal>
    ensures { Changes result file.old file.new (set_here (parts_of assignment.now) file.old) }
{
    let field = field_here(alloc, file, assignment)?;
    match set_field(alloc, file, field) {
        Ok(()) => Ok(()),
        Err(error) => Err(Refusal::Editing(error)),
    }
}

// The field that is to be set in a file that has Exif data.
fn field_here(alloc: Global, file: &[u8], assignment: &Assignment<'_>) -> Result<Field, Refusal>
    ensures { Answers (λ field. field) result (field_here (parts_of assignment.now) file.now) }
{
    match read(alloc, file) {
        Ok(exif) => field_for(alloc, Some(&exif), assignment),
        Err(error) => Err(Refusal::Reading(error)),
    }
}

// The fields that are to be set in a file, of those of one tag the last.
fn assigned_fields(
    alloc: Global,
    file: &[u8],
    assignments: &[Assignment<'_>],
) -> Result<Sets, Refusal>
    ensures { Answers sets_of result (assigned_fields file.now assignments.now) }
{
    match read(alloc, file) {
        Ok(exif) => assigned(alloc, Some(&exif), assignments),
        Err(exif::Error::NotFound(_)) => assigned(alloc, None, assignments),
        Err(error) => Err(Refusal::Reading(error)),
    }
}

/// The fields that are to be set in a file where these were read, of those of one tag the last: for
/// callers that know where a file has its Exif data.
pub fn assigned(
    alloc: Global,
    exif: Option<&Exif>,
    assignments: &[Assignment<'_>],
) -> Result<Sets, Refusal>
    ensures { Answers sets_of result
        (assigned_behind (fields_read exif.entry) assignments.now ([], [])) }
{
    let mut sets = Sets {
        single: Vec::new(alloc),
        repeated: Vec::new(alloc),
    };
    for index in 0..assignments.len() {
        let later = &assignments[index + 1..];
        add_assigned(alloc, exif, &assignments[index], later, &mut sets)?;
    }
    Ok(sets)
}

// Adds the field of an assignment, unless a later one has its tag.
fn add_assigned(
    alloc: Global,
    exif: Option<&Exif>,
    assignment: &Assignment<'_>,
    later: &[Assignment<'_>],
    sets: &mut Sets,
) -> Result<(), Refusal>
    ensures { Answers (λ done. sets_of sets.new) result
        (with_assigned (fields_read exif.entry) assignment.now later.now (sets_of sets.old)) }
{
    if is_assigned(later, assignment.tag) {
        return Ok(());
    }
    let field = field_for(alloc, exif, assignment)?;
    add_field(exif, field, sets)?;
    Ok(())
}

/// Adds a field to those that are set in place, or in the data if its name occurs more than once.
pub(crate) fn add_field(
    exif: Option<&Exif>,
    field: Field,
    sets: &mut Sets,
) -> Result<(), AllocError>
    ensures { OnOk result
        (sets_of sets.new ≡ with_field (fields_read exif.entry) field (sets_of sets.old)) }
{
    if is_repeated(exif, field.tag) {
        sets.repeated.push(field)?;
    } else {
        sets.single.push(field)?;
    }
    Ok(())
}

// Whether a file has more than one field of a tag.
fn is_repeated(exif: Option<&Exif>, tag: Tag) -> bool
    ensures { result ≡ occurs_again tag false (fields_read exif.entry) }
{
    match exif {
        Some(exif) => occurs_again(exif, tag),
        None => false,
    }
}

// Whether more than one field of a tag was read.
fn occurs_again(exif: &Exif, tag: Tag) -> bool
    ensures { result ≡ occurs_again tag false exif.now.fields }
{
    let mut seen = false;
    for field in exif.fields() {
        if is_named(field, tag, In::PRIMARY) {
            if seen {
                return true;
            }
            seen = true;
        }
    }
    false
}

// Whether a value is assigned to a tag.
fn is_assigned(assignments: &[Assignment<'_>], tag: Tag) -> bool
    ensures { result ≡ is_assigned assignments.now tag }
{
    assignments.iter().any(|other| tag == other.tag)
}

// The type that a field has in a file, or that a new one has.
fn type_for(exif: Option<&Exif>, tag: Tag) -> Option<FieldType>
    ensures { result ≡ type_for (fields_read exif.entry) tag }
{
    match known_type(exif, tag) {
        Some(field_type) => Some(field_type),
        None => type_of_new(tag),
    }
}

// The type that a field has in a file.
fn known_type(exif: Option<&Exif>, tag: Tag) -> Option<FieldType>
    ensures { result ≡ known_type (fields_read exif.entry) tag }
{
    let field = exif?.get_field(tag, In::PRIMARY)?;
    field.value.field_type()
}

// The field that is to be set.
fn field_for(
    alloc: Global,
    exif: Option<&Exif>,
    assignment: &Assignment<'_>,
) -> Result<Field, Refusal>
    ensures { Answers (λ field. field) result
        (field_for (fields_read exif.entry) (parts_of assignment.now)) }
{
    let tag = assignment.tag;
    let Some(field_type) = type_for(exif, tag) else {
        return Err(Refusal::FieldNotFound);
    };
    match value_of(alloc, tag, field_type, assignment.text) {
        Ok(value) => Ok(Field {
            tag,
            ifd_num: In::PRIMARY,
            value,
        }),
        Err(ValueError::NotOfItsType) => Err(Refusal::NotOfItsType(tag)),
        Err(ValueError::OutOfRange) => Err(Refusal::OutOfRange(tag)),
        Err(ValueError::OutOfMemory) => Err(Refusal::OutOfMemory),
    }
}

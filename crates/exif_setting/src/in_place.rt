//! Fields set in a file in place.

ghost use Rattle.std.specs.Prelude.{◌≡◌, []};
ghost use Rattle.exif_edit_base.specs.Causes.{Edits};
ghost use Rattle.exif_setting.specs.InPlace.{error_needs_space, field_set, fit_one, fitted_of, fitting_set, listed, set_by, setting};
ghost use Rattle.exif_change.specs.Refusals.{Answers, as_edited};

use exif::Field;
use exif_change::{ENTRY_LIMIT, Refusal};
use exif_edit::{Edit, Error, apply_in_file};
use std::alloc::Global;

/// Sets a field in place. After an error the file is as it was.
pub(crate) fn set_field(alloc: Global, file: &mut [u8], field: Field) -> Result<(), Error>
    ensures { Edits result file.old file.new (field_set field file.old) }
{
    apply_in_file(alloc, &setting(field), Some(ENTRY_LIMIT), file)
}

// The edit that sets a field.
fn setting(field: Field) -> Edit
    ensures { result ≡ setting field }
{
    Edit::Set {
        tag: field.tag,
        ifd_num: field.ifd_num,
        value: field.value,
    }
}

// The field that an edit sets.
fn set_by(edit: Edit) -> Option<Field>
    ensures { result ≡ set_by edit }
{
    match edit {
        Edit::Set {
            tag,
            ifd_num,
            value,
        } => Some(Field {
            tag,
            ifd_num,
            value,
        }),
        Edit::EraseGps | Edit::EraseField { .. } | Edit::EraseAll => None,
    }
}

/// Fields that are to be set in a file.
#[derive(Drop)]
pub struct Sets {
    /// Those that are set in place, if they fit.
    pub single: Vec<Field>,
    /// Those whose name more than one field of the file has: they are set in the data.
    pub repeated: Vec<Field>,
}

/// A file in which fields were set, and those that were left over.
#[derive(Drop)]
pub(crate) struct Fitted {
    /// The file, as long as it was.
    pub file: Vec<u8>,
    /// What was left over.
    pub left: Vec<Field>,
}

/// Sets those fields that can be set in place, and leaves over those that need space or have a name
/// that occurs more than once.
pub(crate) fn set_what_fits(alloc: Global, mut file: Vec<u8>, sets: Sets) -> Result<Fitted, Refusal>
    ensures { Answers fitted_of result
        (as_edited (fitting_set sets.single.items (file.items, sets.repeated.items))) }
{
    let left = set_or_leave(alloc, file.as_mut_slice(), sets.single, sets.repeated)?;
    Ok(Fitted { file, left })
}

// Sets the fields that fit, and answers the others behind those that are left over already.
fn set_or_leave(
    alloc: Global,
    file: &mut [u8],
    fields: Vec<Field>,
    mut left: Vec<Field>,
) -> Result<Vec<Field>, Refusal>
    ensures { Answers (λ left. (file.new, left.items)) result
        (as_edited (fitting_set fields.items (file.old, left.items))) }
{
    for field in fields {
        fit_one(alloc, file, field, &mut left)?;
    }
    Ok(left)
}

// Sets a field in place, or adds it to those that are left over, if it needs space.
fn fit_one(
    alloc: Global,
    file: &mut [u8],
    field: Field,
    left: &mut Vec<Field>,
) -> Result<(), Refusal>
    ensures { Answers (λ done. (file.new, left.new.items)) result
        (as_edited (fit_one field (file.old, left.old.items))) }
{
    if let Some(field) = set_in_place(alloc, file, field)? {
        left.push(field)?;
    }
    Ok(())
}

// Sets a field in place. Answers the field if it needs space.
fn set_in_place(alloc: Global, file: &mut [u8], field: Field) -> Result<Option<Field>, Refusal>
    ensures { Answers (λ left. (file.new, listed left)) result
        (as_edited (fit_one field (file.old, []))) }
{
    let edit = setting(field);
    match apply_in_file(alloc, &edit, Some(ENTRY_LIMIT), file) {
        Ok(()) => Ok(None),
        Err(error) if needs_space(&error) => Ok(set_by(edit)),
        Err(error) => Err(Refusal::Editing(error)),
    }
}

// Whether longer Exif data would do what an edit in place refuses.
fn needs_space(error: &Error) -> bool
    ensures { result ≡ error_needs_space error.now }
{
    matches!(
        error,
        Error::FieldNotFound
            | Error::ValueTooLong
            | Error::SharedBytes
            | Error::Container(exif::Error::NotFound(_))
    )
}

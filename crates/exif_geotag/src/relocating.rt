//! A picture that gets another location.

ghost use Rattle.std.specs.Prelude.{◌≡◌, ◌+◌, length, IfOk, OnOk};
ghost use Rattle.exif_change.specs.Refusals.{Answers};
ghost use Rattle.exif_geotag.specs.Relocating.{IsRelocated, relocated, relocation_of, undone_in};

use crate::erasing::erase_all;
use exif_change::{Changed, Note, Refusal, Residual};
use exif_files::{Edit, EditError, Edited, Report};
use exif_setting::set_fields;
use exif_types::{Field, Tag};
use std::alloc::{AllocError, Global};
use std::fmt;

/// A picture with another location, and what was left undone in it.
#[derive(Drop)]
pub struct Relocated {
    /// The new bytes.
    pub file: Vec<u8>,
    /// What was left undone of the fields.
    pub left: Vec<Residual>,
    /// The fields of the old location that stay.
    pub kept: Vec<Tag>,
}

/// The picture with fields set, as [`set_fields`] does, and then without fields of its old
/// location. Of those each is taken out that can be with no other byte changed.
pub fn relocate(
    alloc: Global,
    file: Vec<u8>,
    fields: &[Field],
    stale: &[Tag],
) -> Result<Relocated, Refusal>
    ensures { Answers relocation_of result (relocated fields.now stale.now file.items) }
{
    let Changed { mut file, left } = set_fields(alloc, file, fields)?;
    let kept = erase_all(alloc, stale, file.as_mut_slice())?;
    Ok(Relocated { file, left, kept })
}

/// Another location for pictures, as an edit of files.
#[derive(Clone, Copy)]
pub struct Relocation<'f> {
    /// The fields of the location, and of its time.
    pub fields: &'f [Field],
    /// The fields of the old location.
    pub stale: &'f [Tag],
}

/// What was left undone where a picture gets another location.
#[derive(Debug, Drop)]
pub enum Unfinished {
    /// Some of the change.
    Change(Residual),
    /// A field of the old location stays.
    Old(Tag),
}

impl fmt::Display for Unfinished {
    ghost use Rattle.exif_geotag.specs.UnfinishedTexts.{unfinished_text};

    ghost output = { unfinished_text };

    fn fmt<W: fmt::Write>(&self, f: &mut fmt::Formatter<W>) -> fmt::Result {
        match self {
            Unfinished::Change(left) => write!(f, "{left}"),
            Unfinished::Old(tag) => {
                write!(
                    f,
                    "{tag} is of the old location, and stays: it cannot be taken out"
                )
            }
        }
    }
}

// Adds what was left undone of the fields.
fn add_changes(left: Vec<Residual>, all: &mut Vec<Unfinished>) -> Result<(), AllocError>
    ensures { OnOk result (length all.new.items ≡ length all.old.items + length left.items) }
{
    for left in left {
        all.push(Unfinished::Change(left))?;
    }
    Ok(())
}

// Adds the old fields that stay.
fn add_old(kept: &[Tag], all: &mut Vec<Unfinished>) -> Result<(), AllocError>
    ensures { OnOk result (length all.new.items ≡ length all.old.items + length kept.now) }
{
    for tag in kept {
        all.push(Unfinished::Old(*tag))?;
    }
    Ok(())
}

// The bytes of an edit, and its report.
fn edited(alloc: Global, made: Relocated) -> Result<Edited<Unfinished, Note>, AllocError>
    ensures file { IfOk result (λ edited. edited.file.items ≡ made.file.items) }
    ensures left { IfOk result (λ edited. length edited.report.left.items
        ≡ length made.left.items + length made.kept.items) }
{
    let Relocated { file, left, kept } = made;
    let mut all = Vec::new(alloc);
    add_changes(left, &mut all)?;
    add_old(kept.as_slice(), &mut all)?;
    let notes = Vec::new(alloc);
    let report = Report { left: all, notes };
    Ok(Edited { file, report })
}

impl<'f> Edit for Relocation<'f> {
    type Residual = Unfinished;

    type Note = Note;

    type Refusal = Refusal;

    ghost answer = { λ edit. IsRelocated edit.fields.now edit.stale.now };

    ghost undone = { λ edit. undone_in edit.fields.now edit.stale.now };

    fn apply(
        &self,
        alloc: Global,
        old: &[u8],
    ) -> Result<Edited<Unfinished, Note>, EditError<Refusal>> {
        let Ok(file) = Vec::from_slice(alloc, old) else {
            return Err(EditError::OutOfMemory);
        };
        match relocate(alloc, file, self.fields, self.stale) {
            Ok(relocated) => match edited(alloc, relocated) {
                Ok(edited) => Ok(edited),
                Err(_memory) => Err(EditError::OutOfMemory),
            },
            Err(Refusal::OutOfMemory) => Err(EditError::OutOfMemory),
            Err(refusal) => Err(EditError::Refused(refusal)),
        }
    }
}

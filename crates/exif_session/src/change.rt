//! What is done to one file, in memory.

ghost use Rattle.std.specs.Prelude.{◌≡◌, IfOk};
ghost use Rattle.exif_change.specs.Changed.{change_of};
ghost use Rattle.exif_change.specs.Refusals.{Answers};
ghost use Rattle.exif_session.specs.Answers.{IsAnswerOf, answer_of, notes_of, undone_in};

use crate::request::Change;
use exif_change::{Changed, Color, Note, Refusal, Residual, scrub, scrub_notes, scrub_with_color};
use exif_copy::copy_selected;
use exif_files::{Edit, EditError, Edited, Report};
use exif_setting::{set, shift};
use std::alloc::{AllocError, Global};

/// The changed file, and what was left undone in it.
pub fn change_bytes(alloc: Global, change: &Change<'_>, old: &[u8]) -> Result<Changed, Refusal>
    ensures { Answers change_of result (answer_of change.now old.now) }
{
    let file = Vec::from_slice(alloc, old)?;
    match change {
        Change::Scrub(removed, Color::Keep) => scrub(alloc, file, *removed),
        Change::Scrub(removed, Color::Strip) => scrub_with_color(alloc, file, *removed),
        Change::Shift(by, dates) => shift(alloc, file, *by, *dates),
        Change::Set(values) => set(alloc, file, values.as_slice()),
        Change::Copy(from, selection) => {
            drop(file);
            copy_selected(alloc, from.as_slice(), old, *selection)
        }
    }
}

/// What the user is to know of a change of these bytes.
pub fn notes_of(alloc: Global, change: &Change<'_>, old: &[u8]) -> Result<Vec<Note>, AllocError>
    ensures { IfOk result (λ notes. notes.items ≡ notes_of change.now old.now) }
{
    match change {
        Change::Scrub(removed, color) => scrub_notes(alloc, old, *removed, *color),
        Change::Set(_) | Change::Shift(_, _) | Change::Copy(_, _) => Ok(Vec::new(alloc)),
    }
}

/// A change as an edit of files.
#[derive(Clone, Copy)]
pub struct ChangeEdit<'c, 'a>(pub &'c Change<'a>);

impl<'c, 'a> Edit for ChangeEdit<'c, 'a> {
    type Residual = Residual;

    type Note = Note;

    type Refusal = Refusal;

    ghost answer = { λ edit. IsAnswerOf edit.0.now };

    ghost undone = { λ edit. undone_in edit.0.now };

    fn apply(
        &self,
        alloc: Global,
        old: &[u8],
    ) -> Result<Edited<Residual, Note>, EditError<Refusal>> {
        let Ok(notes) = notes_of(alloc, self.0, old) else {
            return Err(EditError::OutOfMemory);
        };
        match change_bytes(alloc, self.0, old) {
            Ok(Changed { file, left }) => Ok(Edited {
                file,
                report: Report { left, notes },
            }),
            Err(Refusal::OutOfMemory) => Err(EditError::OutOfMemory),
            Err(refusal) => Err(EditError::Refused(refusal)),
        }
    }
}

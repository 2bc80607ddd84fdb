//! The new name of a picture, by what its fields say.

ghost use Rattle.std.specs.Prelude.{◌≡◌, Err, IfErr, IfOk, is_ok, true};
ghost use Rattle.exif_rename.specs.Views.{ok_as};
ghost use Rattle.exif_inputs.specs.Naming.{name_by, new_name_of};
ghost use Rattle.exif_rename_commands.specs.Names.{fields_of};

use exif::{Error, Exif};
use exif_decisions::name_of;
use exif_inputs::{NewName, exif_if_any, name_by};
use exif_rename::{Missing, split_path};
use exif_session::Renaming;
use std::alloc::{AllocError, Global};

/// The new name of a file by a pattern and its date, or what it lacks; or why it can't be read.
pub fn new_name(
    rt: &HostRuntime,
    renaming: &Renaming<'_>,
    path: &str,
) -> Result<Result<Result<NewName, Missing>, Error>, AllocError> {
    let (stem, _) = split_path(name_of(path));
    name_read(rt.alloc(), renaming, exif_if_any(rt, path), stem)
}

// The same of a picture of which this was read: `stem` is its old name without its ending.
fn name_read(
    alloc: Global,
    renaming: &Renaming<'_>,
    read: Result<Option<Exif>, Error>,
    stem: &str,
) -> Result<Result<Result<NewName, Missing>, Error>, AllocError>
    ensures name { IfOk read.entry (λ exif. IfOk result (λ named. IfOk named (λ name.
        ok_as new_name_of name ≡ name_by renaming.now.pattern.parts.items renaming.now.date
        (fields_of exif) stem.now))) }
    ensures named { IfOk read.entry (λ exif. IfOk result (λ named. is_ok named ≡ true)) }
    ensures unread { IfErr read.entry (λ e. IfOk result (λ named. named ≡ Err e)) }
{
    match read {
        Ok(exif) => {
            let (pattern, date) = (&renaming.pattern, renaming.date);
            Ok(Ok(name_by(alloc, pattern, date, exif.as_ref(), stem)?))
        }
        Err(error) => Ok(Err(error)),
    }
}

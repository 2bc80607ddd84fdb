//! The files of a run of `rename`, and what becomes of those that get no new name.

ghost use Rattle.std.specs.Prelude.{◌≡◌};
ghost use Rattle.exif_rename_commands.specs.Members.{is_sidecar, is_there_said, left_as, looks_there, there_outcome};

use exif_decisions::{Found, NotRead, Outcome, ending_of, name_of};

/// What a file is to the plan.
#[derive(Clone, Copy)]
pub enum Kind {
    /// A picture, whose fields give the new name.
    Picture,
    /// A file that was found in a folder, and goes with the pictures of its stem.
    Beside(NotRead),
    /// A sidecar that is there, of a picture that was named.
    Sidecar,
}

/// Whether a file is a sidecar.
pub fn is_sidecar(kind: Kind) -> bool
    ensures { result ≡ is_sidecar kind }
{
    matches!(kind, Kind::Sidecar | Kind::Beside(NotRead::Sidecar(_)))
}

/// What becomes of a file of a stem that gets no new name.
#[derive(Clone, Copy)]
pub enum Leaving {
    /// Why it has none is reported.
    Report,
    /// It is skipped.
    Skip(Found),
    /// Nothing is said of it.
    Pass,
}

/// What becomes of a file of a stem that gets no new name: pictures are reported, and what goes
/// with pictures is skipped as if it had been found alone.
pub fn left_as(kind: Kind, path: &str) -> Leaving
    ensures { result ≡ left_as kind path.now }
{
    match kind {
        Kind::Picture => Leaving::Report,
        Kind::Beside(why) => Leaving::Skip(Found::NotRead(why)),
        Kind::Sidecar => match ending_of(name_of(path)) {
            Some(ending) => Leaving::Skip(Found::NotRead(NotRead::Sidecar(ending))),
            None => Leaving::Pass,
        },
    }
}

/// Whether files are looked for that have the bytes by a new name already: where all are copied, or
/// another folder is given.
pub fn looks_there(copy: bool, has_folder: bool) -> bool
    ensures { result ≡ looks_there copy has_folder }
{
    copy || has_folder
}

/// Whether it is reported that files are there already: always where they were to be moved, since
/// they stay.
pub fn is_there_said(copy: bool, quiet: bool) -> bool
    ensures { result ≡ is_there_said copy quiet }
{
    !copy || !quiet
}

/// What became of files that are there already: all is done where they were to be copied and none
/// of their sidecars differs.
pub fn there_outcome(copy: bool, differs: bool) -> Outcome
    ensures { result ≡ there_outcome copy differs }
{
    if copy && !differs {
        Outcome::Current
    } else {
        Outcome::Unchanged
    }
}

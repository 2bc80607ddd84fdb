//! Temporary files that were found.

ghost use Rattle.std.specs.Prelude.{◌≡◌, Some};
ghost use Rattle.exif_decisions.specs.Temporary.{fate_for, fate_text};

use std::fmt;

/// What became of a temporary file that was found.
#[derive(Clone, Copy, PartialEq, Eq)]
pub enum Fate {
    /// Nothing: this run changes no files.
    Left,
    /// It was removed.
    Removed,
    /// It stays: another run writes it.
    InUse,
}

/// What became of a temporary file that was found, by whether a run that changes files removed it;
/// `None` is a run that changes none.
pub fn fate_of(removed: Option<bool>) -> Fate
    ensures { result ≡ fate_for removed }
{
    match removed {
        None => Fate::Left,
        Some(true) => Fate::Removed,
        Some(false) => Fate::InUse,
    }
}

impl fmt::Display for Fate {
    ghost output = { λ fate. Some (fate_text fate) };

    fn fmt<W: fmt::Write>(&self, f: &mut fmt::Formatter<W>) -> fmt::Result {
        f.write_str(match self {
            Fate::Left => "a temporary file; a run that changes files removes it",
            Fate::Removed => "a temporary file of an interrupted run; it was removed",
            Fate::InUse => "a temporary file of another run; it stays",
        })
    }
}

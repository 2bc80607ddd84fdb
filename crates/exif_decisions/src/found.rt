//! What is done with a file that was found in a folder.

ghost use Rattle.std.specs.Prelude.{◌≡◌, Some};
ghost use Rattle.exif_decisions.specs.Found.{class_for, class_by_ending, is_named_by, not_read_text, reported_of, step_for};

use crate::endings::Ending;
use crate::formats::Unsupported;
use std::fmt;

/// What is done with a file that was found in a folder.
#[derive(Clone, Copy, PartialEq, Eq)]
pub enum Found {
    /// It is processed.
    Picture,
    /// It is not processed, which is reported.
    NotRead(NotRead),
    /// It is not processed: its name has no ending of a picture, and its bytes begin none.
    Other,
}

/// Why a picture, a video, a document or a sidecar in a folder is not processed.
#[derive(Clone, Copy, PartialEq, Eq)]
pub enum NotRead {
    /// Its format is known, and not read.
    Format(Unsupported),
    /// It is named as a picture of this format, and has other bytes.
    Damaged(Ending),
    /// It is named as a picture or a video, and has no bytes.
    Empty(Ending),
    /// It is named as a file beside a picture.
    Sidecar(Ending),
}

impl NotRead {
    /// Whether such a file is named in a message of its own; sidecars are only counted.
    pub fn is_named(self) -> bool
        ensures { result ≡ is_named_by self }
    {
        match self {
            NotRead::Format(_) | NotRead::Damaged(_) | NotRead::Empty(_) => true,
            NotRead::Sidecar(_) => false,
        }
    }
}

/// What comes next of a file that was found in a folder.
#[derive(Clone, Copy, PartialEq, Eq)]
pub enum FoundStep {
    /// It is processed if it is chosen.
    Choose,
    /// It is not read, but goes with the pictures beside it.
    Beside(NotRead),
    /// It is skipped.
    Skip,
}

impl Found {
    /// What comes next, by whether files that are not read go with the pictures beside them.
    pub fn step(self, moves_companions: bool) -> FoundStep
        ensures { result ≡ step_for self moves_companions }
    {
        match self {
            Found::Picture => FoundStep::Choose,
            Found::NotRead(why) if moves_companions => FoundStep::Beside(why),
            Found::NotRead(_) | Found::Other => FoundStep::Skip,
        }
    }

    /// What is reported of it where it is skipped, if something is.
    pub fn reported(self) -> Option<NotRead>
        ensures { result ≡ reported_of self }
    {
        match self {
            Found::NotRead(why) if why.is_named() => Some(why),
            _ => None,
        }
    }
}

impl fmt::Display for NotRead {
    ghost output = { λ why. Some (not_read_text why) };

    fn fmt<W: fmt::Write>(&self, f: &mut fmt::Formatter<W>) -> fmt::Result {
        match *self {
            NotRead::Format(format) => {
                let name = format.name();
                write!(f, "not read: {name}")
            }
            NotRead::Damaged(ending) => {
                let name = ending.name();
                write!(f, "damaged: no known signature of a {name} file")
            }
            NotRead::Empty(_) => f.write_str("not read: the file is empty"),
            NotRead::Sidecar(ending) => {
                let name = ending.name();
                write!(f, "not read: {name} sidecar")
            }
        }
    }
}

/// What is done with a file that was found in a folder: whether its signature is that of a picture
/// that is read, whether it is empty, another format that its signature shows, and the ending of
/// its name. The signature decides before the ending.
pub fn found_of(
    is_read: bool,
    is_empty: bool,
    format: Option<Unsupported>,
    ending: Option<Ending>,
) -> Found
    ensures { result ≡ class_for is_read is_empty format ending }
{
    if is_read {
        return Found::Picture;
    }
    if let Some(format) = format {
        return Found::NotRead(NotRead::Format(format));
    }
    match ending {
        Some(ending) => Found::NotRead(why_not_read(is_empty, ending)),
        None => Found::Other,
    }
}

// Why a file with an ending, but without a signature that is known, is not read.
fn why_not_read(is_empty: bool, ending: Ending) -> NotRead
    ensures { result ≡ class_by_ending is_empty ending }
{
    match ending {
        Ending::Xmp | Ending::Aae | Ending::Thm => NotRead::Sidecar(ending),
        _ if is_empty => NotRead::Empty(ending),
        Ending::Svg => NotRead::Format(Unsupported::Svg),
        Ending::Video => NotRead::Format(Unsupported::Video),
        _ => NotRead::Damaged(ending),
    }
}

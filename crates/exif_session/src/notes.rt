//! Notes on a change, in words.

ghost use Rattle.std.specs.Prelude.{◌≡◌, Some};
ghost use Rattle.exif_session.specs.Words.{note_text, said_notes};

use exif_change::Note;
use std::fmt;

/// The notes that are written: none in a quiet run.
pub(crate) fn said_notes(is_quiet: bool, notes: &[Note]) -> &[Note]
    ensures { result.now ≡ said_notes is_quiet notes.now }
{
    if is_quiet { &[] } else { notes }
}

/// What the user is to know of a change, as a line.
#[derive(Clone, Copy)]
pub struct NoteLine(pub Note);

impl fmt::Display for NoteLine {
    ghost output = { λ line. Some (note_text line.0) };

    fn fmt<W: fmt::Write>(&self, f: &mut fmt::Formatter<W>) -> fmt::Result {
        match self.0 {
            Note::ColorProfile => {
                f.write_str("the colour profile stays; --strip-color removes it")
            }
            Note::FormatProfile => {
                f.write_str("the colour profile stays: files of this format keep it")
            }
            Note::Pictures(1) => f.write_str("the picture behind the first one was removed"),
            Note::Pictures(count) => {
                write!(f, "{count} pictures behind the first one were removed")
            }
            Note::Orientation => f.write_str(
                "its orientation is removed, so it may lie on its side; --keep-orientation keeps it",
            ),
            Note::OwnRotation => f.write_str(
                "the rotation that is stored with the picture stays; the orientation of Exif does not",
            ),
        }
    }
}

//! What a change makes of a file.

ghost use Rattle.std.specs.Prelude.{◌≡◌};
ghost use Rattle.exif_change.specs.Changed.{change_of, whole};

use exif::Tag;
use exif_datetime::Unmoved;
use exif_inventory::Part;
use exif_privacy::Remaining;
use std::alloc::Global;
use std::fmt;

/// A changed file, and what was left undone in it.
#[derive(Drop)]
pub struct Changed {
    /// The new bytes.
    pub file: Vec<u8>,
    /// What a program is to report: nothing where all was done.
    pub left: Vec<Residual>,
}

impl Changed {
    /// A file of which nothing was left undone.
    pub fn whole(alloc: Global, file: Vec<u8>) -> Changed
        ensures { change_of result ≡ whole file.items }
    {
        Changed {
            file,
            left: Vec::new(alloc),
        }
    }
}

/// What was left undone in a changed file.
#[derive(Debug, Drop)]
pub enum Residual {
    /// A date that is not moved.
    Date(Tag, Unmoved),
    /// A date that is not set, since its edit was refused.
    Edit(Tag, exif_edit::Error),
    /// The file is cut off: it ends before its picture does, or in the middle of a box. It was
    /// changed as far as it goes.
    CutOff,
    /// A part of the file may still hold a location.
    Remaining(Remaining),
    /// A part of the file may still hold metadata.
    Part(Part),
    /// The colour profile, which was to be removed, stays: the file's format keeps it.
    Color,
    /// The file has XMP or IPTC data, the dates of which stay.
    OtherDates,
}

impl fmt::Display for Residual {
    ghost use Rattle.exif_change.specs.Texts.{left_text};

    ghost output = { left_text };

    fn fmt<W: fmt::Write>(&self, f: &mut fmt::Formatter<W>) -> fmt::Result {
        match self {
            Residual::Date(tag, Unmoved::Blank) => write!(f, "{tag} is blank and was not moved"),
            Residual::Date(tag, Unmoved::Invalid) => {
                write!(f, "{tag} is not a date of the calendar and was not moved")
            }
            Residual::Date(tag, Unmoved::OutOfRange) => {
                write!(f, "{tag} would leave the years 0 to 9999 and was not moved")
            }
            Residual::Edit(tag, cause) => write!(f, "{tag} was not moved: {cause}"),
            Residual::CutOff => write!(f, "The file is cut off"),
            Residual::Remaining(stays) if stays.why.can_be_blanked() => {
                write!(f, "{stays}; --force-blank blanks it")
            }
            Residual::Remaining(stays) => write!(f, "{stays}"),
            Residual::Part(part) => {
                let (kind, offset) = (part.kind, part.offset);
                write!(
                    f,
                    "still there: {kind} at offset {offset}, which may hold metadata"
                )
            }
            Residual::Color => write!(f, "the colour profile stays in files of this format"),
            Residual::OtherDates => f.write_str("dates in its XMP or IPTC data are not changed"),
        }
    }
}

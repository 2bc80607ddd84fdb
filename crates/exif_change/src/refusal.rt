//! Why a file is not changed.

ghost use Rattle.std.specs.Prelude.{◌≡◌};
ghost use Rattle.exif_change.specs.declared.refusal.Refusal.TheVariants.{Editing, OutOfMemory, Reading};

use exif::Tag;
use exif_scrub::heif::Fault as HeifFault;
use exif_scrub::tiff::Fault;
use std::alloc::{AllocError, AllocFailed};
use std::fmt;

/// Why a file is not changed.
#[derive(Debug, Drop)]
pub enum Refusal {
    /// The file is none that is read, or its Exif data are refused.
    Reading(exif::Error),
    /// The edit is refused.
    Editing(exif_edit::Error),
    /// The file is neither TIFF, JPEG, HEIF nor WebP.
    UnknownFormat,
    /// The metadata of a TIFF file can't be taken out: its picture can't be told apart.
    Tiff(Fault),
    /// A HEIF file would be read otherwise without its metadata.
    Heif(HeifFault),
    /// The file has more than one block of Exif data, and only one would be left.
    SecondExif,
    /// The file has no space for Exif data with the value of this tag.
    TooLong(Tag),
    /// The file has no such field, and the standard's type of it is not known here.
    FieldNotFound,
    /// The text is no value of the type that the field of this tag has.
    NotOfItsType(Tag),
    /// The standard does not have this value for the tag.
    OutOfRange(Tag),
    /// There is no date in the file.
    NoDate,
    /// The file has no thumbnail.
    NoThumbnail,
    /// There was no memory.
    OutOfMemory,
}

impl From<AllocError> for Refusal {
    ghost from_gives = { λ _ r. r ≡ OutOfMemory };

    fn from(_e: AllocError) -> Refusal {
        Refusal::OutOfMemory
    }
}

impl<T: Drop> From<AllocFailed<T>> for Refusal {
    ghost from_gives = { λ _ r. r ≡ OutOfMemory };

    fn from(_e: AllocFailed<T>) -> Refusal {
        Refusal::OutOfMemory
    }
}

impl From<exif::Error> for Refusal {
    ghost from_gives = { λ e r. r ≡ Reading e };

    fn from(e: exif::Error) -> Refusal {
        Refusal::Reading(e)
    }
}

impl From<exif_edit::Error> for Refusal {
    ghost from_gives = { λ e r. r ≡ Editing e };

    fn from(e: exif_edit::Error) -> Refusal {
        Refusal::Editing(e)
    }
}

impl fmt::Display for Refusal {
    ghost use Rattle.exif_change.specs.Texts.{refusal_text};

    ghost output = { refusal_text };

    fn fmt<W: fmt::Write>(&self, f: &mut fmt::Formatter<W>) -> fmt::Result {
        match self {
            Refusal::Reading(cause) => write!(f, "{cause}"),
            Refusal::Editing(cause) => write!(f, "{cause}"),
            Refusal::UnknownFormat => write!(f, "Unknown image format"),
            Refusal::Tiff(fault) => write!(f, "{fault}"),
            Refusal::Heif(fault) => write!(f, "{fault}"),
            Refusal::SecondExif => {
                write!(
                    f,
                    "The file has more than one block of Exif data, and only one would be left"
                )
            }
            Refusal::TooLong(tag) => write!(
                f,
                "{tag} is too long: the Exif data of a JPEG file have at most 65,527 bytes"
            ),
            Refusal::FieldNotFound => write!(f, "No such field, and it cannot be created"),
            Refusal::NotOfItsType(tag) => write!(f, "Invalid value for the type of {tag}"),
            Refusal::OutOfRange(tag) => write!(f, "{tag} cannot have this value"),
            Refusal::NoDate => write!(f, "No date to shift"),
            Refusal::NoThumbnail => write!(f, "No thumbnail"),
            Refusal::OutOfMemory => write!(f, "Out of memory"),
        }
    }
}

//! Why an edit is refused.

ghost use Rattle.std.specs.Prelude.{◌≡◌};
ghost use Rattle.exif_edit_base.specs.declared.error.Error.TheVariants.{OutOfMemory, Header};

use exif_tiff::Fault;
use exif_tiff::stop::Stop;
use std::alloc::{AllocError, AllocFailed};
use std::fmt;

/// Why an edit is refused. Nothing has changed then.
#[derive(Debug, Drop)]
pub enum Error {
    /// No field has this tag in this directory.
    FieldNotFound,
    /// There is no directory to put the field into, nor one that would point at it.
    NoDirectory,
    /// The directory has 65,535 entries, the most that its count can say.
    FullDirectory,
    /// The value is of a type that is not known.
    UnknownType,
    /// The value takes more bytes than there is space for it.
    ValueTooLong,
    /// The field holds offsets of other data, or how many: strips, tiles, thumbnails, child
    /// directories.
    NamesOffsets,
    /// Bytes of the field have another use, and what they are used for would change too.
    SharedBytes,
    /// The file is TIFF data, which hold the picture too.
    PictureData,
    /// Invalid header of the Exif data.
    Header(Fault),
    /// The file is refused by its container, or holds no Exif data.
    Container(exif_types::Error),
    /// There was no memory.
    OutOfMemory,
}

impl From<AllocError> for Error {
    ghost from_gives = { λ _ e. e ≡ OutOfMemory };

    fn from(_e: AllocError) -> Error {
        Error::OutOfMemory
    }
}

impl<T: Drop> From<AllocFailed<T>> for Error {
    ghost from_gives = { λ _ e. e ≡ OutOfMemory };

    fn from(_e: AllocFailed<T>) -> Error {
        Error::OutOfMemory
    }
}

impl From<Stop> for Error {
    ghost use Rattle.exif_edit_base.specs.Causes.{Becomes};

    ghost from_gives = { Becomes };

    fn from(stop: Stop) -> Error {
        match stop {
            Stop::OutOfMemory => Error::OutOfMemory,
            Stop::Fault(fault) => Error::Header(fault),
        }
    }
}

impl From<exif_types::Error> for Error {
    ghost use Rattle.exif_edit_base.specs.Causes.{Stops};

    ghost from_gives = { Stops };

    fn from(failure: exif_types::Error) -> Error {
        match failure {
            exif_types::Error::OutOfMemory => Error::OutOfMemory,
            other => Error::Container(other),
        }
    }
}

impl fmt::Display for Error {
    ghost use Rattle.exif_edit_base.specs.Causes.{error_text};

    ghost output = { error_text };

    fn fmt<W: fmt::Write>(&self, f: &mut fmt::Formatter<W>) -> fmt::Result {
        match self {
            Error::FieldNotFound => write!(f, "No such field"),
            Error::NoDirectory => write!(f, "No directory to put the field into"),
            Error::FullDirectory => write!(f, "The directory has no space for an entry"),
            Error::UnknownType => write!(f, "Cannot write unknown field types"),
            Error::ValueTooLong => write!(f, "The value is too long for its space"),
            Error::NamesOffsets => write!(f, "The field holds offsets of other data"),
            Error::SharedBytes => write!(f, "The bytes are shared with other data"),
            Error::PictureData => write!(f, "The picture is in the same data"),
            Error::Header(fault) => write!(f, "{}", fault.message()),
            Error::Container(error) => write!(f, "{error}"),
            Error::OutOfMemory => write!(f, "Out of memory"),
        }
    }
}

//! Why a file was not written.

ghost use Rattle.std.specs.Prelude.{◌≡◌, ◌≢◌};
ghost use Rattle.exif_files.specs.declared.failure.WriteError.TheVariants.{OutOfMemory, Taken, Crowded, OtherDevice};

use std::alloc::{AllocError, AllocFailed};
use std::{fmt, io};

/// Why a file was not written.
#[derive(Debug, Drop)]
pub enum WriteError {
    /// A call of the system failed.
    Io(io::Error),
    /// The name that the file is to have, or the old file is to be kept by, is taken.
    Taken,
    /// The name that the file is to have is on another device.
    OtherDevice,
    /// All names for a temporary file are taken.
    Crowded,
    /// Out of memory.
    OutOfMemory,
}

impl From<io::Error> for WriteError {
    ghost from_gives = { λ _ e. (e ≢ OutOfMemory) × (e ≢ Taken) × (e ≢ Crowded)
        × (e ≢ OtherDevice) };

    fn from(e: io::Error) -> WriteError {
        WriteError::Io(e)
    }
}

impl From<AllocError> for WriteError {
    ghost from_gives = { λ _ e. e ≡ OutOfMemory };

    fn from(_e: AllocError) -> WriteError {
        WriteError::OutOfMemory
    }
}

impl<T: Drop> From<AllocFailed<T>> for WriteError {
    ghost from_gives = { λ _ e. e ≡ OutOfMemory };

    fn from(_e: AllocFailed<T>) -> WriteError {
        WriteError::OutOfMemory
    }
}

impl fmt::Display for WriteError {
    ghost use Rattle.exif_files.specs.Texts.{error_text};

    ghost output = { error_text };

    fn fmt<W: fmt::Write>(&self, f: &mut fmt::Formatter<W>) -> fmt::Result {
        match self {
            WriteError::Io(cause) => write!(f, "{cause}"),
            WriteError::Taken => write!(f, "file exists"),
            WriteError::OtherDevice => write!(f, "its new name is on another device"),
            WriteError::Crowded => write!(
                f,
                "too many temporary files named .mexaldor-N; delete them"
            ),
            WriteError::OutOfMemory => write!(f, "out of memory"),
        }
    }
}

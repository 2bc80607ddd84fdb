//! Why groups of fields and blocks are not written.

ghost use Rattle.std.specs.Prelude.{◌≡◌};
ghost use Rattle.exif_layout.specs.WriteFaults.{write_text_of};

use exif_types::Error;

/// A cause for which nothing is written.
#[derive(Clone, Copy, Debug, PartialEq, Eq)]
pub enum WriteFault {
    /// There is no directory.
    NoDirectory,
    /// A directory of the chain has no entry.
    EmptyDirectory,
    /// A directory has more entries than its count can say.
    TooManyFields,
    /// A value's type is not known.
    UnknownType,
    /// The image is longer than 32-bit offsets reach.
    OffsetTooLarge,
}

impl WriteFault {
    /// The message of the cause.
    pub fn message(self) -> &'static str
        ensures { result.now ≡ write_text_of self }
    {
        match self {
            WriteFault::NoDirectory => "At least one IFD must exist",
            WriteFault::EmptyDirectory => "IFD must not be empty",
            WriteFault::TooManyFields => "Too many fields in an IFD",
            WriteFault::UnknownType => "Cannot write unknown field types",
            WriteFault::OffsetTooLarge => "Offset too large",
        }
    }
}

impl From<WriteFault> for Error {
    ghost use Rattle.std.specs.Prelude.{◌≡◌, Some};
    ghost use Rattle.exif_types.specs.Refusals.{refusal_of};
    ghost use Rattle.exif_layout.specs.WriteFaults.{write_refusal};

    ghost from_gives = { λ fault e. refusal_of e ≡ Some (write_refusal fault) };

    fn from(fault: WriteFault) -> Error {
        match fault {
            WriteFault::NoDirectory | WriteFault::EmptyDirectory => {
                Error::InvalidFormat(fault.message())
            }
            WriteFault::TooManyFields | WriteFault::OffsetTooLarge => {
                Error::TooBig(fault.message())
            }
            WriteFault::UnknownType => Error::NotSupported(fault.message()),
        }
    }
}

//! What is wrong with TIFF data.

ghost use Rattle.std.specs.Prelude.{◌≡◌};
ghost use Rattle.exif_tiff.specs.Faults.{text_of};

use exif_types::Error;

/// A fault of TIFF data. The first four are hard: nothing is read of such data. The others are
/// soft: reading may pass over them.
#[derive(Clone, Copy, Debug, PartialEq, Eq)]
pub enum Fault {
    /// There are more bytes than 32-bit offsets.
    DataTooLarge,
    /// The header is not whole.
    TruncatedHeader,
    /// The data begin neither with `MM` nor with `II`.
    InvalidByteOrder,
    /// The number behind the byte order is not 42.
    InvalidFortyTwo,
    /// A directory's count is not whole.
    TruncatedCount,
    /// A directory's entries are not whole.
    TruncatedDirectory,
    /// The offset of the next directory is not whole.
    TruncatedNextOffset,
    /// A value does not lie in the data.
    TruncatedValue,
    /// A pointer holds no unsigned number.
    InvalidPointer,
    /// A child directory names a next one.
    UnexpectedNext,
    /// The chain has a ninth directory.
    TooManyDirectories,
    /// The data have more entries than the reader may visit.
    TooManyEntries,
}

impl Fault {
    /// The message of the fault.
    pub fn message(self) -> &'static str
        ensures { result.now ≡ text_of self }
    {
        match self {
            Fault::DataTooLarge => "TIFF data too large",
            Fault::TruncatedHeader => "Truncated TIFF header",
            Fault::InvalidByteOrder => "Invalid TIFF byte order",
            Fault::InvalidFortyTwo => "Invalid forty two",
            Fault::TruncatedCount => "Truncated IFD count",
            Fault::TruncatedDirectory => "Truncated IFD",
            Fault::TruncatedNextOffset => "Truncated next IFD offset",
            Fault::TruncatedValue => "Truncated field value",
            Fault::InvalidPointer => "Invalid pointer",
            Fault::UnexpectedNext => "Unexpected next IFD",
            Fault::TooManyDirectories => "Limit the IFD count to 8",
            Fault::TooManyEntries => "Limit the IFD entry count",
        }
    }
}

impl From<Fault> for Error {
    ghost use Rattle.std.specs.Prelude.{◌≡◌, Some};
    ghost use Rattle.exif_types.specs.Refusals.{refusal_of};
    ghost use Rattle.exif_tiff.specs.Faults.{refusal};

    ghost from_gives = { λ fault e. refusal_of e ≡ Some (refusal fault) };

    fn from(fault: Fault) -> Error {
        match fault {
            Fault::DataTooLarge => Error::TooBig(fault.message()),
            _ => Error::InvalidFormat(fault.message()),
        }
    }
}

//! Why IPTC data are refused.

ghost use Rattle.std.specs.Prelude.{◌≡◌, Some};
ghost use Rattle.exif_iptc.specs.declared.fault.ReadError.TheVariants.{Memory};

use std::alloc::{AllocError, AllocFailed};
use std::fmt;

/// What is wrong with IPTC data.
#[derive(Clone, Copy, Debug, PartialEq, Eq)]
pub enum Fault {
    /// Bytes that begin no dataset, and are not zeros up to the end of the data.
    NoDataset,
    /// The data end within a dataset.
    Cut,
    /// A dataset whose length has more than [`MAX_LENGTH_BYTES`](crate::header::MAX_LENGTH_BYTES)
    /// bytes.
    TooLong,
}

/// What is wrong with IPTC data, and where.
#[derive(Clone, Copy, Debug, PartialEq, Eq)]
pub struct Refusal {
    /// What is wrong.
    pub fault: Fault,
    /// The offset in the data, in bytes, of the dataset that is refused.
    pub offset: usize,
}

/// Why IPTC data were not read.
#[derive(Debug, Drop)]
pub enum ReadError {
    /// Out of memory.
    Memory,
    /// The data are refused.
    Refused(Refusal),
}

impl From<AllocError> for ReadError {
    ghost from_gives = { λ _ e. e ≡ Memory };

    fn from(_e: AllocError) -> ReadError {
        ReadError::Memory
    }
}

impl<T: Drop> From<AllocFailed<T>> for ReadError {
    ghost from_gives = { λ _ e. e ≡ Memory };

    fn from(_e: AllocFailed<T>) -> ReadError {
        ReadError::Memory
    }
}

impl fmt::Display for Fault {
    ghost use Rattle.exif_iptc.specs.FaultTexts.{fault_text};

    ghost output = { λ fault. Some (fault_text fault) };

    fn fmt<W: fmt::Write>(&self, f: &mut fmt::Formatter<W>) -> fmt::Result {
        let text = match self {
            Fault::NoDataset => "IPTC data with bytes that are no dataset",
            Fault::Cut => "IPTC data end too early",
            Fault::TooLong => "IPTC data with a length of too many bytes",
        };
        f.write_str(text)
    }
}

//! Why a text is not set.

ghost use Rattle.std.specs.Prelude.{◌≡◌};
ghost use Rattle.exif_xmp_set.specs.declared.fault.SetError.TheVariants.{OutOfMemory};
ghost use Rattle.exif_xmp_set.specs.Refusals.{error_of_reader};

use exif_xmp::{ReadError, Refusal};
use std::alloc::{AllocError, AllocFailed};
use std::fmt;

/// Why a packet with another text is refused.
///
/// `{}` prints it as a text for people, without an offset.
#[derive(Clone, Copy, Debug, PartialEq, Eq)]
pub enum Reason {
    /// The packet is refused by [`exif_xmp::read`].
    Packet(Refusal),
    /// The packet has no property of this namespace and path.
    NoProperty,
    /// The value of the property is not text, but [`Form::Unread`](exif_xmp::Form::Unread).
    Unread,
    /// The packet has a property of this namespace and path, or one within it.
    Present,
    /// The packet has no end tag of `rdf:RDF`, before which a property could go.
    NoPlace,
    /// At this offset the text has bytes that are no character of XML in UTF-8.
    InvalidText(usize),
    /// The new packet would not be read as the old one with the text replaced.
    NotReadBack,
}

/// Why a text is not set.
#[derive(Debug, Drop)]
pub enum SetError {
    /// Memory ran out. The call may be tried again.
    OutOfMemory,
    /// The packet or the text is refused. Tried again, it is refused again.
    Refused(Reason),
}

impl From<AllocError> for SetError {
    ghost from_gives = { λ _ e. e ≡ OutOfMemory };

    fn from(_e: AllocError) -> SetError {
        SetError::OutOfMemory
    }
}

impl<T: Drop> From<AllocFailed<T>> for SetError {
    ghost from_gives = { λ _ e. e ≡ OutOfMemory };

    fn from(_e: AllocFailed<T>) -> SetError {
        SetError::OutOfMemory
    }
}

impl From<ReadError> for SetError {
    ghost from_gives = { λ read e. e ≡ error_of_reader read };

    fn from(read: ReadError) -> SetError {
        match read {
            ReadError::OutOfMemory => SetError::OutOfMemory,
            ReadError::Refused(refusal) => SetError::Refused(Reason::Packet(refusal)),
        }
    }
}

impl fmt::Display for Reason {
    ghost use Rattle.std.specs.Prelude.{Some};
    ghost use Rattle.exif_xmp_set.specs.FaultTexts.{reason_text};

    ghost output = { λ reason. Some (reason_text reason) };

    fn fmt<W: fmt::Write>(&self, f: &mut fmt::Formatter<W>) -> fmt::Result {
        match self {
            Reason::Packet(refusal) => refusal.fault.fmt(f),
            Reason::NoProperty => f.write_str("no such property"),
            Reason::Unread => f.write_str("the property is not a text"),
            Reason::Present => f.write_str("the property is there already"),
            Reason::NoPlace => f.write_str("the packet has no place for a property"),
            Reason::InvalidText(_) => f.write_str("the text is not valid in XML"),
            Reason::NotReadBack => f.write_str("the text cannot be set in this packet"),
        }
    }
}

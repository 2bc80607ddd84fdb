//! Why a packet is refused.

ghost use Rattle.std.specs.Prelude.{◌≡◌, Some};
ghost use Rattle.exif_xmp.specs.declared.fault.Fault.TheVariants as faults;
ghost use Rattle.exif_xmp.specs.declared.fault.ReadError.TheVariants.{OutOfMemory};
ghost use Rattle.exif_xmp.specs.FaultTexts.{xml_text};
ghost use Rattle.exif_xmp.specs.Refusals.{error_of_xml};

use exif_xml::{Fault as XmlFault, ReadError as XmlError};
use std::alloc::{AllocError, AllocFailed};
use std::fmt;

/// What is wrong with a packet.
///
/// `{}` prints it as a text for people, without an offset.
#[derive(Clone, Copy, Debug, PartialEq, Eq)]
pub enum Fault {
    /// It is not XML as [`exif_xml`] reads it.
    Xml(XmlFault),
    /// It is in UTF-16 or UTF-32; UTF-8 is read.
    Encoding,
    /// Elements are nested deeper than [`MAX_DEPTH`](crate::limits::MAX_DEPTH).
    TooDeep,
    /// More properties, items of an array or namespace declarations than
    /// [`MAX_PROPERTIES`](crate::limits::MAX_PROPERTIES), [`MAX_ITEMS`](crate::limits::MAX_ITEMS)
    /// and [`MAX_BINDINGS`](crate::limits::MAX_BINDINGS).
    TooMany,
    /// A path longer than [`MAX_PATH_LEN`](crate::limits::MAX_PATH_LEN), or a URI longer than
    /// [`MAX_URI_LEN`](crate::limits::MAX_URI_LEN).
    TooLong,
}

/// What is wrong, and where.
#[derive(Clone, Copy, Debug, PartialEq, Eq)]
pub struct Refusal {
    /// What is wrong.
    pub fault: Fault,
    /// The offset in bytes of the markup or text in which it is.
    pub offset: usize,
}

/// Why a packet was not read.
#[derive(Debug, Drop)]
pub enum ReadError {
    /// Memory ran out. The call may be tried again.
    OutOfMemory,
    /// The packet is refused. Read again, it is refused again.
    Refused(Refusal),
}

impl From<AllocError> for ReadError {
    ghost from_gives = { λ _ e. e ≡ OutOfMemory };

    fn from(_e: AllocError) -> ReadError {
        ReadError::OutOfMemory
    }
}

impl<T: Drop> From<AllocFailed<T>> for ReadError {
    ghost from_gives = { λ _ e. e ≡ OutOfMemory };

    fn from(_e: AllocFailed<T>) -> ReadError {
        ReadError::OutOfMemory
    }
}

impl From<XmlError> for ReadError {
    ghost from_gives = { λ xml e. e ≡ error_of_xml xml };

    fn from(xml: XmlError) -> ReadError {
        match xml {
            XmlError::OutOfMemory => ReadError::OutOfMemory,
            XmlError::Refused(refusal) => ReadError::Refused(Refusal {
                fault: Fault::Xml(refusal.fault),
                offset: refusal.offset,
            }),
        }
    }
}

impl From<XmlFault> for Fault {
    ghost from_gives = { λ xml fault. fault ≡ faults.Xml xml };

    fn from(xml: XmlFault) -> Fault {
        Fault::Xml(xml)
    }
}

// The text of a fault of XML in a packet.
fn xml_text(fault: XmlFault) -> &'static str
    ensures { result.now ≡ xml_text fault }
{
    match fault {
        XmlFault::Doctype => "XMP with a document type",
        XmlFault::Malformed => "XMP is not well formed",
        XmlFault::Truncated => "XMP ends too early",
        XmlFault::MismatchedTag => "XMP with an end tag of an element that is not open",
        XmlFault::UndeclaredPrefix => "XMP with a prefix that is not declared",
        XmlFault::InvalidReference => "XMP with a reference that is no character",
    }
}

impl fmt::Display for Fault {
    ghost use Rattle.exif_xmp.specs.FaultTexts.{fault_text};

    ghost output = { λ fault. Some (fault_text fault) };

    fn fmt<W: fmt::Write>(&self, f: &mut fmt::Formatter<W>) -> fmt::Result {
        let text = match self {
            Fault::Xml(xml) => xml_text(*xml),
            Fault::Encoding => "XMP in UTF-16 or UTF-32",
            Fault::TooDeep => "XMP with elements nested too deeply",
            Fault::TooMany => "XMP with too many properties, items or namespaces",
            Fault::TooLong => "XMP with a path or a namespace that is too long",
        };
        f.write_str(text)
    }
}

//! Why XML is refused.

ghost use Rattle.std.specs.Prelude.{◌≡◌, Some};
ghost use Rattle.exif_xml.specs.declared.fault.ReadError.TheVariants.{OutOfMemory};

use std::alloc::{AllocError, AllocFailed};
use std::fmt;

/// What is wrong with an XML document.
///
/// `{}` prints it as a text for people, without an offset.
#[derive(Clone, Copy, Debug, PartialEq, Eq)]
pub enum Fault {
    /// A document type declaration (XML 1.0, 2.8), which may declare entities.
    Doctype,
    /// Markup that is not well formed.
    Malformed,
    /// The document ends within markup or within an element.
    Truncated,
    /// An end tag whose name is not that of the element that is open (XML 1.0, 3).
    MismatchedTag,
    /// A prefix that is not declared (Namespaces in XML 1.0, 3).
    UndeclaredPrefix,
    /// A reference that is neither one of the five predefined entities nor the number of a
    /// character (XML 1.0, 4.1 and 4.6).
    InvalidReference,
}

/// What is wrong, and where.
#[derive(Clone, Copy, Debug, PartialEq, Eq)]
pub struct Refusal {
    /// What is wrong.
    pub fault: Fault,
    /// The offset in bytes of the markup or text in which it is.
    pub offset: usize,
}

/// Why a document was not read.
#[derive(Debug, Drop)]
pub enum ReadError {
    /// Memory ran out. The call may be tried again.
    OutOfMemory,
    /// The bytes are refused. Read again, they are refused again.
    Refused(Refusal),
}

impl From<AllocError> for ReadError {
    ghost from_gives = { λ _ e. e ≡ OutOfMemory };

    fn from(_e: AllocError) -> ReadError {
        ReadError::OutOfMemory
    }
}

impl<T: Drop> From<AllocFailed<T>> for ReadError {
    ghost from_gives = { λ _ e. e ≡ OutOfMemory };

    fn from(_e: AllocFailed<T>) -> ReadError {
        ReadError::OutOfMemory
    }
}

impl fmt::Display for Fault {
    ghost use Rattle.exif_xml.specs.FaultTexts.{fault_text};

    ghost output = { λ fault. Some (fault_text fault) };

    fn fmt<W: fmt::Write>(&self, f: &mut fmt::Formatter<W>) -> fmt::Result {
        let text = match self {
            Fault::Doctype => "XML with a document type",
            Fault::Malformed => "XML is not well formed",
            Fault::Truncated => "XML ends too early",
            Fault::MismatchedTag => "XML with an end tag of an element that is not open",
            Fault::UndeclaredPrefix => "XML with a prefix that is not declared",
            Fault::InvalidReference => "XML with a reference that is no character",
        };
        f.write_str(text)
    }
}

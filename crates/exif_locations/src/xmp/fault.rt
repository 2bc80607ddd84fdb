//! Why a packet is refused.

ghost use Rattle.std.specs.Prelude.{Some};

use std::fmt;

/// Why a packet is refused, and left as it was.
#[derive(Clone, Copy, Debug, PartialEq, Eq)]
pub enum Fault {
    /// Markup that is not well formed.
    Malformed,
    /// A document type, which may declare names for markup.
    Doctype,
    /// The packet ends within markup or within a property that names a location.
    Cut,
    /// The end of a property that names a location, whose start is not there.
    Unbalanced,
}

impl fmt::Display for Fault {
    ghost use Rattle.exif_locations.specs.FaultTexts.{xmp_text};

    ghost output = { λ fault. Some (xmp_text fault) };

    fn fmt<W: fmt::Write>(&self, f: &mut fmt::Formatter<W>) -> fmt::Result {
        let input = match self {
            Fault::Malformed => "XMP is not well formed",
            Fault::Doctype => "XMP with a document type",
            Fault::Cut => "XMP ends too early",
            Fault::Unbalanced => "XMP ends a property that it does not begin",
        };
        f.write_str(input)
    }
}

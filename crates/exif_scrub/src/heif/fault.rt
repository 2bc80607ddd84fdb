//! Why a HEIF file is not scrubbed.

ghost use Rattle.std.specs.Prelude.{Some};

use std::fmt;

/// Why a HEIF or AVIF file is not scrubbed.
#[derive(Clone, Copy, Debug, PartialEq, Eq)]
pub enum Fault {
    /// Without its metadata it would be read otherwise: another part of it would be metadata.
    Unstable,
}

impl fmt::Display for Fault {
    ghost use Rattle.exif_scrub.specs.HeifFaultTexts.{fault_text};

    ghost output = { λ fault. Some (fault_text fault) };

    fn fmt<W: fmt::Write>(&self, f: &mut fmt::Formatter<W>) -> fmt::Result {
        f.write_str(match self {
            Fault::Unstable => "the file would be read otherwise without its metadata",
        })
    }
}

//! Why data are refused.

ghost use Rattle.std.specs.Prelude.{Some};

use std::fmt;

/// Why data are refused, and left as they were.
#[derive(Clone, Copy, Debug, PartialEq, Eq)]
pub enum Fault {
    /// Bytes that begin no dataset, and are no zeros up to the end.
    NoDataset,
    /// A value whose length takes more than two bytes.
    Extended,
    /// The data end within a dataset.
    Cut,
}

impl fmt::Display for Fault {
    ghost use Rattle.exif_locations.specs.FaultTexts.{iptc_text};

    ghost output = { λ fault. Some (iptc_text fault) };

    fn fmt<W: fmt::Write>(&self, f: &mut fmt::Formatter<W>) -> fmt::Result {
        let input = match self {
            Fault::NoDataset => "IPTC data with bytes that are no dataset",
            Fault::Extended => "IPTC data with a value of extended length",
            Fault::Cut => "IPTC data end too early",
        };
        f.write_str(input)
    }
}

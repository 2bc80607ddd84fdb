//! The tags of an interoperability directory (Exif 2.32, section 4.6.7, and DCF 2.0), numbers
//! ascending.

ghost use Rattle.std.specs.Prelude.{◌≡◌, IsTrue, map};
ghost use Rattle.exif_table.specs.Rows.{interop_rows};
ghost use Rattle.exif_table.specs.Rising.{is_rising};
ghost use Rattle.exif_table.specs.View.{row_view};

use crate::kind::TextKind;
use crate::row::UnitPiece::{Str, Value};
use crate::row::{DefaultValue, Row};

static INTEROP: [Row; 5] = [
    row!(0x0001 "InteroperabilityIndex" "Interoperability identification", Plain),
    row!(0x0002 "InteroperabilityVersion" "Interoperability version", InteropVersion),
    row!(0x1000 "RelatedImageFileFormat" "Related image file format", Plain),
    row!(0x1001 "RelatedImageWidth" "Related image width", Plain, unit [Value, Str(" pixels")]),
    row!(0x1002 "RelatedImageLength" "Related image height", Plain, unit [Value, Str(" pixels")]),
];

/// The rows of an interoperability directory.
pub(crate) fn rows() -> &'static [Row]
    ensures rows { map row_view result.now ≡ interop_rows }
    ensures rising { IsTrue (is_rising (λ r. r.number) result.now) }
{
    &INTEROP
}

//! The tags of TIFF data (TIFF 6.0, and Exif 2.32, section 4.6.4), numbers ascending.

ghost use Rattle.std.specs.Prelude.{◌≡◌, IsTrue, map};
ghost use Rattle.exif_table.specs.Rows.{tiff_rows};
ghost use Rattle.exif_table.specs.Rising.{is_rising};
ghost use Rattle.exif_table.specs.View.{row_view};

use crate::context::Context::Tiff;
use crate::kind::TextKind;
use crate::row::DefaultValue::{ContextDependent, Rational, Short, Unspecified};
use crate::row::UnitPiece::{Str, Tag, Value};
use crate::row::{DefaultValue, Row};

static TIFF: [Row; 34] = [
    row!(0x0100 "ImageWidth" "Image width", Plain, unit [Value, Str(" pixels")]),
    row!(0x0101 "ImageLength" "Image height", Plain, unit [Value, Str(" pixels")]),
    row!(0x0102 "BitsPerSample" "Number of bits per component", Plain, default Short(&[8, 8, 8])),
    row!(0x0103 "Compression" "Compression scheme", Compression),
    row!(0x0106 "PhotometricInterpretation" "Pixel composition", PhotometricInterpretation),
    row!(0x010e "ImageDescription" "Image title", Plain),
    row!(0x010f "Make" "Manufacturer of image input equipment", Plain),
    row!(0x0110 "Model" "Model of image input equipment", Plain),
    row!(0x0111 "StripOffsets" "Image data location", Plain),
    row!(0x0112 "Orientation" "Orientation of image", Orientation, default Short(&[1])),
    row!(0x0115 "SamplesPerPixel" "Number of components", Plain, default Short(&[3])),
    row!(0x0116 "RowsPerStrip" "Number of rows per strip", Plain),
    row!(0x0117 "StripByteCounts" "Bytes per compressed strip", Plain),
    row!(0x011a "XResolution" "Image resolution in width direction", Decimal,
        unit [Value, Str(" pixels per "), Tag(Tiff, 0x0128)], default Rational(72, 1)),
    row!(0x011b "YResolution" "Image resolution in height direction", Decimal,
        unit [Value, Str(" pixels per "), Tag(Tiff, 0x0128)], default Rational(72, 1)),
    row!(0x011c "PlanarConfiguration" "Image data arrangement", PlanarConfiguration,
        default Short(&[1])),
    row!(0x0128 "ResolutionUnit" "Unit of X and Y resolution", ResolutionUnit, default Short(&[2])),
    row!(0x012d "TransferFunction" "Transfer function", Plain),
    row!(0x0131 "Software" "Software used", Plain),
    row!(0x0132 "DateTime" "File change date and time", DateTime),
    row!(0x013b "Artist" "Person who created the image", Plain),
    row!(0x013e "WhitePoint" "White point chromaticity", Decimal),
    row!(0x013f "PrimaryChromaticities" "Chromaticities of primaries", Decimal),
    row!(0x0144 "TileOffsets" "Tiled image data location", Plain),
    row!(0x0145 "TileByteCounts" "Bytes per compressed tile", Plain),
    row!(0x0201 "JPEGInterchangeFormat" "Offset to JPEG SOI", Plain),
    row!(0x0202 "JPEGInterchangeFormatLength" "Bytes of JPEG data", Plain),
    row!(0x0211 "YCbCrCoefficients" "Color space transformation matrix coefficients", Decimal,
        default Unspecified),
    row!(0x0212 "YCbCrSubSampling" "Subsampling ratio of Y to C", YCbCrSubSampling),
    row!(0x0213 "YCbCrPositioning" "Y and C positioning", YCbCrPositioning, default Short(&[1])),
    row!(0x0214 "ReferenceBlackWhite" "Pair of black and white reference values", Decimal,
        default ContextDependent),
    row!(0x8298 "Copyright" "Copyright holder", Plain),
    row!(0x8769 "ExifIFDPointer" "Exif IFD pointer", Plain),
    row!(0x8825 "GPSInfoIFDPointer" "GPS Info IFD pointer", Plain),
];

/// The rows of TIFF data.
pub(crate) fn rows() -> &'static [Row]
    ensures rows { map row_view result.now ≡ tiff_rows }
    ensures rising { IsTrue (is_rising (λ r. r.number) result.now) }
{
    &TIFF
}

//! The tags of a GPS directory (Exif 2.32, section 4.6.6), numbers ascending.

ghost use Rattle.std.specs.Prelude.{◌≡◌, IsTrue, map};
ghost use Rattle.exif_table.specs.Rows.{gps_rows};
ghost use Rattle.exif_table.specs.Rising.{is_rising};
ghost use Rattle.exif_table.specs.View.{row_view};

use crate::context::Context::Gps;
use crate::kind::TextKind;
use crate::row::DefaultValue::{Ascii, Byte, ContextDependent};
use crate::row::UnitPiece::{Str, Tag, Value};
use crate::row::{DefaultValue, Row};

static GPS: [Row; 32] = [
    row!(0x0000 "GPSVersionID" "GPS tag version", GpsVersion, default ContextDependent),
    row!(0x0001 "GPSLatitudeRef" "North or south latitude", GpsLatLongRef),
    row!(0x0002 "GPSLatitude" "Latitude", GpsDegrees, unit [Value, Str(" "), Tag(Gps, 0x0001)]),
    row!(0x0003 "GPSLongitudeRef" "East or West Longitude", GpsLatLongRef),
    row!(0x0004 "GPSLongitude" "Longitude", GpsDegrees, unit [Value, Str(" "), Tag(Gps, 0x0003)]),
    row!(0x0005 "GPSAltitudeRef" "Altitude reference", GpsAltitudeRef, default Byte(&[0])),
    row!(0x0006 "GPSAltitude" "Altitude", Decimal, unit [Value, Str(" meters "), Tag(Gps, 0x0005)]),
    row!(0x0007 "GPSTimeStamp" "GPS time (atomic clock)", GpsTimeStamp),
    row!(0x0008 "GPSSatellites" "GPS satellites used for measurement", Plain),
    row!(0x0009 "GPSStatus" "GPS receiver status", GpsStatus),
    row!(0x000a "GPSMeasureMode" "GPS measurement mode", GpsMeasureMode),
    row!(0x000b "GPSDOP" "Measurement precision", Decimal),
    row!(0x000c "GPSSpeedRef" "Speed unit", GpsSpeedRef, default Ascii(b"K")),
    row!(0x000d "GPSSpeed" "Speed of GPS receiver", Decimal,
        unit [Value, Str(" "), Tag(Gps, 0x000c)]),
    row!(0x000e "GPSTrackRef" "Reference for direction of movement", GpsDirectionRef,
        default Ascii(b"T")),
    row!(0x000f "GPSTrack" "Direction of movement", Decimal,
        unit [Value, Str(" degrees in "), Tag(Gps, 0x000e)]),
    row!(0x0010 "GPSImgDirectionRef" "Reference for direction of image", GpsDirectionRef,
        default Ascii(b"T")),
    row!(0x0011 "GPSImgDirection" "Direction of image", Decimal,
        unit [Value, Str(" degrees in "), Tag(Gps, 0x0010)]),
    row!(0x0012 "GPSMapDatum" "Geodetic survey data used", Plain),
    row!(0x0013 "GPSDestLatitudeRef" "Reference for latitude of destination", GpsLatLongRef),
    row!(0x0014 "GPSDestLatitude" "Latitude of destination", GpsDegrees,
        unit [Value, Str(" "), Tag(Gps, 0x0013)]),
    row!(0x0015 "GPSDestLongitudeRef" "Reference for longitude of destination", GpsLatLongRef),
    row!(0x0016 "GPSDestLongitude" "Longitude of destination", GpsDegrees,
        unit [Value, Str(" "), Tag(Gps, 0x0015)]),
    row!(0x0017 "GPSDestBearingRef" "Reference for bearing of destination", GpsDirectionRef,
        default Ascii(b"T")),
    row!(0x0018 "GPSDestBearing" "Bearing of destination", Decimal,
        unit [Value, Str(" degrees in "), Tag(Gps, 0x0017)]),
    row!(0x0019 "GPSDestDistanceRef" "Reference for distance to destination", GpsDistanceRef,
        default Ascii(b"K")),
    row!(0x001a "GPSDestDistance" "Distance to destination", Decimal,
        unit [Value, Str(" "), Tag(Gps, 0x0019)]),
    row!(0x001b "GPSProcessingMethod" "Name of GPS processing method", UndefinedText),
    row!(0x001c "GPSAreaInformation" "Name of GPS area", Plain),
    row!(0x001d "GPSDateStamp" "GPS date", GpsDateStamp),
    row!(0x001e "GPSDifferential" "GPS differential correction", GpsDifferential),
    row!(0x001f "GPSHPositioningError" "Horizontal positioning error", Decimal,
        unit [Value, Str(" m")]),
];

/// The rows of a GPS directory.
pub(crate) fn rows() -> &'static [Row]
    ensures rows { map row_view result.now ≡ gps_rows }
    ensures rising { IsTrue (is_rising (λ r. r.number) result.now) }
{
    &GPS
}

//! The tags of an Exif directory (Exif 2.32, section 4.6.5), numbers ascending.

ghost use Rattle.std.specs.Prelude.{◌≡◌, IsTrue, map};
ghost use Rattle.exif_table.specs.Rows.{exif_rows};
ghost use Rattle.exif_table.specs.Rising.{is_rising};
ghost use Rattle.exif_table.specs.View.{row_view};

use crate::context::Context::Exif;
use crate::kind::TextKind;
use crate::row::DefaultValue::{ContextDependent, Short, Undefined, Unspecified};
use crate::row::UnitPiece::{Str, Tag, Value};
use crate::row::{DefaultValue, Row};

static EXIF: [Row; 82] = [
    row!(0x829a "ExposureTime" "Exposure time", ExposureTime, unit [Value, Str(" s")]),
    row!(0x829d "FNumber" "F number", Decimal, unit [Str("f/"), Value]),
    row!(0x8822 "ExposureProgram" "Exposure program", ExposureProgram),
    row!(0x8824 "SpectralSensitivity" "Spectral sensitivity", Plain),
    row!(0x8827 "PhotographicSensitivity" "Photographic sensitivity", Plain),
    row!(0x8828 "OECF" "Optoelectric conversion factor", Plain),
    row!(0x8830 "SensitivityType" "Sensitivity type", SensitivityType),
    row!(0x8831 "StandardOutputSensitivity" "Standard output sensitivity", Plain),
    row!(0x8832 "RecommendedExposureIndex" "Recommended exposure index", Plain),
    row!(0x8833 "ISOSpeed" "ISO speed", Plain),
    row!(0x8834 "ISOSpeedLatitudeyyy" "ISO speed latitude yyy", Plain),
    row!(0x8835 "ISOSpeedLatitudezzz" "ISO speed latitude zzz", Plain),
    row!(0x9000 "ExifVersion" "Exif version", ExifVersion),
    row!(0x9003 "DateTimeOriginal" "Date and time of original data generation", DateTime),
    row!(0x9004 "DateTimeDigitized" "Date and time of digital data generation", DateTime),
    row!(0x9010 "OffsetTime" "Offset data of DateTime", Plain),
    row!(0x9011 "OffsetTimeOriginal" "Offset data of DateTimeOriginal", Plain),
    row!(0x9012 "OffsetTimeDigitized" "Offset data of DateTimeDigitized", Plain),
    row!(0x9101 "ComponentsConfiguration" "Meaning of each component", ComponentsConfiguration,
        default ContextDependent),
    row!(0x9102 "CompressedBitsPerPixel" "Image compression mode", Decimal),
    row!(0x9201 "ShutterSpeedValue" "Shutter speed", Decimal, unit [Value, Str(" EV")]),
    row!(0x9202 "ApertureValue" "Aperture", Decimal, unit [Value, Str(" EV")]),
    row!(0x9203 "BrightnessValue" "Brightness", OptionalDecimal, unit [Value, Str(" EV")]),
    row!(0x9204 "ExposureBiasValue" "Exposure bias", Decimal, unit [Value, Str(" EV")]),
    row!(0x9205 "MaxApertureValue" "Maximum lens aperture", Decimal, unit [Value, Str(" EV")]),
    row!(0x9206 "SubjectDistance" "Subject distance", SubjectDistance, unit [Value, Str(" m")]),
    row!(0x9207 "MeteringMode" "Metering mode", MeteringMode, default Short(&[0])),
    row!(0x9208 "LightSource" "Light source", LightSource, default Short(&[0])),
    row!(0x9209 "Flash" "Flash", Flash, default Unspecified),
    row!(0x920a "FocalLength" "Lens focal length", Decimal, unit [Value, Str(" mm")]),
    row!(0x9214 "SubjectArea" "Subject area", SubjectArea),
    row!(0x927c "MakerNote" "Manufacturer notes", Plain),
    row!(0x9286 "UserComment" "User comments", Plain),
    row!(0x9290 "SubSecTime" "DateTime subseconds", Plain),
    row!(0x9291 "SubSecTimeOriginal" "DateTimeOriginal subseconds", Plain),
    row!(0x9292 "SubSecTimeDigitized" "DateTimeDigitized subseconds", Plain),
    row!(0x9400 "Temperature" "Temperature", OptionalDecimal, unit [Value, Str(" degC")]),
    row!(0x9401 "Humidity" "Humidity", OptionalDecimal, unit [Value, Str(" %")]),
    row!(0x9402 "Pressure" "Pressure", OptionalDecimal, unit [Value, Str(" hPa")]),
    row!(0x9403 "WaterDepth" "Water depth", OptionalDecimal, unit [Value, Str(" m")]),
    row!(0x9404 "Acceleration" "Acceleration", OptionalDecimal, unit [Value, Str(" mGal")]),
    row!(0x9405 "CameraElevationAngle" "Camera elevation angle", OptionalDecimal,
        unit [Value, Str(" deg")]),
    row!(0xa000 "FlashpixVersion" "Supported Flashpix version", ExifVersion,
        default Undefined(b"0100")),
    row!(0xa001 "ColorSpace" "Color space information", ColorSpace, default Unspecified),
    row!(0xa002 "PixelXDimension" "Valid image width", Plain, unit [Value, Str(" pixels")]),
    row!(0xa003 "PixelYDimension" "Valid image height", Plain,
        unit [Value, Str(" pixels")], default Unspecified),
    row!(0xa004 "RelatedSoundFile" "Related audio file", Plain),
    row!(0xa005 "InteropIFDPointer" "Interoperability IFD pointer", Plain),
    row!(0xa20b "FlashEnergy" "Flash energy", Decimal, unit [Value, Str(" BCPS")]),
    row!(0xa20c "SpatialFrequencyResponse" "Spatial frequency response", Plain),
    row!(0xa20e "FocalPlaneXResolution" "Focal plane X resolution", Decimal,
        unit [Value, Str(" pixels per "), Tag(Exif, 0xa210)]),
    row!(0xa20f "FocalPlaneYResolution" "Focal plane Y resolution", Decimal,
        unit [Value, Str(" pixels per "), Tag(Exif, 0xa210)]),
    row!(0xa210 "FocalPlaneResolutionUnit" "Focal plane resolution unit", ResolutionUnit,
        default Short(&[2])),
    row!(0xa214 "SubjectLocation" "Subject location", SubjectArea),
    row!(0xa215 "ExposureIndex" "Exposure index", Decimal),
    row!(0xa217 "SensingMethod" "Sensing method", SensingMethod),
    row!(0xa300 "FileSource" "File source", FileSource, default Undefined(&[3])),
    row!(0xa301 "SceneType" "Scene type", SceneType, default Undefined(&[1])),
    row!(0xa302 "CFAPattern" "CFA pattern", Plain),
    row!(0xa401 "CustomRendered" "Custom image processing", CustomRendered, default Short(&[0])),
    row!(0xa402 "ExposureMode" "Exposure mode", ExposureMode),
    row!(0xa403 "WhiteBalance" "White balance", WhiteBalance),
    row!(0xa404 "DigitalZoomRatio" "Digital zoom ratio", DigitalZoomRatio),
    row!(0xa405 "FocalLengthIn35mmFilm" "Focal length in 35 mm film", FocalLength35mm,
        unit [Value, Str(" mm")]),
    row!(0xa406 "SceneCaptureType" "Scene capture type", SceneCaptureType, default Short(&[0])),
    row!(0xa407 "GainControl" "Gain control", GainControl),
    row!(0xa408 "Contrast" "Contrast", Contrast, default Short(&[0])),
    row!(0xa409 "Saturation" "Saturation", Saturation, default Short(&[0])),
    row!(0xa40a "Sharpness" "Sharpness", Sharpness, default Short(&[0])),
    row!(0xa40b "DeviceSettingDescription" "Device settings description", Plain),
    row!(0xa40c "SubjectDistanceRange" "Subject distance range", SubjectDistanceRange),
    row!(0xa420 "ImageUniqueID" "Unique image ID", Plain),
    row!(0xa430 "CameraOwnerName" "Camera owner name", Plain),
    row!(0xa431 "BodySerialNumber" "Body serial number", Plain),
    row!(0xa432 "LensSpecification" "Lens specification", LensSpecification),
    row!(0xa433 "LensMake" "Lens make", Plain),
    row!(0xa434 "LensModel" "Lens model", Plain),
    row!(0xa435 "LensSerialNumber" "Lens serial number", Plain),
    row!(0xa460 "CompositeImage" "Composite image", CompositeImage, default Short(&[0])),
    row!(0xa461 "SourceImageNumberOfCompositeImage" "Source image number of composite image", CompositeImageCounts),
    row!(0xa462 "SourceExposureTimesOfCompositeImage" "Source exposure times of composite image", Plain),
    row!(0xa500 "Gamma" "Gamma", Decimal),
];

/// The rows of an Exif directory.
pub(crate) fn rows() -> &'static [Row]
    ensures rows { map row_view result.now ≡ exif_rows }
    ensures rising { IsTrue (is_rising (λ r. r.number) result.now) }
{
    &EXIF
}

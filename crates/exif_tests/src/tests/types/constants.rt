//! Tags by name.

use exif_types::{Context, Tag};
use std::process::Abort;

/// The constants with these names, each beside its name.
macro_rules! named {
    ($($name:ident),*) => {
        [$((Tag::$name, stringify!($name))),*]
    };
}

static TIFF: [(Tag, &str); 34] = named![
    ImageWidth,
    ImageLength,
    BitsPerSample,
    Compression,
    PhotometricInterpretation,
    ImageDescription,
    Make,
    Model,
    StripOffsets,
    Orientation,
    SamplesPerPixel,
    RowsPerStrip,
    StripByteCounts,
    XResolution,
    YResolution,
    PlanarConfiguration,
    ResolutionUnit,
    TransferFunction,
    Software,
    DateTime,
    Artist,
    WhitePoint,
    PrimaryChromaticities,
    TileOffsets,
    TileByteCounts,
    JPEGInterchangeFormat,
    JPEGInterchangeFormatLength,
    YCbCrCoefficients,
    YCbCrSubSampling,
    YCbCrPositioning,
    ReferenceBlackWhite,
    Copyright,
    ExifIFDPointer,
    GPSInfoIFDPointer
];

static EXIF: [(Tag, &str); 36] = named![
    ExposureTime,
    FNumber,
    ExposureProgram,
    SpectralSensitivity,
    PhotographicSensitivity,
    OECF,
    SensitivityType,
    StandardOutputSensitivity,
    RecommendedExposureIndex,
    ISOSpeed,
    ISOSpeedLatitudeyyy,
    ISOSpeedLatitudezzz,
    ExifVersion,
    DateTimeOriginal,
    DateTimeDigitized,
    OffsetTime,
    OffsetTimeOriginal,
    OffsetTimeDigitized,
    ComponentsConfiguration,
    CompressedBitsPerPixel,
    ShutterSpeedValue,
    ApertureValue,
    BrightnessValue,
    ExposureBiasValue,
    MaxApertureValue,
    SubjectDistance,
    MeteringMode,
    LightSource,
    Flash,
    FocalLength,
    SubjectArea,
    MakerNote,
    UserComment,
    SubSecTime,
    SubSecTimeOriginal,
    SubSecTimeDigitized
];

static EXIF_BEHIND: [(Tag, &str); 46] = named![
    Temperature,
    Humidity,
    Pressure,
    WaterDepth,
    Acceleration,
    CameraElevationAngle,
    FlashpixVersion,
    ColorSpace,
    PixelXDimension,
    PixelYDimension,
    RelatedSoundFile,
    InteropIFDPointer,
    FlashEnergy,
    SpatialFrequencyResponse,
    FocalPlaneXResolution,
    FocalPlaneYResolution,
    FocalPlaneResolutionUnit,
    SubjectLocation,
    ExposureIndex,
    SensingMethod,
    FileSource,
    SceneType,
    CFAPattern,
    CustomRendered,
    ExposureMode,
    WhiteBalance,
    DigitalZoomRatio,
    FocalLengthIn35mmFilm,
    SceneCaptureType,
    GainControl,
    Contrast,
    Saturation,
    Sharpness,
    DeviceSettingDescription,
    SubjectDistanceRange,
    ImageUniqueID,
    CameraOwnerName,
    BodySerialNumber,
    LensSpecification,
    LensMake,
    LensModel,
    LensSerialNumber,
    CompositeImage,
    SourceImageNumberOfCompositeImage,
    SourceExposureTimesOfCompositeImage,
    Gamma
];

static GPS: [(Tag, &str); 37] = named![
    GPSVersionID,
    GPSLatitudeRef,
    GPSLatitude,
    GPSLongitudeRef,
    GPSLongitude,
    GPSAltitudeRef,
    GPSAltitude,
    GPSTimeStamp,
    GPSSatellites,
    GPSStatus,
    GPSMeasureMode,
    GPSDOP,
    GPSSpeedRef,
    GPSSpeed,
    GPSTrackRef,
    GPSTrack,
    GPSImgDirectionRef,
    GPSImgDirection,
    GPSMapDatum,
    GPSDestLatitudeRef,
    GPSDestLatitude,
    GPSDestLongitudeRef,
    GPSDestLongitude,
    GPSDestBearingRef,
    GPSDestBearing,
    GPSDestDistanceRef,
    GPSDestDistance,
    GPSProcessingMethod,
    GPSAreaInformation,
    GPSDateStamp,
    GPSDifferential,
    GPSHPositioningError,
    InteroperabilityIndex,
    InteroperabilityVersion,
    RelatedImageFileFormat,
    RelatedImageWidth,
    RelatedImageLength
];

fn assert_name(rt: &(impl Abort + AllocGlobal), tag: Tag, name: &str) {
    let shown = format!(in rt.alloc(); "{tag}").expect(rt, "memory");
    assert!(rt; shown.as_str() == name, "{name}");
}

fn assert_names(rt: &(impl Abort + AllocGlobal), named: &[(Tag, &str)]) {
    for (tag, name) in named {
        assert_name(rt, *tag, *name);
    }
}

fn assert_names_of_images(rt: &(impl Abort + AllocGlobal)) {
    assert_names(rt, &TIFF);
}

fn assert_names_of_pictures(rt: &(impl Abort + AllocGlobal)) {
    assert_names(rt, &EXIF);
}

fn assert_names_behind(rt: &(impl Abort + AllocGlobal)) {
    assert_names(rt, &EXIF_BEHIND);
}

fn assert_names_of_places(rt: &(impl Abort + AllocGlobal)) {
    assert_names(rt, &GPS);
}

#[test]
fn each_constant_shows_its_name(rt: HostRuntime) {
    assert_names_of_images(&rt);
    assert_names_of_pictures(&rt);
    assert_names_behind(&rt);
    assert_names_of_places(&rt);
}

fn side(tag: Tag) -> &'static str {
    match tag {
        Tag::ImageWidth | Tag::PixelXDimension => "width",
        _ => other_side(tag),
    }
}

fn other_side(tag: Tag) -> &'static str {
    match tag {
        Tag::ImageLength | Tag::PixelYDimension => "height",
        Tag(Context::Gps, _) => "place",
        _ => "none",
    }
}

#[test]
fn constants_stand_in_patterns(rt: HostRuntime) {
    assert!(rt; side(Tag(Context::Tiff, 0x100)) == "width");
    assert!(rt; side(Tag(Context::Exif, 0x100)) == "none");
    assert!(rt; side(Tag(Context::Exif, 0xa003)) == "height");
    assert!(rt; side(Tag::GPSVersionID) == "place");
}

//! How the texts of values are made.

/// How the text of a tag's value is made.
#[derive(Clone, Copy, Debug, PartialEq, Eq)]
pub enum TextKind {
    /// The list of the value as it is.
    Plain,
    /// Each fraction as a decimal.
    Decimal,
    /// A decimal, or `unknown`.
    OptionalDecimal,
    /// Seconds, below one as `1/` and a decimal.
    ExposureTime,
    /// A decimal, `unknown` or `infinity`.
    SubjectDistance,
    /// A decimal, or `unused`.
    DigitalZoomRatio,
    /// A number, or `unknown`.
    FocalLength35mm,
    /// A date with its time of day, or `unknown`.
    DateTime,
    /// A version of four digits, shortened.
    ExifVersion,
    /// A version of four digits.
    InteropVersion,
    /// The letters of color components.
    ComponentsConfiguration,
    /// How often the color components are sampled.
    YCbCrSubSampling,
    /// A rectangle, a circle or a point.
    SubjectArea,
    /// How many images there were, and how many were used.
    CompositeImageCounts,
    /// What a flash did, bit by bit.
    Flash,
    /// A range of focal lengths and a range of F numbers.
    LensSpecification,
    /// Degrees, minutes and seconds.
    GpsDegrees,
    /// Hours, minutes and seconds.
    GpsTimeStamp,
    /// A version of four numbers.
    GpsVersion,
    /// A letter.
    GpsLatLongRef,
    /// A date.
    GpsDateStamp,
    /// Bytes in quotes.
    UndefinedText,
    /// The fixed texts of a compression.
    Compression,
    /// The fixed texts of a photometric interpretation.
    PhotometricInterpretation,
    /// The fixed texts of an orientation.
    Orientation,
    /// The fixed texts of a planar configuration.
    PlanarConfiguration,
    /// The fixed texts of a resolution unit.
    ResolutionUnit,
    /// The fixed texts of a YCbCr positioning.
    YCbCrPositioning,
    /// The fixed texts of an exposure program.
    ExposureProgram,
    /// The fixed texts of a sensitivity type.
    SensitivityType,
    /// The fixed texts of a metering mode.
    MeteringMode,
    /// The fixed texts of a light source.
    LightSource,
    /// The fixed texts of a color space.
    ColorSpace,
    /// The fixed texts of a sensing method.
    SensingMethod,
    /// The fixed texts of a file source.
    FileSource,
    /// The fixed texts of a scene type.
    SceneType,
    /// The fixed texts of a custom rendered.
    CustomRendered,
    /// The fixed texts of an exposure mode.
    ExposureMode,
    /// The fixed texts of a white balance mode.
    WhiteBalance,
    /// The fixed texts of a scene capture type.
    SceneCaptureType,
    /// The fixed texts of a gain control.
    GainControl,
    /// The fixed texts of a contrast processing.
    Contrast,
    /// The fixed texts of a sharpness processing.
    Sharpness,
    /// The fixed texts of a saturation processing.
    Saturation,
    /// The fixed texts of a subject distance range.
    SubjectDistanceRange,
    /// The fixed texts of a composite image.
    CompositeImage,
    /// The fixed texts of a GPS altitude ref.
    GpsAltitudeRef,
    /// The fixed texts of a GPS differential correction.
    GpsDifferential,
    /// The fixed texts of a GPS status.
    GpsStatus,
    /// The fixed texts of a GPS measurement mode.
    GpsMeasureMode,
    /// The fixed texts of a GPS speed ref.
    GpsSpeedRef,
    /// The fixed texts of a GPS direction ref.
    GpsDirectionRef,
    /// The fixed texts of a GPS distance ref.
    GpsDistanceRef,
}

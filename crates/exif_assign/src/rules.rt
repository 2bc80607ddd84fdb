//! What the standard has for each tag that a text can set: its type, and its values (Exif 2.32,
//! sections 4.6.4 to 4.6.8; TIFF 6.0, section 8).

ghost use Rattle.std.specs.Prelude.{◌≡◌};
ghost use Rattle.exif_assign.specs.Rules.{form_of, kept_rules, rule_among, rule_of, rules, spelling_by, spelling_of, type_of_new};

use exif_text::FieldType;
use exif_types::Tag;

/// What values a tag can have.
#[derive(Clone, Copy)]
pub(crate) enum Form {
    /// Any of the type.
    Any,
    /// None that a text spells.
    Nothing,
    /// From so many items to so many, of a text with the zero that ends it.
    Count(u32, u32),
    /// One date of the calendar.
    Date,
    /// One day of the calendar.
    Day,
    /// One offset from UTC.
    Offset,
    /// A text of digits.
    Digits,
    /// A comment behind its character code.
    Comment,
    /// One number, from the first to the second.
    Within(u32, u32),
    /// One number of a list.
    Listed(Listing),
    /// One fraction over another number than 0.
    Fraction,
    /// One fraction that is less than a number.
    Below(u32),
    /// Degrees, minutes and seconds, which are at most so many degrees.
    Degrees(u32),
    /// Hours, minutes and seconds of a day.
    Clock,
    /// One of two letters.
    Letter(u8, u8),
    /// The letter of a unit: kilometres, miles or nautical miles.
    Unit,
}

/// Numbers that the standard lists for a tag.
#[derive(Clone, Copy)]
pub(crate) enum Listing {
    /// Those of MeteringMode.
    MeteringModes,
    /// Those of LightSource.
    LightSources,
    /// Those of Flash: its bits, without the combinations that are reserved.
    FlashStates,
    /// Those of ColorSpace.
    ColorSpaces,
    /// Those of SensingMethod.
    SensingMethods,
}

/// A tag, its type, and its values.
#[derive(Clone, Copy)]
pub(crate) struct Rule(Tag, FieldType, Form);

/// How the text of a tag's value is read.
#[derive(Clone, Copy, Debug, PartialEq, Eq)]
pub enum Spelling {
    /// It is not: no text sets the tag.
    Nothing,
    /// As a text, a date or a comment.
    Text,
    /// As whole numbers.
    Number,
    /// As fractions or decimals, or degrees.
    Fraction,
    /// As fractions or decimals with a sign.
    SignedFraction,
    /// As the bytes of the value.
    Bytes,
}

// The rules of the tags that a file can get.
fn rules() -> &'static [Rule]
    ensures { result.now ≡ rules }
{
    &[
        Rule(Tag::ImageDescription, FieldType::Ascii, Form::Any),
        Rule(Tag::Make, FieldType::Ascii, Form::Any),
        Rule(Tag::Model, FieldType::Ascii, Form::Any),
        Rule(Tag::Software, FieldType::Ascii, Form::Any),
        Rule(Tag::Artist, FieldType::Ascii, Form::Any),
        Rule(Tag::Copyright, FieldType::Ascii, Form::Any),
        Rule(Tag::DateTime, FieldType::Ascii, Form::Date),
        Rule(Tag::Orientation, FieldType::Short, Form::Within(1, 8)),
        Rule(Tag::XResolution, FieldType::Rational, Form::Fraction),
        Rule(Tag::YResolution, FieldType::Rational, Form::Fraction),
        Rule(Tag::ResolutionUnit, FieldType::Short, Form::Within(2, 3)),
        Rule(Tag::WhitePoint, FieldType::Rational, Form::Count(2, 2)),
        Rule(
            Tag::PrimaryChromaticities,
            FieldType::Rational,
            Form::Count(6, 6),
        ),
        Rule(
            Tag::YCbCrCoefficients,
            FieldType::Rational,
            Form::Count(3, 3),
        ),
        Rule(Tag::ExposureTime, FieldType::Rational, Form::Fraction),
        Rule(Tag::FNumber, FieldType::Rational, Form::Fraction),
        Rule(Tag::ExposureProgram, FieldType::Short, Form::Within(0, 8)),
        Rule(Tag::SpectralSensitivity, FieldType::Ascii, Form::Any),
        Rule(Tag::PhotographicSensitivity, FieldType::Short, Form::Any),
        Rule(Tag::SensitivityType, FieldType::Short, Form::Within(0, 7)),
        Rule(
            Tag::StandardOutputSensitivity,
            FieldType::Long,
            Form::Count(1, 1),
        ),
        Rule(
            Tag::RecommendedExposureIndex,
            FieldType::Long,
            Form::Count(1, 1),
        ),
        Rule(Tag::ISOSpeed, FieldType::Long, Form::Count(1, 1)),
        Rule(Tag::ISOSpeedLatitudeyyy, FieldType::Long, Form::Count(1, 1)),
        Rule(Tag::ISOSpeedLatitudezzz, FieldType::Long, Form::Count(1, 1)),
        Rule(Tag::DateTimeOriginal, FieldType::Ascii, Form::Date),
        Rule(Tag::DateTimeDigitized, FieldType::Ascii, Form::Date),
        Rule(Tag::OffsetTime, FieldType::Ascii, Form::Offset),
        Rule(Tag::OffsetTimeOriginal, FieldType::Ascii, Form::Offset),
        Rule(Tag::OffsetTimeDigitized, FieldType::Ascii, Form::Offset),
        Rule(
            Tag::CompressedBitsPerPixel,
            FieldType::Rational,
            Form::Fraction,
        ),
        Rule(Tag::ShutterSpeedValue, FieldType::SRational, Form::Fraction),
        Rule(Tag::ApertureValue, FieldType::Rational, Form::Fraction),
        Rule(Tag::BrightnessValue, FieldType::SRational, Form::Fraction),
        Rule(Tag::ExposureBiasValue, FieldType::SRational, Form::Fraction),
        Rule(Tag::MaxApertureValue, FieldType::Rational, Form::Fraction),
        Rule(Tag::SubjectDistance, FieldType::Rational, Form::Count(1, 1)),
        Rule(
            Tag::MeteringMode,
            FieldType::Short,
            Form::Listed(Listing::MeteringModes),
        ),
        Rule(
            Tag::LightSource,
            FieldType::Short,
            Form::Listed(Listing::LightSources),
        ),
        Rule(
            Tag::Flash,
            FieldType::Short,
            Form::Listed(Listing::FlashStates),
        ),
        Rule(Tag::FocalLength, FieldType::Rational, Form::Fraction),
        Rule(Tag::SubjectArea, FieldType::Short, Form::Count(2, 4)),
        Rule(Tag::UserComment, FieldType::Undefined, Form::Comment),
        Rule(Tag::SubSecTime, FieldType::Ascii, Form::Digits),
        Rule(Tag::SubSecTimeOriginal, FieldType::Ascii, Form::Digits),
        Rule(Tag::SubSecTimeDigitized, FieldType::Ascii, Form::Digits),
        Rule(Tag::Temperature, FieldType::SRational, Form::Fraction),
        Rule(Tag::Humidity, FieldType::Rational, Form::Fraction),
        Rule(Tag::Pressure, FieldType::Rational, Form::Fraction),
        Rule(Tag::WaterDepth, FieldType::SRational, Form::Fraction),
        Rule(Tag::Acceleration, FieldType::Rational, Form::Fraction),
        Rule(
            Tag::CameraElevationAngle,
            FieldType::SRational,
            Form::Fraction,
        ),
        Rule(
            Tag::ColorSpace,
            FieldType::Short,
            Form::Listed(Listing::ColorSpaces),
        ),
        Rule(Tag::RelatedSoundFile, FieldType::Ascii, Form::Count(13, 13)),
        Rule(Tag::FlashEnergy, FieldType::Rational, Form::Fraction),
        Rule(
            Tag::FocalPlaneXResolution,
            FieldType::Rational,
            Form::Fraction,
        ),
        Rule(
            Tag::FocalPlaneYResolution,
            FieldType::Rational,
            Form::Fraction,
        ),
        Rule(
            Tag::FocalPlaneResolutionUnit,
            FieldType::Short,
            Form::Within(2, 3),
        ),
        Rule(Tag::SubjectLocation, FieldType::Short, Form::Count(2, 2)),
        Rule(Tag::ExposureIndex, FieldType::Rational, Form::Fraction),
        Rule(
            Tag::SensingMethod,
            FieldType::Short,
            Form::Listed(Listing::SensingMethods),
        ),
        Rule(Tag::FileSource, FieldType::Undefined, Form::Within(0, 3)),
        Rule(Tag::SceneType, FieldType::Undefined, Form::Within(1, 1)),
        Rule(Tag::CustomRendered, FieldType::Short, Form::Within(0, 1)),
        Rule(Tag::ExposureMode, FieldType::Short, Form::Within(0, 2)),
        Rule(Tag::WhiteBalance, FieldType::Short, Form::Within(0, 1)),
        Rule(Tag::DigitalZoomRatio, FieldType::Rational, Form::Fraction),
        Rule(
            Tag::FocalLengthIn35mmFilm,
            FieldType::Short,
            Form::Count(1, 1),
        ),
        Rule(Tag::SceneCaptureType, FieldType::Short, Form::Within(0, 3)),
        Rule(Tag::GainControl, FieldType::Short, Form::Within(0, 4)),
        Rule(Tag::Contrast, FieldType::Short, Form::Within(0, 2)),
        Rule(Tag::Saturation, FieldType::Short, Form::Within(0, 2)),
        Rule(Tag::Sharpness, FieldType::Short, Form::Within(0, 2)),
        Rule(
            Tag::SubjectDistanceRange,
            FieldType::Short,
            Form::Within(0, 3),
        ),
        Rule(Tag::ImageUniqueID, FieldType::Ascii, Form::Count(33, 33)),
        Rule(Tag::CameraOwnerName, FieldType::Ascii, Form::Any),
        Rule(Tag::BodySerialNumber, FieldType::Ascii, Form::Any),
        Rule(
            Tag::LensSpecification,
            FieldType::Rational,
            Form::Count(4, 4),
        ),
        Rule(Tag::LensMake, FieldType::Ascii, Form::Any),
        Rule(Tag::LensModel, FieldType::Ascii, Form::Any),
        Rule(Tag::LensSerialNumber, FieldType::Ascii, Form::Any),
        Rule(Tag::CompositeImage, FieldType::Short, Form::Within(0, 3)),
        Rule(
            Tag::SourceImageNumberOfCompositeImage,
            FieldType::Short,
            Form::Count(2, 2),
        ),
        Rule(Tag::Gamma, FieldType::Rational, Form::Fraction),
        Rule(Tag::GPSVersionID, FieldType::Byte, Form::Count(4, 4)),
        Rule(
            Tag::GPSLatitudeRef,
            FieldType::Ascii,
            Form::Letter(b'N', b'S'),
        ),
        Rule(Tag::GPSLatitude, FieldType::Rational, Form::Degrees(90)),
        Rule(
            Tag::GPSLongitudeRef,
            FieldType::Ascii,
            Form::Letter(b'E', b'W'),
        ),
        Rule(Tag::GPSLongitude, FieldType::Rational, Form::Degrees(180)),
        Rule(Tag::GPSAltitudeRef, FieldType::Byte, Form::Within(0, 1)),
        Rule(Tag::GPSAltitude, FieldType::Rational, Form::Fraction),
        Rule(Tag::GPSTimeStamp, FieldType::Rational, Form::Clock),
        Rule(Tag::GPSSatellites, FieldType::Ascii, Form::Any),
        Rule(Tag::GPSStatus, FieldType::Ascii, Form::Letter(b'A', b'V')),
        Rule(
            Tag::GPSMeasureMode,
            FieldType::Ascii,
            Form::Letter(b'2', b'3'),
        ),
        Rule(Tag::GPSDOP, FieldType::Rational, Form::Fraction),
        Rule(Tag::GPSSpeedRef, FieldType::Ascii, Form::Unit),
        Rule(Tag::GPSSpeed, FieldType::Rational, Form::Fraction),
        Rule(Tag::GPSTrackRef, FieldType::Ascii, Form::Letter(b'T', b'M')),
        Rule(Tag::GPSTrack, FieldType::Rational, Form::Below(360)),
        Rule(
            Tag::GPSImgDirectionRef,
            FieldType::Ascii,
            Form::Letter(b'T', b'M'),
        ),
        Rule(Tag::GPSImgDirection, FieldType::Rational, Form::Below(360)),
        Rule(Tag::GPSMapDatum, FieldType::Ascii, Form::Any),
        Rule(
            Tag::GPSDestLatitudeRef,
            FieldType::Ascii,
            Form::Letter(b'N', b'S'),
        ),
        Rule(Tag::GPSDestLatitude, FieldType::Rational, Form::Degrees(90)),
        Rule(
            Tag::GPSDestLongitudeRef,
            FieldType::Ascii,
            Form::Letter(b'E', b'W'),
        ),
        Rule(
            Tag::GPSDestLongitude,
            FieldType::Rational,
            Form::Degrees(180),
        ),
        Rule(
            Tag::GPSDestBearingRef,
            FieldType::Ascii,
            Form::Letter(b'T', b'M'),
        ),
        Rule(Tag::GPSDestBearing, FieldType::Rational, Form::Below(360)),
        Rule(Tag::GPSDestDistanceRef, FieldType::Ascii, Form::Unit),
        Rule(Tag::GPSDestDistance, FieldType::Rational, Form::Fraction),
        Rule(
            Tag::GPSProcessingMethod,
            FieldType::Undefined,
            Form::Comment,
        ),
        Rule(Tag::GPSAreaInformation, FieldType::Undefined, Form::Comment),
        Rule(Tag::GPSDateStamp, FieldType::Ascii, Form::Day),
        Rule(Tag::GPSDifferential, FieldType::Short, Form::Within(0, 1)),
        Rule(
            Tag::GPSHPositioningError,
            FieldType::Rational,
            Form::Fraction,
        ),
    ]
}

// The rules of the tags that only change where a file has them: those that describe how the picture
// is stored, and those that only programs write.
fn kept_rules() -> &'static [Rule]
    ensures { result.now ≡ kept_rules }
{
    &[
        Rule(Tag::ImageWidth, FieldType::Long, Form::Count(1, 1)),
        Rule(Tag::ImageLength, FieldType::Long, Form::Count(1, 1)),
        Rule(Tag::BitsPerSample, FieldType::Short, Form::Any),
        Rule(Tag::Compression, FieldType::Short, Form::Count(1, 1)),
        Rule(
            Tag::PhotometricInterpretation,
            FieldType::Short,
            Form::Count(1, 1),
        ),
        Rule(Tag::SamplesPerPixel, FieldType::Short, Form::Count(1, 1)),
        Rule(Tag::RowsPerStrip, FieldType::Long, Form::Count(1, 1)),
        Rule(
            Tag::PlanarConfiguration,
            FieldType::Short,
            Form::Within(1, 2),
        ),
        Rule(Tag::TransferFunction, FieldType::Short, Form::Any),
        Rule(Tag::YCbCrSubSampling, FieldType::Short, Form::Count(2, 2)),
        Rule(Tag::YCbCrPositioning, FieldType::Short, Form::Within(1, 2)),
        Rule(Tag::ReferenceBlackWhite, FieldType::Rational, Form::Any),
        Rule(Tag::OECF, FieldType::Undefined, Form::Any),
        Rule(Tag::ExifVersion, FieldType::Undefined, Form::Count(4, 4)),
        Rule(
            Tag::ComponentsConfiguration,
            FieldType::Undefined,
            Form::Count(4, 4),
        ),
        Rule(Tag::MakerNote, FieldType::Undefined, Form::Nothing),
        Rule(
            Tag::FlashpixVersion,
            FieldType::Undefined,
            Form::Count(4, 4),
        ),
        Rule(Tag::PixelXDimension, FieldType::Long, Form::Count(1, 1)),
        Rule(Tag::PixelYDimension, FieldType::Long, Form::Count(1, 1)),
        Rule(
            Tag::SpatialFrequencyResponse,
            FieldType::Undefined,
            Form::Any,
        ),
        Rule(Tag::CFAPattern, FieldType::Undefined, Form::Any),
        Rule(
            Tag::DeviceSettingDescription,
            FieldType::Undefined,
            Form::Any,
        ),
        Rule(
            Tag::SourceExposureTimesOfCompositeImage,
            FieldType::Undefined,
            Form::Any,
        ),
        Rule(
            Tag::InteroperabilityIndex,
            FieldType::Ascii,
            Form::Count(4, 4),
        ),
        Rule(
            Tag::InteroperabilityVersion,
            FieldType::Undefined,
            Form::Count(4, 4),
        ),
        Rule(Tag::RelatedImageFileFormat, FieldType::Ascii, Form::Any),
        Rule(Tag::RelatedImageWidth, FieldType::Long, Form::Count(1, 1)),
        Rule(Tag::RelatedImageLength, FieldType::Long, Form::Count(1, 1)),
    ]
}

// The rule of a tag among some, if it has one.
fn rule_among(rules: &[Rule], tag: Tag) -> Option<Rule>
    ensures { result ≡ rule_among rules.now tag }
{
    rules.iter().copied().find(|rule| rule.0 == tag)
}

// The rule of a tag, if it has one.
fn rule_of(tag: Tag) -> Option<Rule>
    ensures { result ≡ rule_of tag }
{
    match rule_among(rules(), tag) {
        Some(rule) => Some(rule),
        None => rule_among(kept_rules(), tag),
    }
}

/// The type that a new field of a tag has, if a file can get one: not those that describe how the
/// picture is stored, and none whose values are offsets.
pub fn type_of_new(tag: Tag) -> Option<FieldType>
    ensures { result ≡ type_of_new tag }
{
    let rule = rule_among(rules(), tag)?;
    Some(rule.1)
}

/// What values a tag can have.
pub(crate) fn form_of(tag: Tag) -> Form
    ensures { result ≡ form_of tag }
{
    match rule_of(tag) {
        Some(rule) => rule.2,
        None => Form::Any,
    }
}

// How the text of a value is read by its type.
fn spelling_by(field_type: FieldType) -> Spelling
    ensures { result ≡ spelling_by field_type }
{
    match field_type {
        FieldType::Ascii => Spelling::Text,
        FieldType::Undefined => Spelling::Bytes,
        FieldType::Rational => Spelling::Fraction,
        FieldType::SRational => Spelling::SignedFraction,
        FieldType::Float | FieldType::Double => Spelling::Nothing,
        _ => Spelling::Number,
    }
}

/// How the text of a tag's value is read, where the field has the type of the standard.
pub fn spelling_of(tag: Tag) -> Spelling
    ensures { result ≡ spelling_of tag }
{
    match rule_of(tag) {
        None | Some(Rule(_, _, Form::Nothing)) => Spelling::Nothing,
        Some(Rule(_, _, Form::Comment)) => Spelling::Text,
        Some(Rule(_, _, Form::Within(_, _))) => Spelling::Number,
        Some(rule) => spelling_by(rule.1),
    }
}

//! Values that have a text of their own.

mod texts;

ghost use Rattle.std.specs.Prelude.{◌≡◌};
ghost use Rattle.std.specs.Option.{option_map};
ghost use Rattle.exif_table.specs.Fixed.{fixed_texts_of, texts_view};

use crate::kind::TextKind;

/// What of a value chooses its text.
#[derive(Clone, Copy, Debug, PartialEq, Eq)]
pub enum Choice {
    /// The first number of a list of whole numbers without sign.
    FirstNumber,
    /// The first byte of a list of bytes of any meaning.
    UndefinedByte,
    /// The only byte of the first text.
    Letter,
}

/// The texts of the values of one kind.
#[derive(Clone, Copy)]
pub struct FixedTexts {
    /// What the kind is called where a value has no text.
    pub name: &'static str,
    /// What of a value chooses its text.
    pub chosen_by: Choice,
    /// The texts by what chooses them: a number, or a letter's code.
    pub texts: &'static [(u32, &'static str)],
}

/// The texts of a kind, or `None` for a kind whose values have no texts of their own.
pub fn fixed_texts(kind: TextKind) -> Option<&'static FixedTexts>
    ensures { option_map (λ t. texts_view t.now) result ≡ fixed_texts_of kind }
{
    match kind {
        TextKind::Compression => Some(&texts::COMPRESSION),
        TextKind::PhotometricInterpretation => Some(&texts::PHOTOMETRIC_INTERPRETATION),
        TextKind::Orientation => Some(&texts::ORIENTATION),
        TextKind::PlanarConfiguration => Some(&texts::PLANAR_CONFIGURATION),
        TextKind::ResolutionUnit => Some(&texts::RESOLUTION_UNIT),
        TextKind::YCbCrPositioning => Some(&texts::YCBCR_POSITIONING),
        TextKind::ExposureProgram => Some(&texts::EXPOSURE_PROGRAM),
        TextKind::SensitivityType => Some(&texts::SENSITIVITY_TYPE),
        TextKind::MeteringMode => Some(&texts::METERING_MODE),
        TextKind::LightSource => Some(&texts::LIGHT_SOURCE),
        TextKind::ColorSpace => Some(&texts::COLOR_SPACE),
        TextKind::SensingMethod => Some(&texts::SENSING_METHOD),
        TextKind::FileSource => Some(&texts::FILE_SOURCE),
        TextKind::SceneType => Some(&texts::SCENE_TYPE),
        TextKind::CustomRendered => Some(&texts::CUSTOM_RENDERED),
        TextKind::ExposureMode => Some(&texts::EXPOSURE_MODE),
        TextKind::WhiteBalance => Some(&texts::WHITE_BALANCE),
        TextKind::SceneCaptureType => Some(&texts::SCENE_CAPTURE_TYPE),
        TextKind::GainControl => Some(&texts::GAIN_CONTROL),
        TextKind::Contrast => Some(&texts::CONTRAST),
        TextKind::Sharpness => Some(&texts::SHARPNESS),
        TextKind::Saturation => Some(&texts::SATURATION),
        TextKind::SubjectDistanceRange => Some(&texts::SUBJECT_DISTANCE_RANGE),
        TextKind::CompositeImage => Some(&texts::COMPOSITE_IMAGE),
        TextKind::GpsAltitudeRef => Some(&texts::GPS_ALTITUDE_REF),
        TextKind::GpsDifferential => Some(&texts::GPS_DIFFERENTIAL),
        TextKind::GpsStatus => Some(&texts::GPS_STATUS),
        TextKind::GpsMeasureMode => Some(&texts::GPS_MEASURE_MODE),
        TextKind::GpsSpeedRef => Some(&texts::GPS_SPEED_REF),
        TextKind::GpsDirectionRef => Some(&texts::GPS_DIRECTION_REF),
        TextKind::GpsDistanceRef => Some(&texts::GPS_DISTANCE_REF),
        _ => None,
    }
}

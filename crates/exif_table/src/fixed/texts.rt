//! The fixed texts, by number or letter (TIFF 6.0, section 8; Exif 2.32, sections 4.6.4 to 4.6.6).

use crate::fixed::{Choice, FixedTexts};

pub(crate) static COMPRESSION: FixedTexts = FixedTexts {
    name: "compression",
    chosen_by: Choice::FirstNumber,
    texts: &[
        (1, "uncompressed"),
        (2, "Modified Huffman"),
        (6, "JPEG"),
        (32773, "PackBits"),
    ],
};

pub(crate) static PHOTOMETRIC_INTERPRETATION: FixedTexts = FixedTexts {
    name: "photometric interpretation",
    chosen_by: Choice::FirstNumber,
    texts: &[
        (0, "white is zero"),
        (1, "black is zero"),
        (2, "RGB"),
        (3, "palette color"),
        (4, "transparency mask"),
        (6, "YCbCr"),
    ],
};

pub(crate) static ORIENTATION: FixedTexts = FixedTexts {
    name: "orientation",
    chosen_by: Choice::FirstNumber,
    texts: &[
        (1, "row 0 at top and column 0 at left"),
        (2, "row 0 at top and column 0 at right"),
        (3, "row 0 at bottom and column 0 at right"),
        (4, "row 0 at bottom and column 0 at left"),
        (5, "row 0 at left and column 0 at top"),
        (6, "row 0 at right and column 0 at top"),
        (7, "row 0 at right and column 0 at bottom"),
        (8, "row 0 at left and column 0 at bottom"),
    ],
};

pub(crate) static PLANAR_CONFIGURATION: FixedTexts = FixedTexts {
    name: "planar configuration",
    chosen_by: Choice::FirstNumber,
    texts: &[(1, "chunky"), (2, "planar")],
};

pub(crate) static RESOLUTION_UNIT: FixedTexts = FixedTexts {
    name: "resolution unit",
    chosen_by: Choice::FirstNumber,
    texts: &[(1, "no absolute unit"), (2, "inch"), (3, "cm")],
};

pub(crate) static YCBCR_POSITIONING: FixedTexts = FixedTexts {
    name: "YCbCr positioning",
    chosen_by: Choice::FirstNumber,
    texts: &[(1, "centered"), (2, "co-sited")],
};

pub(crate) static EXPOSURE_PROGRAM: FixedTexts = FixedTexts {
    name: "exposure program",
    chosen_by: Choice::FirstNumber,
    texts: &[
        (0, "not defined"),
        (1, "manual"),
        (2, "normal program"),
        (3, "aperture priority"),
        (4, "shutter priority"),
        (5, "creative program"),
        (6, "action program"),
        (7, "portrait mode"),
        (8, "landscape mode"),
    ],
};

pub(crate) static SENSITIVITY_TYPE: FixedTexts = FixedTexts {
    name: "sensitivity type",
    chosen_by: Choice::FirstNumber,
    texts: &[
        (0, "unknown"),
        (1, "SOS"),
        (2, "REI"),
        (3, "ISO speed"),
        (4, "SOS/REI"),
        (5, "SOS/ISO speed"),
        (6, "REI/ISO speed"),
        (7, "SOS/REI/ISO speed"),
    ],
};

pub(crate) static METERING_MODE: FixedTexts = FixedTexts {
    name: "metering mode",
    chosen_by: Choice::FirstNumber,
    texts: &[
        (0, "unknown"),
        (1, "average"),
        (2, "center-weighted average"),
        (3, "spot"),
        (4, "multi-spot"),
        (5, "pattern"),
        (6, "partial"),
        (255, "other"),
    ],
};

pub(crate) static LIGHT_SOURCE: FixedTexts = FixedTexts {
    name: "light source",
    chosen_by: Choice::FirstNumber,
    texts: &[
        (0, "unknown"),
        (1, "daylight"),
        (2, "fluorescent"),
        (3, "tungsten"),
        (4, "flash"),
        (9, "fine weather"),
        (10, "cloudy weather"),
        (11, "shade"),
        (12, "daylight fluorescent (D 5700-7100K)"),
        (13, "day white fluorescent (N 4600-5500K)"),
        (14, "cool white fluorescent (W 3800-4500K)"),
        (15, "white fluorescent (WW 3250-3800K)"),
        (16, "warm white fluorescent (L 2600-3250K)"),
        (17, "standard light A"),
        (18, "standard light B"),
        (19, "standard light C"),
        (20, "D55"),
        (21, "D65"),
        (22, "D75"),
        (23, "D50"),
        (24, "ISO studio tungsten"),
        (255, "other"),
    ],
};

pub(crate) static COLOR_SPACE: FixedTexts = FixedTexts {
    name: "color space",
    chosen_by: Choice::FirstNumber,
    texts: &[(1, "sRGB"), (65535, "uncalibrated")],
};

pub(crate) static SENSING_METHOD: FixedTexts = FixedTexts {
    name: "sensing method",
    chosen_by: Choice::FirstNumber,
    texts: &[
        (1, "not defined"),
        (2, "one-chip color area sensor"),
        (3, "two-chip color area sensor"),
        (4, "three-chip color area sensor"),
        (5, "color sequential area sensor"),
        (7, "trilinear sensor"),
        (8, "color sequential linear sensor"),
    ],
};

pub(crate) static FILE_SOURCE: FixedTexts = FixedTexts {
    name: "file source",
    chosen_by: Choice::UndefinedByte,
    texts: &[
        (0, "others"),
        (1, "transparency scanner"),
        (2, "reflective scanner"),
        (3, "digital still camera"),
    ],
};

pub(crate) static SCENE_TYPE: FixedTexts = FixedTexts {
    name: "scene type",
    chosen_by: Choice::UndefinedByte,
    texts: &[(1, "directly photographed image")],
};

pub(crate) static CUSTOM_RENDERED: FixedTexts = FixedTexts {
    name: "custom rendered",
    chosen_by: Choice::FirstNumber,
    texts: &[(0, "normal process"), (1, "custom process")],
};

pub(crate) static EXPOSURE_MODE: FixedTexts = FixedTexts {
    name: "exposure mode",
    chosen_by: Choice::FirstNumber,
    texts: &[
        (0, "auto exposure"),
        (1, "manual exposure"),
        (2, "auto bracket"),
    ],
};

pub(crate) static WHITE_BALANCE: FixedTexts = FixedTexts {
    name: "white balance mode",
    chosen_by: Choice::FirstNumber,
    texts: &[(0, "auto white balance"), (1, "manual white balance")],
};

pub(crate) static SCENE_CAPTURE_TYPE: FixedTexts = FixedTexts {
    name: "scene capture type",
    chosen_by: Choice::FirstNumber,
    texts: &[
        (0, "standard"),
        (1, "landscape"),
        (2, "portrait"),
        (3, "night scene"),
    ],
};

pub(crate) static GAIN_CONTROL: FixedTexts = FixedTexts {
    name: "gain control",
    chosen_by: Choice::FirstNumber,
    texts: &[
        (0, "none"),
        (1, "low gain up"),
        (2, "high gain up"),
        (3, "low gain down"),
        (4, "high gain down"),
    ],
};

pub(crate) static CONTRAST: FixedTexts = FixedTexts {
    name: "contrast processing",
    chosen_by: Choice::FirstNumber,
    texts: &[(0, "normal"), (1, "soft"), (2, "hard")],
};

pub(crate) static SHARPNESS: FixedTexts = FixedTexts {
    name: "sharpness processing",
    chosen_by: Choice::FirstNumber,
    texts: &[(0, "normal"), (1, "soft"), (2, "hard")],
};

pub(crate) static SATURATION: FixedTexts = FixedTexts {
    name: "saturation processing",
    chosen_by: Choice::FirstNumber,
    texts: &[(0, "normal"), (1, "low saturation"), (2, "high saturation")],
};

pub(crate) static SUBJECT_DISTANCE_RANGE: FixedTexts = FixedTexts {
    name: "subject distance range",
    chosen_by: Choice::FirstNumber,
    texts: &[
        (0, "unknown"),
        (1, "macro"),
        (2, "close view"),
        (3, "distant view"),
    ],
};

pub(crate) static COMPOSITE_IMAGE: FixedTexts = FixedTexts {
    name: "composite image",
    chosen_by: Choice::FirstNumber,
    texts: &[
        (0, "unknown"),
        (1, "non-composite"),
        (2, "composite (general)"),
        (3, "composite (at the moment of shooting)"),
    ],
};

pub(crate) static GPS_ALTITUDE_REF: FixedTexts = FixedTexts {
    name: "GPS altitude ref",
    chosen_by: Choice::FirstNumber,
    texts: &[(0, "above sea level"), (1, "below sea level")],
};

pub(crate) static GPS_DIFFERENTIAL: FixedTexts = FixedTexts {
    name: "GPS differential correction",
    chosen_by: Choice::FirstNumber,
    texts: &[
        (0, "no differential correction"),
        (1, "differential correction applied"),
    ],
};

pub(crate) static GPS_STATUS: FixedTexts = FixedTexts {
    name: "GPS status",
    chosen_by: Choice::Letter,
    texts: &[
        (b'A' as u32, "measurement in progress"),
        (b'V' as u32, "measurement interrupted"),
    ],
};

pub(crate) static GPS_MEASURE_MODE: FixedTexts = FixedTexts {
    name: "GPS measurement mode",
    chosen_by: Choice::Letter,
    texts: &[
        (b'2' as u32, "2-dimensional measurement"),
        (b'3' as u32, "3-dimensional measurement"),
    ],
};

pub(crate) static GPS_SPEED_REF: FixedTexts = FixedTexts {
    name: "GPS speed ref",
    chosen_by: Choice::Letter,
    texts: &[
        (b'K' as u32, "km/h"),
        (b'M' as u32, "mph"),
        (b'N' as u32, "knots"),
    ],
};

pub(crate) static GPS_DIRECTION_REF: FixedTexts = FixedTexts {
    name: "GPS direction ref",
    chosen_by: Choice::Letter,
    texts: &[
        (b'T' as u32, "true direction"),
        (b'M' as u32, "magnetic direction"),
    ],
};

pub(crate) static GPS_DISTANCE_REF: FixedTexts = FixedTexts {
    name: "GPS distance ref",
    chosen_by: Choice::Letter,
    texts: &[
        (b'K' as u32, "km"),
        (b'M' as u32, "miles"),
        (b'N' as u32, "nautical miles"),
    ],
};

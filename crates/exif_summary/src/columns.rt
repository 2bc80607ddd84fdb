//! The columns of a catalogue: what is asked of a picture, each as one number or one text.

ghost use Rattle.std.specs.Prelude.{◌≡◌, option_map, Some};
ghost use Rattle.exif_summary.specs.Columns as Shown;
ghost use Rattle.exif_summary.specs.Columns.{altitude_of, cell_of, cell_view, date_shown, decimal_in, degrees_shown, either_number, first_fraction, fraction_found, has_thumbnail, is_below, name_of};
ghost use Rattle.exif_summary.specs.Finding.{number_of};
ghost use Rattle.exif_summary.specs.Seen.{degrees_view};

use crate::angles::{Degrees, LATITUDE, LONGITUDE};
use crate::dates::{CHANGED, DIGITIZED, Iso, Moment, TAKEN, find_date, find_fraction};
use crate::looking::{find_degrees, find_number, find_orientation, find_text, find_value};
use exif_text::{Decimal, Rational};
use exif_types::{Exif, In, Tag, Value};
use std::fmt;

/// What is asked of a picture.
#[derive(Clone, Copy, Debug, PartialEq, Eq)]
pub enum Column {
    /// Its width in pixels.
    Width,
    /// Its height in pixels.
    Height,
    /// Which of the eight orientations it has.
    Orientation,
    /// The maker of the camera.
    Make,
    /// The model of the camera.
    Model,
    /// The model of the lens.
    Lens,
    /// The serial number of the camera.
    BodySerial,
    /// The serial number of the lens.
    LensSerial,
    /// When it was taken, as `2016-05-04T03:02:01.74+09:00`.
    Taken,
    /// When it was digitized.
    Digitized,
    /// When its file was changed, as Exif has it.
    Changed,
    /// The exposure time in seconds.
    Exposure,
    /// The f-number.
    FNumber,
    /// The sensitivity as ISO 12232 has it.
    Sensitivity,
    /// The focal length in millimetres.
    FocalLength,
    /// The focal length for a film of 35 mm, in millimetres.
    FocalLength35,
    /// The latitude in degrees, negative in the south.
    Latitude,
    /// The longitude in degrees, negative in the west.
    Longitude,
    /// The altitude in metres, negative below sea level.
    Altitude,
    /// Who made it.
    Artist,
    /// Who has the rights.
    Copyright,
    /// What it shows.
    Description,
    /// Whether it has a thumbnail: 1 if it has.
    Thumbnail,
}

/// All columns, in their order.
pub const COLUMNS: [Column; 23] = [
    Column::Width,
    Column::Height,
    Column::Orientation,
    Column::Make,
    Column::Model,
    Column::Lens,
    Column::BodySerial,
    Column::LensSerial,
    Column::Taken,
    Column::Digitized,
    Column::Changed,
    Column::Exposure,
    Column::FNumber,
    Column::Sensitivity,
    Column::FocalLength,
    Column::FocalLength35,
    Column::Latitude,
    Column::Longitude,
    Column::Altitude,
    Column::Artist,
    Column::Copyright,
    Column::Description,
    Column::Thumbnail,
];

impl Column {
    /// Its name in tables.
    pub fn name(self) -> &'static str
        ensures { result.now ≡ name_of self }
    {
        match self {
            Column::Width => "width",
            Column::Height => "height",
            Column::Orientation => "orientation",
            Column::Make => "make",
            Column::Model => "model",
            Column::Lens => "lens",
            Column::BodySerial => "body_serial",
            Column::LensSerial => "lens_serial",
            Column::Taken => "date_taken",
            Column::Digitized => "date_digitized",
            Column::Changed => "date_modified",
            Column::Exposure => "exposure_time",
            Column::FNumber => "f_number",
            Column::Sensitivity => "iso",
            Column::FocalLength => "focal_length",
            Column::FocalLength35 => "focal_length_35mm",
            Column::Latitude => "latitude",
            Column::Longitude => "longitude",
            Column::Altitude => "altitude",
            Column::Artist => "artist",
            Column::Copyright => "copyright",
            Column::Description => "description",
            Column::Thumbnail => "has_thumbnail",
        }
    }
}

/// An altitude in metres: a decimal, below sea level with a minus sign.
#[derive(Clone, Copy)]
pub struct Height {
    /// Whether it is below sea level.
    pub is_below: bool,
    /// How far from it.
    pub metres: Decimal,
}

impl fmt::Display for Height {
    ghost use Rattle.exif_summary.specs.Columns.{height_shown};

    ghost output = { λ h. Some (height_shown h) };

    fn fmt<W: fmt::Write>(&self, f: &mut fmt::Formatter<W>) -> fmt::Result {
        if self.is_below {
            f.write_str("-")?;
        }
        let metres = self.metres;
        write!(f, "{metres}")
    }
}

/// What a picture says.
#[derive(Clone, Copy)]
pub enum Cell<'a> {
    /// A whole number.
    Number(u32),
    /// A decimal number.
    Decimal(Decimal),
    /// Degrees with seven digits behind the point.
    Degrees(Degrees),
    /// Metres above or below sea level.
    Height(Height),
    /// Bytes of a text, in an encoding that is not known.
    Text(&'a [u8]),
    /// A date.
    Date(Iso<'a>),
}

// A whole number, if there is one.
fn number<'a>(number: Option<u32>) -> Option<Cell<'a>>
    ensures { option_map cell_view result ≡ option_map (λ n. Shown.whole n) number }
{
    Some(Cell::Number(number?))
}

// A text, if there is one.
fn text<'a>(bytes: Option<&'a [u8]>) -> Option<Cell<'a>>
    ensures { option_map cell_view result
        ≡ option_map (λ b. Shown.bytes b) (option_map (λ b. b.now) bytes.entry) }
{
    Some(Cell::Text(bytes?))
}

/// A number of the picture's own size, else of the image's.
pub fn find_either(exif: &Exif, own: Tag, whole: Tag) -> Option<u32>
    ensures { result ≡ either_number (number_of exif.now.fields own.0 own.1)
        (number_of exif.now.fields whole.0 whole.1) }
{
    match find_number(exif, own) {
        Some(n) => Some(n),
        None => find_number(exif, whole),
    }
}

// The first fraction of a value of fractions, if it is not over 0.
fn first_fraction(value: &Value) -> Option<Rational>
    ensures { result ≡ first_fraction value.now }
{
    let Value::Rational(fractions) = value else {
        return None;
    };
    match fractions.as_slice().first() {
        Some(fraction) if fraction.denom != 0 => Some(*fraction),
        _ => None,
    }
}

// The first fraction of a tag.
fn find_fraction_of(exif: &Exif, tag: Tag) -> Option<Rational>
    ensures { result ≡ fraction_found exif.now.fields tag.0 tag.1 }
{
    first_fraction(find_value(exif, tag)?)
}

// A decimal number, if there is one.
fn decimal<'a>(fraction: Option<Rational>) -> Option<Cell<'a>>
    ensures { option_map cell_view result ≡ decimal_in fraction }
{
    let fraction = fraction?;
    Some(Cell::Decimal(fraction.decimal()))
}

// A coordinate, if there is one.
fn degrees<'a>(coordinate: Option<Degrees>) -> Option<Cell<'a>>
    ensures { option_map cell_view result ≡ degrees_shown (option_map degrees_view coordinate) }
{
    Some(Cell::Degrees(coordinate?))
}

// A date, if there is one.
fn date<'a>(exif: &'a Exif, moment: Moment) -> Option<Cell<'a>>
    ensures { option_map cell_view result ≡ date_shown exif.now.fields moment }
{
    let date = find_date(exif, moment)?;
    let fraction = find_fraction(exif, moment);
    Some(Cell::Date(Iso { date, fraction }))
}

// Whether an altitude is below sea level.
fn is_below(reference: Option<u32>) -> bool
    ensures { result ≡ is_below reference }
{
    matches!(reference, Some(1 | 3))
}

// The altitude, if it is known.
fn altitude<'a>(exif: &Exif) -> Option<Cell<'a>>
    ensures { option_map cell_view result ≡ altitude_of exif.now.fields }
{
    let metres = find_fraction_of(exif, Tag::GPSAltitude)?.decimal();
    let is_below = is_below(find_number(exif, Tag::GPSAltitudeRef));
    Some(Cell::Height(Height { is_below, metres }))
}

// Whether a picture has a thumbnail.
fn has_thumbnail(exif: &Exif) -> bool
    ensures { result ≡ has_thumbnail exif.now.fields }
{
    exif.get_field(Tag::JPEGInterchangeFormat, In::THUMBNAIL)
        .is_some()
}

/// What a picture says of a column; `None` where it says nothing, or nothing that has a meaning: a
/// date that the calendar does not have, a fraction over 0, a ninth orientation.
pub fn find_cell<'a>(exif: &'a Exif, column: Column) -> Option<Cell<'a>>
    ensures { option_map cell_view result ≡ cell_of exif.now.fields column }
{
    match column {
        Column::Width => number(find_either(exif, Tag::PixelXDimension, Tag::ImageWidth)),
        Column::Height => number(find_either(exif, Tag::PixelYDimension, Tag::ImageLength)),
        Column::Orientation => number(find_orientation(exif)),
        Column::Make => text(find_text(exif, Tag::Make)),
        Column::Model => text(find_text(exif, Tag::Model)),
        Column::Lens => text(find_text(exif, Tag::LensModel)),
        Column::BodySerial => text(find_text(exif, Tag::BodySerialNumber)),
        Column::LensSerial => text(find_text(exif, Tag::LensSerialNumber)),
        Column::Taken => date(exif, TAKEN),
        Column::Digitized => date(exif, DIGITIZED),
        Column::Changed => date(exif, CHANGED),
        Column::Exposure => decimal(find_fraction_of(exif, Tag::ExposureTime)),
        Column::FNumber => decimal(find_fraction_of(exif, Tag::FNumber)),
        Column::Sensitivity => number(find_number(exif, Tag::PhotographicSensitivity)),
        Column::FocalLength => decimal(find_fraction_of(exif, Tag::FocalLength)),
        Column::FocalLength35 => number(find_number(exif, Tag::FocalLengthIn35mmFilm)),
        Column::Latitude => degrees(find_degrees(exif, &LATITUDE)),
        Column::Longitude => degrees(find_degrees(exif, &LONGITUDE)),
        Column::Altitude => altitude(exif),
        Column::Artist => text(find_text(exif, Tag::Artist)),
        Column::Copyright => text(find_text(exif, Tag::Copyright)),
        Column::Description => text(find_text(exif, Tag::ImageDescription)),
        Column::Thumbnail => number(Some(u32::from(has_thumbnail(exif)))),
    }
}

//! The text of a value by the kind of its tag.

ghost use Rattle.std.specs.Fmt.{WritesOnOk};
ghost use Rattle.exif_text.specs.Contents.{contents_view};
ghost use Rattle.exif_table.specs.Kinds.{date_value_text, value_text};

use crate::display::fixed::write_fixed;
use crate::display::flash::write_flash;
use crate::display::fractions::{
    write_decimals, write_degrees, write_exposure_time, write_lens, write_optional_decimal,
    write_subject_distance, write_time_stamp, write_zoom_ratio,
};
use crate::display::letters::{
    write_capital, write_components, write_date_stamp, write_undefined_text,
};
use crate::display::numbers::{write_area, write_counts, write_focal_length, write_sampling};
use crate::display::versions::{write_exif_version, write_gps_version, write_interop_version};
use crate::{TextKind, fixed_texts};
use exif_text::clock::write_date_time;
use exif_text::date::read_date_time;
use exif_text::plain::write_plain;
use exif_text::{Contents, DateFault};
use std::fmt;

/// Writes a value as the kind of its tag says; where the value is not as the kind requires, its
/// plain text. Takes no notice of a width.
pub fn write_value<W: fmt::Write>(
    f: &mut fmt::Formatter<W>,
    kind: TextKind,
    contents: Contents<'_>,
) -> fmt::Result
    ensures { WritesOnOk W.write_str_gives f.old result
        (value_text kind (contents_view contents.entry)) f.new }
{
    match kind {
        TextKind::Plain => write_plain(f, contents),
        TextKind::Decimal => write_decimals(f, contents),
        TextKind::OptionalDecimal => write_optional_decimal(f, contents),
        TextKind::ExposureTime => write_exposure_time(f, contents),
        TextKind::SubjectDistance => write_subject_distance(f, contents),
        TextKind::DigitalZoomRatio => write_zoom_ratio(f, contents),
        TextKind::FocalLength35mm => write_focal_length(f, contents),
        TextKind::DateTime => write_date_value(f, contents),
        TextKind::ExifVersion => write_exif_version(f, contents),
        TextKind::InteropVersion => write_interop_version(f, contents),
        TextKind::ComponentsConfiguration => write_components(f, contents),
        TextKind::YCbCrSubSampling => write_sampling(f, contents),
        TextKind::SubjectArea => write_area(f, contents),
        TextKind::CompositeImageCounts => write_counts(f, contents),
        TextKind::Flash => write_flash(f, contents),
        TextKind::LensSpecification => write_lens(f, contents),
        TextKind::GpsDegrees => write_degrees(f, contents),
        TextKind::GpsTimeStamp => write_time_stamp(f, contents),
        TextKind::GpsVersion => write_gps_version(f, contents),
        TextKind::GpsLatLongRef => write_capital(f, contents),
        TextKind::GpsDateStamp => write_date_stamp(f, contents),
        TextKind::UndefinedText => write_undefined_text(f, contents),
        _ => match fixed_texts(kind) {
            Some(texts) => write_fixed(f, texts, contents),
            None => write_plain(f, contents),
        },
    }
}

/// Writes a date with its time of day, or that it is unknown.
fn write_date_value<W: fmt::Write>(f: &mut fmt::Formatter<W>, contents: Contents<'_>) -> fmt::Result
    ensures { WritesOnOk W.write_str_gives f.old result
        (date_value_text (contents_view contents.entry)) f.new }
{
    let Some(text) = contents.first_text() else {
        return write_plain(f, contents);
    };
    match read_date_time(text) {
        Ok((date, time)) => write_date_time(f, date, time),
        Err(DateFault::BlankDate) => f.write_str("unknown"),
        Err(_) => write_plain(f, contents),
    }
}

//! When a picture was taken, as ISO 8601 writes it.

ghost use Rattle.std.specs.Prelude.{◌≡◌, ◌++◌, ◌≤◌, ◌==◌, length, not, Some, codes};
ghost use Rattle.std.specs.Fmt.{WritesOnOk};
ghost use Rattle.std.specs.Char.{is_ascii_digit};
ghost use Rattle.std.specs.List.{list_all, prefix_len};
ghost use Rattle.exif_text.specs.Clock.{date_text, time_text};
ghost use Rattle.exif_text.specs.Subsec.{subsec_bytes};
ghost use Rattle.exif_datetime.specs.Dates.{calendar_date, time_of_day};
ghost use Rattle.exif_summary.specs.Dates.{date_of, fraction_digits, fraction_of, fraction_text, is_calendar_day, is_clock_time, iso_text, minutes_text, offset_text};

use crate::looking::find_text;
use exif_datetime::{DateTime, is_day};
use exif_text::clock::{write_date, write_time};
use exif_text::date::{Date, TimeOfDay};
use exif_types::{Exif, Tag};
use std::fmt;

/// How many minutes a day has.
const DAY: u16 = 1440;

/// A date that is shown as `2016-05-04T03:02:01.74+09:00`, without what is not known.
#[derive(Clone, Copy)]
pub struct Iso<'a> {
    /// The date, its time of day, and its offset from UTC.
    pub date: DateTime,
    /// The digits of the fraction of its second.
    pub fraction: &'a str,
}

impl fmt::Display for Iso<'_> {
    ghost output = { λ d. Some (iso_text d.fraction.now d.date) };

    fn fmt<W: fmt::Write>(&self, f: &mut fmt::Formatter<W>) -> fmt::Result {
        write_day(f, self.date)?;
        write_clock(f, self.date)?;
        write_fraction(f, self.fraction)?;
        write_offset(f, self.date.offset)
    }
}

/// The day of a date.
fn day(d: DateTime) -> Date
    ensures { result ≡ calendar_date d }
{
    Date {
        year: d.year,
        month: d.month,
        day: d.day,
    }
}

/// Writes `2016-05-04`.
fn write_day<W: fmt::Write>(f: &mut fmt::Formatter<W>, d: DateTime) -> fmt::Result
    ensures { WritesOnOk W.write_str_gives f.old result (date_text (calendar_date d)) f.new }
{
    write_date(f, day(d))
}

/// Writes the time of day behind a `T`.
fn write_clock<W: fmt::Write>(f: &mut fmt::Formatter<W>, d: DateTime) -> fmt::Result
    ensures { WritesOnOk W.write_str_gives f.old result
        (codes "T" ++ time_text (time_of_day d)) f.new }
{
    f.write_str("T")?;
    let time = TimeOfDay {
        hour: d.hour,
        minute: d.minute,
        second: d.second,
    };
    write_time(f, time)
}

/// Writes `.74`.
fn write_fraction<W: fmt::Write>(f: &mut fmt::Formatter<W>, digits: &str) -> fmt::Result
    ensures { WritesOnOk W.write_str_gives f.old result (fraction_text digits.now) f.new }
{
    if digits.is_empty() {
        Ok(())
    } else {
        write!(f, ".{digits}")
    }
}

/// Writes `+09:00`, if it is less than a day.
fn write_offset<W: fmt::Write>(f: &mut fmt::Formatter<W>, offset: Option<i16>) -> fmt::Result
    ensures { WritesOnOk W.write_str_gives f.old result (offset_text offset) f.new }
{
    match offset {
        Some(minutes) if minutes.unsigned_abs() < DAY => {
            write_minutes(f, minutes < 0, minutes.unsigned_abs())
        }
        _ => Ok(()),
    }
}

/// Writes the minutes of an offset, with their sign.
fn write_minutes<W: fmt::Write>(
    f: &mut fmt::Formatter<W>,
    negative: bool,
    minutes: u16,
) -> fmt::Result
    ensures { WritesOnOk W.write_str_gives f.old result (minutes_text negative minutes) f.new }
{
    let sign = if negative { '-' } else { '+' };
    write!(f, "{sign}{:02}:{:02}", minutes / 60, minutes % 60)
}

/// Whether the calendar has a day.
fn is_calendar_day(d: DateTime) -> bool
    ensures { result ≡ is_calendar_day d }
{
    is_day(day(d))
}

/// Whether a day has a time, which may be a leap second.
fn is_clock_time(d: DateTime) -> bool
    ensures { result ≡ is_clock_time d }
{
    d.hour < 24 && d.minute < 60 && d.second < 61
}

/// The tags of a date: its own, and those of its offset from UTC and of the fraction of its second.
#[derive(Clone, Copy)]
pub struct Moment {
    /// The tag of the date.
    pub date: Tag,
    /// The tag of its offset from UTC.
    pub offset: Tag,
    /// The tag of the fraction of its second.
    pub fraction: Tag,
}

/// When the picture was taken.
pub const TAKEN: Moment = Moment {
    date: Tag::DateTimeOriginal,
    offset: Tag::OffsetTimeOriginal,
    fraction: Tag::SubSecTimeOriginal,
};

/// When it was digitized.
pub const DIGITIZED: Moment = Moment {
    date: Tag::DateTimeDigitized,
    offset: Tag::OffsetTimeDigitized,
    fraction: Tag::SubSecTimeDigitized,
};

/// When its file was changed.
pub const CHANGED: Moment = Moment {
    date: Tag::DateTime,
    offset: Tag::OffsetTime,
    fraction: Tag::SubSecTime,
};

/// The date of a picture, if the calendar has it, and a day its time; its offset from UTC if it can
/// be read.
pub fn find_date(exif: &Exif, moment: Moment) -> Option<DateTime>
    ensures { result ≡ date_of exif.now.fields moment }
{
    let Ok(mut date) = DateTime::from_ascii(find_text(exif, moment.date)?) else {
        return None;
    };
    if let Some(text) = find_text(exif, moment.offset) {
        let _ = date.parse_offset(text);
    }
    if is_calendar_day(date) && is_clock_time(date) {
        Some(date)
    } else {
        None
    }
}

/// The bytes that count of a fraction's text: up to nine, before the first space.
fn subsec_bytes(text: &[u8]) -> &[u8]
    ensures { result.now ≡ subsec_bytes text.now }
{
    let first = &text[..text.len().min(9)];
    &first[..length_before_space(first)]
}

/// How many bytes are before the first space.
fn length_before_space(bytes: &[u8]) -> usize
    ensures len { result ≡ prefix_len (λ b. not (b == 32)) bytes.now }
    ensures within { result ≤ length bytes.now }
{
    bytes.iter().take_while(|byte| **byte != b' ').count()
}

fn are_digits(bytes: &[u8]) -> bool
    ensures { result ≡ list_all is_ascii_digit bytes.now }
{
    bytes.iter().all(|byte| byte.is_ascii_digit())
}

/// The digits of a fraction's text, none if other bytes are among those that count.
fn fraction_digits(text: &[u8]) -> &str
    ensures { result.now ≡ fraction_digits text.now }
{
    let bytes = subsec_bytes(text);
    if !are_digits(bytes) {
        return "";
    }
    match std::str::from_utf8(bytes) {
        Ok(digits) => digits,
        Err(_) => "",
    }
}

/// The digits of the fraction of the second, as many as the file has.
pub fn find_fraction(exif: &Exif, moment: Moment) -> &str
    ensures { result.now ≡ fraction_of exif.now.fields moment }
{
    match find_text(exif, moment.fraction) {
        Some(text) => fraction_digits(text),
        None => "",
    }
}

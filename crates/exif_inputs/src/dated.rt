//! Names of files that say a day.

ghost use Rattle.std.specs.Prelude.{◌≡◌, map, string_bytes};
ghost use Rattle.exif_inputs.specs.Dated.{begins_joined, begins_marked, dated_count, is_calendar_day, is_mark, names_day, names_day_from};

use exif_datetime::{is_day, number_below};
use exif_decisions::name_of;
use exif_text::date::Date;

// The year of the first photograph that is kept.
const FIRST_YEAR: u64 = 1826;
// The first year that no name is taken for.
const YEARS: u64 = 2100;

// Whether digits spell a day of the calendar, in a year that has photographs.
fn is_calendar_day(year: &[u8], month: &[u8], day: &[u8]) -> bool
    ensures { result ≡ is_calendar_day year.now month.now day.now }
{
    let Some(year) = number_below(YEARS, year) else {
        return false;
    };
    let Some(month) = number_below(13, month) else {
        return false;
    };
    let Some(day) = number_below(32, day) else {
        return false;
    };
    let date = Date {
        year: year as u16,
        month: month as u8,
        day: day as u8,
    };
    FIRST_YEAR <= year && is_day(date)
}

// Whether bytes begin with the eight digits of a day.
fn begins_joined(bytes: &[u8]) -> bool
    ensures { result ≡ begins_joined bytes.now }
{
    bytes.len() >= 8 && is_calendar_day(&bytes[..4], &bytes[4..6], &bytes[6..8])
}

// Whether a byte stands between year, month and day.
fn is_mark(byte: u8) -> bool
    ensures { result ≡ is_mark byte }
{
    matches!(byte, b'-' | b'_' | b'.')
}

// Whether bytes begin with a day whose year, month and day have a mark between them.
fn begins_marked(bytes: &[u8]) -> bool
    ensures { result ≡ begins_marked bytes.now }
{
    bytes.len() >= 10
        && is_mark(bytes[4])
        && bytes[7] == bytes[4]
        && is_calendar_day(&bytes[..4], &bytes[5..7], &bytes[8..10])
}

// Whether a name says a day, as `IMG_20240501_123000.jpg` and `2024-05-01 12.30.00.jpg` do: its
// digits, with nothing or one mark between year, month and day, behind no other digit.
fn names_day(name: &[u8]) -> bool
    ensures { result ≡ names_day name.now }
{
    let mut follows = false;
    for at in 0..name.len() {
        let rest = &name[at..];
        if !follows && (begins_joined(rest) || begins_marked(rest)) {
            return true;
        }
        follows = name[at].is_ascii_digit();
    }
    false
}

/// How many of these files have a name that says a day.
pub fn dated_count(paths: &[String]) -> u64
    ensures { result ≡ dated_count (map string_bytes paths.now) }
{
    let mut count = 0u64;
    for path in paths {
        if names_day(name_of(path.as_str()).as_bytes()) {
            count = count.saturating_add(1);
        }
    }
    count
}

//! Times (ISO 8601-1, 5.4; XML Schema Part 2, 3.2.7), as milliseconds of UTC.

ghost use Rattle.std.specs.Prelude.{◌≡◌, ◌+◌, ◌<◌, ◌≤◌, ◌^◌, length, IfSome};
ghost use Rattle.exif_geotag.specs.Times.{date_time_of, digits_len, ended, exif_time_of, fraction_len, is_offset, is_split, milliseconds_of, thousandths_of, time_of, zone_of, zoned};

use crate::number::{below, fraction_of};
use exif_datetime::{is_day, is_time, seconds_of};
use exif_locations::xmp::scan::byte_at;
use exif_text::date::{read_date, read_time};
use exif_text::digits::two_digits;

// How many bytes a date and a clock have: `YYYY-MM-DDTHH:MM:SS`.
const DATE_TIME_LEN: usize = 19;

// The milliseconds of a minute.
const MINUTE: u64 = 60_000;

// Whether a text has the marks between the numbers: two of a date, `T` or a space, `:` and `:`.
fn is_split(mark: u8, text: &[u8]) -> bool
    ensures { result ≡ is_split mark text.now }
{
    let letter = byte_at(text, 10);
    byte_at(text, 4) == mark
        && byte_at(text, 7) == mark
        && (letter == b'T' || letter == b't' || letter == b' ')
        && byte_at(text, 13) == b':'
        && byte_at(text, 16) == b':'
}

// How many bytes at the front are digits.
fn digits_len(text: &[u8]) -> usize
    ensures value { result ≡ digits_len text.now }
    ensures within { result ≤ length text.now }
{
    for at in 0..text.len() {
        if !text[at].is_ascii_digit() {
            return at;
        }
    }
    text.len()
}

// How many bytes the fraction of a second has: a point and digits, or none.
fn fraction_len(rest: &[u8]) -> usize
    ensures value { result ≡ fraction_len rest.now }
    ensures within { result ≤ length rest.now }
{
    if byte_at(rest, 0) == b'.' && byte_at(rest, 1).is_ascii_digit() {
        1 + digits_len(&rest[1..])
    } else {
        0
    }
}

// The thousandths that a fraction of a second has; more digits are cut off.
fn thousandths_of(fraction: &[u8]) -> Option<u64>
    ensures answer { result ≡ thousandths_of fraction.now }
    ensures small { IfSome result (λ number. number ≤ 1000) }
{
    if fraction.is_empty() {
        return Some(0);
    }
    fraction_of(100, &fraction[1..], 0)
}

// The milliseconds by which a zone is off UTC: `+hh:mm` or `-hh:mm`, whatever its sign.
#[tactic(auto, unfolding(crate::specs::Times::zone_of))]
fn zone_of(zone: &[u8]) -> Option<u64>
    ensures answer { result ≡ zone_of zone.now }
    ensures small { IfSome result (λ offset. offset < 2 ^ 27) }
{
    if zone.len() != 6 || zone[3] != b':' {
        return None;
    }
    let hours = two_digits(zone, 1)?;
    let minutes = two_digits(zone, 4)?;
    if hours < 24 && minutes < 60 {
        Some((u64::from(hours) * 60 + u64::from(minutes)) * MINUTE)
    } else {
        None
    }
}

/// Whether a text is an offset from UTC: `+hh:mm`, `-hh:mm`, `Z`, `z` or nothing, with hours below
/// 24 and minutes below 60. With such an offset [`exif_time_of`] has a time for each date from the
/// year 1 on, and with any other text it has none.
#[tactic(auto, unfolding(crate::specs::Times::zone_of))]
pub fn is_offset(text: &[u8]) -> bool
    ensures { result ≡ is_offset text.now }
{
    match byte_at(text, 0) {
        b'+' | b'-' => zone_of(text).is_some(),
        b'Z' | b'z' if text.len() == 1 => true,
        _ => text.is_empty(),
    }
}

// A time of a zone, in UTC. Without a zone it is one of UTC.
fn zoned(time: u64, zone: &[u8]) -> Option<u64>
    requires { time < 2 ^ 60 }
    ensures { result ≡ zoned time zone.now }
{
    match byte_at(zone, 0) {
        b'+' => below(time, zone_of(zone)?),
        b'-' => Some(time + zone_of(zone)?),
        b'Z' | b'z' if zone.len() == 1 => Some(time),
        _ => { if zone.is_empty() { Some(time) } else { None } }
    }
}

// The milliseconds from the start of the year 0 to the date and the time that the digits at the
// fixed positions spell.
#[tactic(auto, unfolding(crate::specs::Times::milliseconds_of))]
fn milliseconds_of(text: &[u8]) -> Option<u64>
    requires { 19 ≤ length text.now }
    ensures answer { result ≡ milliseconds_of text.now }
    ensures small { IfSome result (λ time. time < 2 ^ 59) }
{
    let (Ok(date), Ok(time)) = (read_date(text), read_time(text)) else {
        return None;
    };
    if is_day(date) && is_time(time) {
        Some(seconds_of(date, time) * 1000)
    } else {
        None
    }
}

// The milliseconds of a date with such marks and a clock, from the start of the year 0.
fn date_time_of(mark: u8, text: &[u8]) -> Option<u64>
    ensures answer { result ≡ date_time_of mark text.now }
    ensures small { IfSome result (λ time. time < 2 ^ 59) }
    ensures long { IfSome result (λ time. 19 ≤ length text.now) }
{
    if text.len() < DATE_TIME_LEN || !is_split(mark, text) {
        return None;
    }
    milliseconds_of(text)
}

// A time with what follows its seconds: a fraction, and a zone.
#[tactic(auto, unfolding(crate::specs::Times::ended))]
fn ended(whole: u64, rest: &[u8]) -> Option<u64>
    requires { whole < 2 ^ 59 }
    ensures { result ≡ ended rest.now whole }
{
    let len = fraction_len(rest);
    let part = thousandths_of(&rest[..len])?;
    zoned(whole + part, &rest[len..])
}

/// The time that a text spells: `YYYY-MM-DDTHH:MM:SS`, then a fraction of a second if there is one,
/// and `Z`, `+hh:mm`, `-hh:mm` or nothing, which is UTC. `T` and `Z` may be small, and `T` a space.
/// The time is in milliseconds of UTC from the start of the year 0 of the Gregorian calendar,
/// without leap seconds; further digits are cut off. `None` where the text is another, or names a
/// day or a time that does not exist. It takes no memory.
#[tactic(auto, unfolding(crate::specs::Times::time_of))]
pub fn time_of(text: &[u8]) -> Option<u64>
    ensures { result ≡ time_of text.now }
{
    let whole = date_time_of(b'-', text)?;
    ended(whole, &text[DATE_TIME_LEN..])
}

/// The time of a date of Exif data, in the unit of `time_of`: `date` is `YYYY:MM:DD HH:MM:SS`, and
/// more bytes are ignored; `subsec` has the digits of a fraction of a second at its front, or none;
/// `offset` is `+hh:mm`, `-hh:mm` or empty, which is UTC (Exif 2.32, 4.6.4, DateTime, and 4.6.5,
/// SubSecTime and OffsetTime). `None` where `date` or `offset` is another text, or names a day or a
/// time that does not exist. It takes no memory.
#[tactic(auto, unfolding(crate::specs::Times::exif_time_of))]
pub fn exif_time_of(date: &[u8], subsec: &[u8], offset: &[u8]) -> Option<u64>
    ensures { result ≡ exif_time_of date.now subsec.now offset.now }
{
    let whole = date_time_of(b':', date)?;
    let part = fraction_of(100, &subsec[..digits_len(subsec)], 0)?;
    zoned(whole + part, offset)
}

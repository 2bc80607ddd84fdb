//! Dates with their time of day, as their digits are (Exif 2.32, section 4.6.4, DateTime).

ghost use Rattle.std.specs.Prelude.{◌≡◌, ◌+◌, ◌<◌, ◌≤◌, length, Ok, Err, if◌then◌else◌};
ghost use Rattle.exif_text.specs.declared.date_fault.DateFault.TheVariants.{NotANumber};
ghost use Rattle.exif_text.specs.Dates.{has_delimiters, is_blank, parse_datetime, read_date, read_time};
ghost use Rattle.exif_text.specs.Digits.{are_two_at, two_at};

use crate::date_fault::DateFault;
use crate::digits::two_digits;

/// A day of the calendar, as its digits are.
#[derive(Clone, Copy)]
pub struct Date {
    /// The year.
    pub year: u16,
    /// The month, 1 for January.
    pub month: u8,
    /// The day of the month.
    pub day: u8,
}

/// A time of day, as its digits are.
#[derive(Clone, Copy)]
pub struct TimeOfDay {
    /// The hour of the day.
    pub hour: u8,
    /// The minute of the hour.
    pub minute: u8,
    /// The second of the minute.
    pub second: u8,
}

/// The date and the time of day that `2016:05:04 03:02:01` spells. Ranges are not checked, and more
/// bytes are ignored.
#[tactic(auto, unfolding(crate::specs::Dates::parse_datetime))]
pub fn read_date_time(bytes: &[u8]) -> Result<(Date, TimeOfDay), DateFault>
    ensures { result ≡ parse_datetime bytes.now }
{
    if is_blank(bytes) {
        return Err(DateFault::BlankDate);
    }
    if bytes.len() < 19 {
        return Err(DateFault::DateTooShort);
    }
    if !has_delimiters(bytes) {
        return Err(DateFault::InvalidDateDelimiter);
    }
    let date = read_date(bytes)?;
    let time = read_time(bytes)?;
    Ok((date, time))
}

/// Whether the bytes are 19 spaces, of which those at the positions of colons may be colons.
fn is_blank(bytes: &[u8]) -> bool
    ensures { result ≡ is_blank bytes.now }
{
    bytes == b"    :  :     :  :  ".as_slice() || bytes == b"                   ".as_slice()
}

/// Whether colons and a space are at their positions.
fn has_delimiters(bytes: &[u8]) -> bool
    requires { 19 ≤ length bytes.now }
    ensures { result ≡ has_delimiters bytes.now }
{
    bytes[4] == b':'
        && bytes[7] == b':'
        && bytes[13] == b':'
        && bytes[16] == b':'
        && bytes[10] == b' '
}

/// The number of two digits of a date or of an offset.
pub(crate) fn part(bytes: &[u8], from: usize) -> Result<u8, DateFault>
    requires { from + 1 < length bytes.now }
    ensures { result ≡ (if are_two_at bytes.now from then Ok (two_at bytes.now from)
        else Err NotANumber) }
{
    match two_digits(bytes, from) {
        Some(number) => Ok(number),
        None => Err(DateFault::NotANumber),
    }
}

/// The date in the digits at the fixed positions.
pub fn read_date(bytes: &[u8]) -> Result<Date, DateFault>
    requires { 10 ≤ length bytes.now }
    ensures { result ≡ read_date bytes.now }
{
    let century = part(bytes, 0)?;
    let year = part(bytes, 2)?;
    Ok(Date {
        year: u16::from(century) * 100 + u16::from(year),
        month: part(bytes, 5)?,
        day: part(bytes, 8)?,
    })
}

/// The time of day in the digits at the fixed positions.
pub fn read_time(bytes: &[u8]) -> Result<TimeOfDay, DateFault>
    requires { 19 ≤ length bytes.now }
    ensures { result ≡ read_time bytes.now }
{
    Ok(TimeOfDay {
        hour: part(bytes, 11)?,
        minute: part(bytes, 14)?,
        second: part(bytes, 17)?,
    })
}

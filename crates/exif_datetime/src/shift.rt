//! Shifts of a clock, and dates moved by them.

ghost use Rattle.std.specs.Prelude.{◌≡◌, ◌<◌, ◌≤◌, ◌^◌, ◌==◌, length, IfOk, IfSome};
ghost use Rattle.exif_datetime.specs.Shift.{clock_in, clock_of, digit, minutes_in, moment_text, moved, moved_seconds, moved_text, moved_texts, moved_value, seconds_in, shift_by, shift_in, stated, with_date};

use crate::calendar::{is_day, is_time, moment_at, seconds_of};
use crate::numbers::{cut, number_below};
use exif_base::Items;
use exif_text::DateFault;
use exif_text::date::{Date, TimeOfDay, read_date_time};
use exif_types::Value;
use std::alloc::{AllocError, Global};

// More seconds than the years of four digits have.
const MAX_SECONDS: u64 = 0x400_0000_0000;

/// By how much a clock was wrong.
#[derive(Clone, Copy, PartialEq, Eq)]
pub struct ClockShift {
    /// By how many seconds dates are moved.
    pub seconds: u64,
    /// Whether they are moved back.
    pub is_back: bool,
}

/// Why a date is not moved.
#[derive(Clone, Copy, Debug, PartialEq, Eq)]
pub enum Unmoved {
    /// It is blank, or its month and day are zeros.
    Blank,
    /// It is no date of the calendar.
    Invalid,
    /// The moved date is not in the years 0 to 9999.
    OutOfRange,
}

impl ClockShift {
    /// Reads `+HH:MM`, `-HH:MM:SS` or `+DAYSdHH:MM`: minutes and seconds below 60, days below
    /// 10,000,000 and hours below 1,000,000. It takes no memory.
    pub fn parse(text: &str) -> Option<ClockShift>
        ensures { result ≡ shift_in text.now }
    {
        let bytes = text.as_bytes();
        if bytes.is_empty() {
            return None;
        }
        match bytes[0] {
            b'-' => ClockShift::of(true, &bytes[1..]),
            b'+' => ClockShift::of(false, &bytes[1..]),
            _ => ClockShift::of(false, bytes),
        }
    }

    // The shift by what a text spells.
    fn of(is_back: bool, text: &[u8]) -> Option<ClockShift>
        ensures { result ≡ shift_by is_back (seconds_in text.now) }
    {
        let seconds = seconds_in(text)?;
        Some(ClockShift { seconds, is_back })
    }

    // The seconds since the beginning of the year 0, moved.
    fn moved_seconds(self, old: u64) -> Option<u64>
        requires { old < 2 ^ 42 }
        ensures { result ≡ moved_seconds self old }
    {
        if self.is_back {
            if old < self.seconds {
                None
            } else {
                Some(old - self.seconds)
            }
        } else if self.seconds < MAX_SECONDS {
            Some(old + self.seconds)
        } else {
            None
        }
    }

    // A date and a time, moved over the calendar.
    fn moved(self, date: Date, time: TimeOfDay) -> Option<(Date, TimeOfDay)>
        requires { 0 < date.month }
        ensures { result ≡ moved self (date, time) }
    {
        let new = self.moved_seconds(seconds_of(date, time))?;
        moment_at(new)
    }
}

// The seconds of hours, minutes and seconds.
fn clock_of(hours: u64, minutes: &[u8], seconds: u64) -> Option<u64>
    requires hours { hours < 1000000 }
    requires seconds { seconds < 60 }
    ensures answer { result ≡ clock_of hours minutes.now seconds }
    ensures small { IfSome result (λ n. n < 2 ^ 40) }
{
    let minutes = number_below(60, minutes)?;
    Some(hours * 3_600 + minutes * 60 + seconds)
}

// Those of hours, and of `MM` or `MM:SS`.
fn minutes_in(hours: u64, text: &[u8]) -> Option<u64>
    requires { hours < 1000000 }
    ensures answer { result ≡ minutes_in hours text.now }
    ensures small { IfSome result (λ n. n < 2 ^ 40) }
{
    match cut(b':', text) {
        Some((minutes, seconds)) => {
            let seconds = number_below(60, seconds)?;
            clock_of(hours, minutes, seconds)
        }
        None => clock_of(hours, text, 0),
    }
}

// Those that `HH:MM` or `HH:MM:SS` spells.
fn clock_in(text: &[u8]) -> Option<u64>
    ensures answer { result ≡ clock_in text.now }
    ensures small { IfSome result (λ n. n < 2 ^ 40) }
{
    let (hours, rest) = cut(b':', text)?;
    let hours = number_below(1_000_000, hours)?;
    minutes_in(hours, rest)
}

// Those that `HH:MM` spells, where days may be in front.
fn seconds_in(text: &[u8]) -> Option<u64>
    ensures { result ≡ seconds_in text.now }
{
    match cut(b'd', text) {
        Some((days, clock)) => {
            let days = number_below(10_000_000, days)?;
            let seconds = clock_in(clock)?;
            Some(days * 86_400 + seconds)
        }
        None => clock_in(text),
    }
}

/// The date and the time that a text states, if the calendar has them.
pub fn stated(text: &[u8]) -> Result<(Date, TimeOfDay), Unmoved>
    ensures answer { result ≡ stated text.now }
    ensures dated { IfOk result (λ moment. 0 < moment.0.month) }
    ensures long { IfOk result (λ moment. 19 ≤ length text.now) }
{
    match read_date_time(text) {
        Ok((date, time)) => {
            if is_day(date) && is_time(time) && 19 <= text.len() {
                Ok((date, time))
            } else if date.month == 0 && date.day == 0 {
                Err(Unmoved::Blank)
            } else {
                Err(Unmoved::Invalid)
            }
        }
        Err(DateFault::BlankDate) => Err(Unmoved::Blank),
        Err(_) => Err(Unmoved::Invalid),
    }
}

// A digit of a number.
fn digit(number: u16) -> u8
    ensures { result ≡ digit number }
{
    b'0' + (number % 10) as u8
}

// A date as Exif data have it (Exif 2.32, section 4.6.4).
fn moment_text(date: Date, time: TimeOfDay) -> [u8; 19]
    ensures { result ≡ moment_text (date, time) }
{
    [
        digit(date.year / 1000),
        digit(date.year / 100),
        digit(date.year / 10),
        digit(date.year),
        b':',
        digit(u16::from(date.month / 10)),
        digit(u16::from(date.month)),
        b':',
        digit(u16::from(date.day / 10)),
        digit(u16::from(date.day)),
        b' ',
        digit(u16::from(time.hour / 10)),
        digit(u16::from(time.hour)),
        b':',
        digit(u16::from(time.minute / 10)),
        digit(u16::from(time.minute)),
        b':',
        digit(u16::from(time.second / 10)),
        digit(u16::from(time.second)),
    ]
}

// The text of a date, moved.
fn moved_text(by: ClockShift, text: &[u8]) -> Result<[u8; 19], Unmoved>
    ensures answer { result ≡ moved_text by text.now }
    ensures long { IfOk result (λ moved. 19 ≤ length text.now) }
{
    let (date, time) = stated(text)?;
    match by.moved(date, time) {
        Some((date, time)) => Ok(moment_text(date, time)),
        None => Err(Unmoved::OutOfRange),
    }
}

// A value of texts, of which the first begins with another date.
fn with_date(alloc: Global, date: &[u8], mut texts: Vec<Items<u8>>) -> Result<Value, AllocError>
    requires { 0 < length texts.items }
    ensures { IfOk result (λ value. value ≡ with_date date.now texts.items) }
{
    let mut first = Vec::from_slice(alloc, date)?;
    let old = texts[0].as_slice();
    if 19 <= old.len() {
        first.extend_from_slice(&old[19..])?;
    }
    texts[0] = Items::from_vec(first);
    Ok(Value::Ascii(Items::from_vec(texts)))
}

// A value of texts with its date moved, or why it is not.
fn moved_texts(
    alloc: Global,
    by: ClockShift,
    texts: Vec<Items<u8>>,
) -> Result<Result<Value, Unmoved>, AllocError>
    ensures { IfOk result (λ answer. answer ≡ moved_texts by texts.items) }
{
    if texts.is_empty() {
        return Ok(Err(Unmoved::Blank));
    }
    match moved_text(by, texts[0].as_slice()) {
        Ok(date) => {
            let value = with_date(alloc, &date, texts)?;
            Ok(Ok(value))
        }
        Err(why) => Ok(Err(why)),
    }
}

/// The value of a date with the date moved, or why it is not moved. Of several texts the first is
/// the date, and what follows its 19 characters stays. The only error is out of memory.
pub fn moved_value(
    alloc: Global,
    by: ClockShift,
    value: &Value,
) -> Result<Result<Value, Unmoved>, AllocError>
    ensures { IfOk result (λ answer. answer ≡ moved_value by value.now) }
{
    match value.clone(alloc) {
        Ok(Value::Ascii(texts)) => moved_texts(alloc, by, texts.into_vec()),
        Ok(_) => Ok(Err(Unmoved::Invalid)),
        Err(_no_memory) => Err(AllocError),
    }
}

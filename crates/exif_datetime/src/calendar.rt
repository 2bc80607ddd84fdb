//! The days of the calendar by their number (the Gregorian calendar, in all years from 0 to 9999).

ghost use Rattle.std.specs.Prelude.{◌≡◌, ℕ, ◌+◌, ◌-◌, ◌*◌, ◌<◌, ◌≤◌, ◌^◌, IfSome};
ghost use Rattle.std.specs.Option.{option_map};
ghost use Rattle.exif_datetime.specs.Calendar.{day_number, days_before_month, days_before_year, date_at, days_in_month, days_in_year, is_day, is_leap, is_time, moment_at, month_at, seconds_of, year_at, time_at};

use exif_text::date::{Date, TimeOfDay};

// The years of four digits.
const YEARS: u16 = 10_000;

// The seconds of a day.
const DAY: u64 = 86_400;

// Whether a year has 366 days.
fn is_leap(year: u16) -> bool
    ensures { result ≡ is_leap year }
{
    year % 4 == 0 && (year % 100 != 0 || year % 400 == 0)
}

// The days of a year.
fn days_in_year(year: u16) -> u64
    ensures days { result ≡ days_in_year year }
    ensures few { result ≤ 366 }
{
    if is_leap(year) { 366 } else { 365 }
}

// The days of a month.
fn days_in_month(year: u16, month: u8) -> u64
    ensures days { result ≡ days_in_month year month }
    ensures few { result ≤ 31 }
{
    match month {
        2 => { if is_leap(year) { 29 } else { 28 } }
        4 | 6 | 9 | 11 => 30,
        _ => 31,
    }
}

/// Whether the calendar has a day.
pub fn is_day(date: Date) -> bool
    ensures { result ≡ is_day date }
{
    date.year < YEARS
        && 0 < date.month
        && date.month < 13
        && 0 < date.day
        && u64::from(date.day) <= days_in_month(date.year, date.month)
}

/// Whether a clock has a time.
pub fn is_time(time: TimeOfDay) -> bool
    ensures { result ≡ is_time time }
{
    time.hour < 24 && time.minute < 60 && time.second < 60
}

// The days from the year 0 to a year: 365 for each, and one for each leap year.
#[tactic(auto, using(crate::proofs::CalendarSteps::formula_is))]
fn days_before_year(year: u16) -> u64
    ensures days { result ≡ days_before_year year }
    ensures few { result ≤ 366 * year }
{
    let year = u64::from(year);
    365 * year + (year + 3) / 4 - (year + 99) / 100 + (year + 399) / 400
}

// The days of the first months of a year.
fn days_before_month(year: u16, months: u8) -> u64
    ensures days { result ≡ days_before_month year months }
    ensures few { result ≤ 31 * months }
{
    let mut days = 0;
    for past in 0..months {
        days += days_in_month(year, past + 1);
    }
    days
}

// The number of a day: how many are before it from the year 0 on.
fn day_number(date: Date) -> u64
    requires { 0 < date.month }
    ensures number { result ≡ day_number date }
    ensures small { result < 2 ^ 25 }
{
    days_before_year(date.year)
        + days_before_month(date.year, date.month - 1)
        + u64::from(date.day.saturating_sub(1))
}

/// The seconds from the beginning of the year 0 to a time of a day.
pub fn seconds_of(date: Date, time: TimeOfDay) -> u64
    requires { 0 < date.month }
    ensures seconds { result ≡ seconds_of date time }
    ensures small { result < 2 ^ 42 }
{
    day_number(date) * DAY
        + u64::from(time.hour) * 3_600
        + u64::from(time.minute) * 60
        + u64::from(time.second)
}

// The year that has the day of this number, and how many days of the year are before it.
fn year_at(day: u64) -> Option<(u16, u64)>
    ensures { result ≡ year_at day }
{
    let mut rest = day;
    for year in 0..YEARS {
        let days = days_in_year(year);
        if rest < days {
            return Some((year, rest));
        }
        rest -= days;
    }
    None
}

// The month that has a day of a year, of which so many are before it, and the day of the month.
fn month_at(year: u16, day: u64) -> Option<(u8, u8)>
    ensures { result ≡ month_at year day }
{
    let mut rest = day;
    for past in 0..12u8 {
        let days = days_in_month(year, past + 1);
        if rest < days {
            return Some((past + 1, rest as u8 + 1));
        }
        rest -= days;
    }
    None
}

// The day of a number.
fn date_at(number: u64) -> Option<Date>
    ensures { result ≡ date_at number }
{
    let (year, rest) = year_at(number)?;
    let (month, day) = month_at(year, rest)?;
    Some(Date { year, month, day })
}

// The time of a day after so many seconds.
fn time_at(second: u64) -> TimeOfDay
    requires { second < 86400 }
    ensures { result ≡ time_at second }
{
    TimeOfDay {
        hour: (second / 3_600) as u8,
        minute: (second / 60 % 60) as u8,
        second: (second % 60) as u8,
    }
}

/// The day and the time after so many seconds from the beginning of the year 0; `None` from the
/// year 10000 on.
pub fn moment_at(seconds: u64) -> Option<(Date, TimeOfDay)>
    ensures { result ≡ moment_at seconds }
{
    let date = date_at(seconds / DAY)?;
    Some((date, time_at(seconds % DAY)))
}

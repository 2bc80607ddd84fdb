//! Dates as numbers that can be compared.

ghost use Rattle.std.specs.Prelude.{◌≡◌, ◌<◌, ◌≤◌, ◌^◌, length, IfSome};
ghost use Rattle.exif_summary.specs.Bounds.{begin_in, begin_of, digit, has_mark, is_begin_len, is_date, stamp, two};

use exif_datetime::DateTime;

// A date as a number: its fourteen digits, from the year to the second.
fn stamp(year: u16, month: u8, day: u8, hour: u8, minute: u8, second: u8) -> u64
    ensures { result ≡ stamp year month day hour minute second }
{
    let date = u64::from(year) * 10_000 + u64::from(month) * 100 + u64::from(day);
    let time = u64::from(hour) * 10_000 + u64::from(minute) * 100 + u64::from(second);
    date * 1_000_000 + time
}

/// A date as a number that can be compared: 20240501123000 for 12:30 on 1 May 2024. Its offset from
/// UTC and the fraction of its second do not count.
pub fn stamp_of(date: DateTime) -> u64
    ensures { result ≡ stamp date.year date.month date.day date.hour date.minute date.second }
{
    stamp(
        date.year,
        date.month,
        date.day,
        date.hour,
        date.minute,
        date.second,
    )
}

// What a digit stands for.
fn digit(byte: u8) -> Option<u8>
    ensures value { result ≡ digit byte }
    ensures small { IfSome result (λ n. n < 10) }
{
    if b'0' <= byte && byte <= b'9' {
        Some(byte - b'0')
    } else {
        None
    }
}

// The number of two digits at a place, or another where the text ends before it.
fn two(text: &[u8], at: usize, otherwise: u8) -> Option<u8>
    requires { otherwise < 100 }
    ensures value { result ≡ two text.now at otherwise }
    ensures small { IfSome result (λ n. n < 100) }
{
    match text.get(at..) {
        Some([tens, ones, ..]) => {
            let tens = digit(*tens)?;
            let ones = digit(*ones)?;
            Some(tens * 10 + ones)
        }
        _ => Some(otherwise),
    }
}

// Whether a text has a mark at a place, or ends before it.
fn has_mark(text: &[u8], at: usize, mark: u8) -> bool
    ensures { result ≡ has_mark text.now at mark }
{
    match text.get(at) {
        Some(byte) => *byte == mark,
        None => true,
    }
}

// Whether a text may be the front of a date: up to the year, the month, the day, the minute or the
// second.
fn is_begin_len(len: usize) -> bool
    ensures { result ≡ is_begin_len len }
{
    matches!(len, 4 | 7 | 10 | 16 | 19)
}

// Whether its marks are those of a date (ISO 8601-1, 5.4.2.1).
fn is_date(text: &[u8]) -> bool
    ensures { result ≡ is_date text.now }
{
    is_begin_len(text.len())
        && has_mark(text, 4, b'-')
        && has_mark(text, 7, b'-')
        && has_mark(text, 10, b'T')
        && has_mark(text, 13, b':')
        && has_mark(text, 16, b':')
}

// When the time begins that a text of such a form names, if there is one.
fn begin_in(text: &[u8]) -> Option<u64>
    ensures { result ≡ begin_in text.now }
{
    let century = two(text, 0, 0)?;
    let year = two(text, 2, 0)?;
    let month = two(text, 5, 1)?;
    let day = two(text, 8, 1)?;
    let hour = two(text, 11, 0)?;
    let minute = two(text, 14, 0)?;
    let second = two(text, 17, 0)?;
    if month == 0 || 12 < month || day == 0 || 31 < day {
        return None;
    }
    if 23 < hour || 59 < minute || 60 < second {
        return None;
    }
    let year = u16::from(century) * 100 + u16::from(year);
    Some(stamp(year, month, day, hour, minute, second))
}

/// When the year, the month, the day, the minute or the second begins that a text names, such as
/// `2024`, `2024-05`, `2024-05-01`, `2024-05-01T12:30` or `2024-05-01T12:30:00`; as [`stamp_of`]
/// has it. `None` for another text. Each month may have 31 days here.
pub fn begin_of(text: &str) -> Option<u64>
    ensures { result ≡ begin_of text.now }
{
    let text = text.as_bytes();
    if is_date(text) { begin_in(text) } else { None }
}

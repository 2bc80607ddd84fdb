//! Which values the standard has for a tag.

ghost use Rattle.std.specs.Prelude.{◌≡◌, ◌==◌, length};
ghost use Rattle.std.specs.Char.{is_ascii_digit};
ghost use Rattle.std.specs.List.{list_all, list_any};
ghost use Rattle.std.specs.Option.{option_map};
ghost use Rattle.exif_assign.specs.Fitting.{are_degrees, first_text, fits, flash_states, has_clock, is_below, is_clock, is_counted, is_date, is_day_text, is_degrees, is_digits, is_fraction, is_less, is_letter, is_listed, is_offset, is_unit, is_within, lists, number_of, states_day};

use crate::rules::{Form, Listing};
use exif_datetime::{is_day, stated};
use exif_text::Rational;
use exif_text::date::read_date;
use exif_text::offset::read_offset;
use exif_types::Value;

// The number of a value that holds one.
fn number_of(value: &Value) -> Option<u32>
    ensures { result ≡ number_of value.now }
{
    match value {
        Value::Byte(items) if items.as_slice().len() == 1 => Some(u32::from(items.as_slice()[0])),
        Value::Short(items) if items.as_slice().len() == 1 => Some(u32::from(items.as_slice()[0])),
        Value::Long(items) if items.as_slice().len() == 1 => Some(items.as_slice()[0]),
        Value::Undefined(bytes, _) if bytes.as_slice().len() == 1 => {
            Some(u32::from(bytes.as_slice()[0]))
        }
        _ => None,
    }
}

// Whether a value is one number, from the first to the second.
fn is_within(low: u32, high: u32, value: &Value) -> bool
    ensures { result ≡ is_within low high value.now }
{
    match number_of(value) {
        Some(number) => low <= number && number <= high,
        None => false,
    }
}

// Whether a number is a combination of the bits of Flash that is not reserved.
fn is_flash_state(number: u32) -> bool
    ensures { result ≡ list_any (λ state. state == number) flash_states }
{
    [
        0x00u32, 0x01, 0x05, 0x07, 0x09, 0x0d, 0x0f, 0x10, 0x18, 0x19, 0x1d, 0x1f, 0x20, 0x41,
        0x45, 0x47, 0x49, 0x4d, 0x4f, 0x59, 0x5d, 0x5f,
    ]
    .iter()
    .any(|state| *state == number)
}

// Whether the standard lists a number.
fn lists(listing: Listing, number: u32) -> bool
    ensures { result ≡ lists listing number }
{
    match listing {
        Listing::MeteringModes => number <= 6 || number == 255,
        Listing::LightSources => number <= 4 || (9 <= number && number <= 24) || number == 255,
        Listing::FlashStates => is_flash_state(number),
        Listing::ColorSpaces => number == 1 || number == 65_535,
        Listing::SensingMethods => (1 <= number && number <= 5) || number == 7 || number == 8,
    }
}

// Whether a value is one number that the standard lists.
fn is_listed(listing: Listing, value: &Value) -> bool
    ensures { result ≡ is_listed listing value.now }
{
    match number_of(value) {
        Some(number) => lists(listing, number),
        None => false,
    }
}

// Whether a value has from so many items to so many, the zero behind a text counted.
fn is_counted(low: u32, high: u32, value: &Value) -> bool
    ensures { result ≡ is_counted low high value.now }
{
    match value.count() {
        Some(count) => low <= count && count <= high,
        None => false,
    }
}

// The first text of a value of texts.
fn first_text(value: &Value) -> Option<&[u8]>
    ensures { option_map (λ text. text.now) result ≡ first_text value.now }
{
    match value {
        Value::Ascii(texts) if texts.as_slice().len() == 1 => Some(texts.as_slice()[0].as_slice()),
        _ => None,
    }
}

// Whether a value is a date of the calendar.
fn is_date(value: &Value) -> bool
    ensures { result ≡ is_date value.now }
{
    match first_text(value) {
        Some(text) => stated(text).is_ok() && text.len() == 19,
        None => false,
    }
}

// Whether a text is a day of the calendar, as `2016:05:04`.
fn states_day(text: &[u8]) -> bool
    requires { length text.now ≡ 10 }
    ensures { result ≡ states_day text.now }
{
    match read_date(text) {
        Ok(date) => is_day(date),
        Err(_) => false,
    }
}

// Whether a value is one.
fn is_day_text(value: &Value) -> bool
    ensures { result ≡ is_day_text value.now }
{
    match first_text(value) {
        Some(text) => text.len() == 10 && states_day(text),
        None => false,
    }
}

// Whether a text has two digits that are less than 24, and behind a colon two that are less than
// 60.
fn has_clock(text: &[u8]) -> bool
    requires { length text.now ≡ 6 }
    ensures { result ≡ has_clock text.now }
{
    (text[1] < b'2' || (text[1] == b'2' && text[2] < b'4')) && text[4] < b'6'
}

// Whether a value is an offset from UTC, as `+01:00`.
fn is_offset(value: &Value) -> bool
    ensures { result ≡ is_offset value.now }
{
    match first_text(value) {
        Some(text) => text.len() == 6 && read_offset(text).is_ok() && has_clock(text),
        None => false,
    }
}

// Whether each byte is a digit.
fn are_digits(text: &[u8]) -> bool
    ensures { result ≡ list_all is_ascii_digit text.now }
{
    text.iter().all(|byte| byte.is_ascii_digit())
}

// Whether a value is a text of digits.
fn is_digits(value: &Value) -> bool
    ensures { result ≡ is_digits value.now }
{
    match first_text(value) {
        Some(text) => text.len() != 0 && are_digits(text),
        None => false,
    }
}

// Whether a value is one of two letters.
fn is_letter(one: u8, other: u8, value: &Value) -> bool
    ensures { result ≡ is_letter one other value.now }
{
    match first_text(value) {
        Some(text) => text.len() == 1 && (text[0] == one || text[0] == other),
        None => false,
    }
}

// Whether a value is the letter of a unit: K, M or N.
fn is_unit(value: &Value) -> bool
    ensures { result ≡ is_unit value.now }
{
    is_letter(b'K', b'M', value) || is_letter(b'N', b'N', value)
}

// Whether a value is one fraction over another number than 0.
fn is_fraction(value: &Value) -> bool
    ensures { result ≡ is_fraction value.now }
{
    match value {
        Value::Rational(items) => {
            let items = items.as_slice();
            items.len() == 1 && items[0].denom != 0
        }
        Value::SRational(items) => {
            let items = items.as_slice();
            items.len() == 1 && items[0].denom != 0
        }
        _ => false,
    }
}

// Whether a fraction is less than a number.
fn is_less(fraction: Rational, than: u32) -> bool
    ensures { result ≡ is_less fraction than }
{
    fraction.denom != 0 && fraction.num / fraction.denom < than
}

// Whether a value is one fraction that is less than a number.
fn is_below(than: u32, value: &Value) -> bool
    ensures { result ≡ is_below than value.now }
{
    match value {
        Value::Rational(items) => {
            let items = items.as_slice();
            items.len() == 1 && is_less(items[0], than)
        }
        _ => false,
    }
}

// Whether a value is hours, minutes and seconds of a day, with a leap second.
fn is_clock(value: &Value) -> bool
    ensures { result ≡ is_clock value.now }
{
    match value {
        Value::Rational(items) => {
            let items = items.as_slice();
            items.len() == 3
                && is_less(items[0], 24)
                && is_less(items[1], 60)
                && is_less(items[2], 61)
        }
        _ => false,
    }
}

// Whether degrees, minutes and seconds are at most so many degrees.
fn are_degrees(most: u32, degrees: Rational, minutes: Rational, seconds: Rational) -> bool
    ensures { result ≡ are_degrees most degrees minutes seconds }
{
    if is_less(degrees, most) {
        return is_less(minutes, 60) && is_less(seconds, 60);
    }
    degrees.denom != 0
        && degrees.num % degrees.denom == 0
        && degrees.num / degrees.denom == most
        && minutes.num == 0
        && seconds.num == 0
}

// Whether a value is degrees, minutes and seconds, at most so many degrees.
fn is_degrees(most: u32, value: &Value) -> bool
    ensures { result ≡ is_degrees most value.now }
{
    match value {
        Value::Rational(items) => {
            let items = items.as_slice();
            items.len() == 3 && are_degrees(most, items[0], items[1], items[2])
        }
        _ => false,
    }
}

/// Whether a tag can have a value.
pub(crate) fn fits(form: Form, value: &Value) -> bool
    ensures { result ≡ fits form value.now }
{
    match form {
        Form::Any | Form::Comment => true,
        Form::Nothing => false,
        Form::Count(low, high) => is_counted(low, high, value),
        Form::Date => is_date(value),
        Form::Day => is_day_text(value),
        Form::Offset => is_offset(value),
        Form::Digits => is_digits(value),
        Form::Within(low, high) => is_within(low, high, value),
        Form::Listed(listing) => is_listed(listing, value),
        Form::Fraction => is_fraction(value),
        Form::Below(than) => is_below(than, value),
        Form::Degrees(most) => is_degrees(most, value),
        Form::Clock => is_clock(value),
        Form::Letter(one, other) => is_letter(one, other, value),
        Form::Unit => is_unit(value),
    }
}

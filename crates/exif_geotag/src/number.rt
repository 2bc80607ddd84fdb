//! Decimal numbers (XML Schema Part 2, 3.2.3), as whole units above a lower limit.

ghost use Rattle.std.specs.Prelude.{◌≡◌, ◌+◌, ◌*◌, ◌<◌, ◌≤◌, ◌^◌, IfSome};
ghost use Rattle.exif_geotag.specs.Numbers.{above, begins_number, below, decimal_of, fraction_of, negative_of, next_whole, number_of, positive_of, whole_of};

use exif_locations::xmp::scan::byte_at;

// A whole number with one more digit, if it stays below 2^32.
fn next_whole(number: u64, digit: u8) -> Option<u64>
    requires { number < 2 ^ 32 }
    ensures answer { result ≡ next_whole number digit }
    ensures below { IfSome result (λ next. next < 2 ^ 32) }
{
    if !digit.is_ascii_digit() {
        return None;
    }
    let next = number * 10 + u64::from(digit - b'0');
    if next < 1 << 32 { Some(next) } else { None }
}

/// A number, and the digits of a fraction behind it: the first digit counts `unit`, each further
/// one a tenth of that, rounded down. `None` where there is another byte.
pub(crate) fn fraction_of(unit: u64, digits: &[u8], number: u64) -> Option<u64>
    requires { number + 10 * unit < 2 ^ 60 }
    ensures answer { result ≡ fraction_of unit digits.now number }
    ensures most { IfSome result (λ sum. sum ≤ number + 10 * unit) }
{
    let mut unit = unit;
    let mut number = number;
    for digit in digits {
        if !digit.is_ascii_digit() {
            return None;
        }
        number += u64::from(*digit - b'0') * unit;
        unit /= 10;
    }
    Some(number)
}

// Digits, and a fraction behind a point, in units of which `scale` are one.
fn whole_of(scale: u64, text: &[u8]) -> Option<u64>
    requires { scale ≤ 10000000 }
    ensures { result ≡ whole_of scale text.now 0 }
{
    let mut number = 0;
    for at in 0..text.len() {
        if text[at] == b'.' {
            return fraction_of(scale / 10, &text[at + 1..], number * scale);
        }
        number = next_whole(number, text[at])?;
    }
    Some(number * scale)
}

// Whether a number without a sign begins here: with a digit, or with a point and a digit.
fn begins_number(text: &[u8]) -> bool
    ensures { result ≡ begins_number text.now }
{
    let first = byte_at(text, 0);
    first.is_ascii_digit() || first == b'.' && byte_at(text, 1).is_ascii_digit()
}

/// A number without a sign: digits, and a fraction behind a point, in units of which `scale` are one.
pub(crate) fn decimal_of(scale: u64, text: &[u8]) -> Option<u64>
    requires { scale ≤ 10000000 }
    ensures { result ≡ decimal_of scale text.now }
{
    if begins_number(text) {
        whole_of(scale, text)
    } else {
        None
    }
}

/// This many units below zero, above `-base`.
pub(crate) fn below(base: u64, size: u64) -> Option<u64>
    ensures { result ≡ below base size }
{
    base.checked_sub(size)
}

// This many units from zero on, above `-base`, if they are no more than `base`.
fn above(base: u64, size: u64) -> Option<u64>
    requires { base < 2 ^ 31 }
    ensures { result ≡ above base size }
{
    if size <= base {
        Some(base + size)
    } else {
        None
    }
}

// The number that a text without its minus spells, above `-base`.
#[tactic(auto, unfolding(crate::specs::Numbers::negative_of))]
fn negative_of(base: u64, scale: u64, text: &[u8]) -> Option<u64>
    requires { scale ≤ 10000000 }
    ensures answer { result ≡ negative_of base scale text.now }
    ensures within { IfSome result (λ number. number ≤ base) }
{
    below(base, decimal_of(scale, text)?)
}

// The number that a text without a sign spells, above `-base`.
#[tactic(auto, unfolding(crate::specs::Numbers::positive_of))]
fn positive_of(base: u64, scale: u64, text: &[u8]) -> Option<u64>
    requires base { base < 2 ^ 31 }
    requires scale { scale ≤ 10000000 }
    ensures answer { result ≡ positive_of base scale text.now }
    ensures within { IfSome result (λ number. number < 2 ^ 32) }
{
    above(base, decimal_of(scale, text)?)
}

/// The number that a text spells, from `-base` to `base`, in units of which `scale` are one, and
/// counted from `-base` on. Further digits of its fraction are cut off. `None` where it is out of
/// range, or no number is spelled.
pub(crate) fn number_of(base: u32, scale: u64, text: &[u8]) -> Option<u32>
    requires base { base < 2 ^ 31 }
    requires scale { scale ≤ 10000000 }
    ensures { result ≡ number_of base scale text.now }
{
    let base = u64::from(base);
    let number = match byte_at(text, 0) {
        b'-' => negative_of(base, scale, &text[1..])?,
        b'+' => positive_of(base, scale, &text[1..])?,
        _ => positive_of(base, scale, text)?,
    };
    Some(number as u32)
}

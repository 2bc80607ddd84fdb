//! Decimal numbers as billionths, and as short texts.

ghost use Rattle.std.specs.Prelude.{◌≡◌, ◌+◌, ◌-◌, ◌*◌, ◌^◌, ◌<◌, ◌≤◌, IfSome, Some};
ghost use Rattle.std.specs.Fmt.{WritesOnOk};
ghost use Rattle.exif_page.specs.Numbers.{behind_point, billionths_of, from_whole, hundredths_text, not_zero, rounded};

use std::fmt;

const BILLION: u64 = 1_000_000_000;

// How many billionths a digit counts.
fn digit_times(byte: u8, unit: u64) -> u64
    requires low { 48 ≤ byte }
    requires high { byte < 58 }
    requires unit { unit ≤ 10 ^ 8 }
    ensures value { result ≡ (byte - 48) * unit }
    ensures most { result ≤ 9 * unit }
{
    u64::from(byte - b'0') * unit
}

// Billionths, and the digits of a text behind a point.
fn behind_point(billionths: u64, unit: u64, text: &[u8]) -> Option<u64>
    requires unit { unit ≤ 10 ^ 8 }
    requires room { billionths + 10 * unit ≤ 10 ^ 18 }
    ensures value { result ≡ behind_point billionths unit text.now }
    ensures most { IfSome result (λ n. n ≤ 10 ^ 18) }
{
    match text {
        [] => Some(billionths),
        [byte, text @ ..] => {
            if !byte.is_ascii_digit() {
                return None;
            }
            behind_point(billionths + digit_times(*byte, unit), unit / 10, text)
        }
    }
}

// Whole ones, the digits that follow and what is behind a point, in billionths.
fn from_whole(whole: u64, text: &[u8]) -> Option<u64>
    requires { whole < 10 ^ 9 }
    ensures value { result ≡ from_whole whole text.now }
    ensures most { IfSome result (λ n. n ≤ 10 ^ 18) }
{
    match text {
        [] => Some(whole * BILLION),
        [byte, text @ ..] => {
            if *byte == b'.' {
                return behind_point(whole * BILLION, BILLION / 10, text);
            }
            if byte.is_ascii_digit() && whole < BILLION / 10 {
                from_whole(whole * 10 + u64::from(*byte - b'0'), text)
            } else {
                None
            }
        }
    }
}

// A number, if it is not 0.
fn not_zero(number: u64) -> Option<u64>
    ensures { result ≡ not_zero number }
{
    if number == 0 { None } else { Some(number) }
}

// The billionths of the text of a decimal number, cut; nothing for 0 and for another text.
pub(crate) fn billionths_of(text: &str) -> Option<u64>
    ensures value { result ≡ billionths_of text.now }
    ensures least { IfSome result (λ n. 0 < n) }
    ensures most { IfSome result (λ n. n ≤ 10 ^ 18) }
{
    not_zero(from_whole(0, text.as_bytes())?)
}

// Billionths as hundredths, rounded, half up.
fn rounded(billionths: u64) -> u64
    ensures { result ≡ rounded billionths }
{
    let hundredths = billionths / 10_000_000;
    if billionths % 10_000_000 < 5_000_000 {
        hundredths
    } else {
        hundredths + 1
    }
}

// Billionths, which are printed as a decimal number with at most two places.
#[derive(Clone, Copy)]
pub(crate) struct Short {
    pub billionths: u64,
}

// Writes hundredths behind a point, without a zero at the end.
fn write_hundredths<W: fmt::Write>(f: &mut fmt::Formatter<W>, hundredths: u64) -> fmt::Result
    ensures { WritesOnOk W.write_str_gives f.old result (hundredths_text hundredths) f.new }
{
    let (tenths, last) = (hundredths / 10, hundredths % 10);
    match (hundredths, last) {
        (0, _) => Ok(()),
        (_, 0) => write!(f, ".{tenths}"),
        _ => write!(f, ".{tenths}{last}"),
    }
}

impl fmt::Display for Short {
    ghost use Rattle.exif_page.specs.Numbers.{short_text};

    ghost output = { λ s. Some (short_text s.billionths) };

    fn fmt<W: fmt::Write>(&self, f: &mut fmt::Formatter<W>) -> fmt::Result {
        let hundredths = rounded(self.billionths);
        let whole = hundredths / 100;
        write!(f, "{whole}")?;
        write_hundredths(f, hundredths % 100)
    }
}

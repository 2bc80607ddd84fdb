//! Fractions as decimals, cut after nine places.

ghost use Rattle.std.specs.Prelude.{◌≡◌, ◌+◌, ◌<◌, ◌^◌, [], ◌∷◌, Some};
ghost use Rattle.std.specs.Fmt.{WritesOnOk, sign_text};
ghost use Rattle.exif_text.specs.Decimal.{fraction_text};

use std::fmt;

const BILLION: u64 = 1_000_000_000;

/// A fraction that prints as a decimal: cut after nine places, without zeros at its end. A fraction
/// over 0 prints as `num/0`.
#[derive(Clone, Copy)]
pub struct Decimal {
    negative: bool,
    num: u32,
    denom: u32,
}

impl Decimal {
    ghost use Rattle.exif_text.specs.Decimal.{decimal_text, shown_decimal};

    /// The decimal of a fraction of these magnitudes, with a minus sign where `negative` says so
    /// and the text is not 0.
    pub(crate) fn new(negative: bool, num: u32, denom: u32) -> Decimal
        ensures { shown_decimal result ≡ decimal_text negative num denom }
    {
        Decimal {
            negative,
            num,
            denom,
        }
    }
}

impl fmt::Display for Decimal {
    ghost use Rattle.exif_text.specs.Decimal.{shown_decimal};

    ghost output = { λ d. Some (shown_decimal d) };

    fn fmt<W: fmt::Write>(&self, f: &mut fmt::Formatter<W>) -> fmt::Result {
        let Decimal {
            negative,
            num,
            denom,
        } = *self;
        if denom == 0 {
            write_sign(f, negative)?;
            return write!(f, "{num}/0");
        }
        let billionths = u64::from(num) * BILLION / u64::from(denom);
        write_sign(f, negative && billionths != 0)?;
        let whole = billionths / BILLION;
        write!(f, "{whole}")?;
        write_fraction(f, (billionths % BILLION) as u32)
    }
}

fn write_sign<W: fmt::Write>(f: &mut fmt::Formatter<W>, negative: bool) -> fmt::Result
    ensures { WritesOnOk W.write_str_gives f.old result (sign_text negative) f.new }
{
    if negative { f.write_str("-") } else { Ok(()) }
}

/// Writes a point and the digits of `billionths` up to the last that is not zero, or nothing.
fn write_fraction<W: fmt::Write>(f: &mut fmt::Formatter<W>, billionths: u32) -> fmt::Result
    requires { billionths < 10 ^ 9 }
    ensures { WritesOnOk W.write_str_gives f.old result (fraction_text billionths) f.new }
{
    if billionths == 0 {
        return Ok(());
    }
    f.write_str(".")?;
    let mut left = billionths;
    let mut place = 100_000_000;
    'digits: loop {
        write_digit(f, left / place)?;
        left %= place;
        if left == 0 {
            return Ok(());
        }
        place /= 10;
    }
}

fn write_digit<W: fmt::Write>(f: &mut fmt::Formatter<W>, digit: u32) -> fmt::Result
    requires { digit < 10 }
    ensures { WritesOnOk W.write_str_gives f.old result ((48 + digit) ∷ []) f.new }
{
    f.write_char(char::from(b'0' + digit as u8))
}

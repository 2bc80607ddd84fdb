//! Fractions of whole numbers (TIFF 6.0, section 2, types 5 and 10).

ghost use Rattle.std.specs.Prelude.{◌≡◌, Some, unwrap_or};
ghost use Rattle.std.specs.Fmt.{spec_align, spec_width};
ghost use Rattle.std.specs.declared.fmt.Alignment.TheVariants.{Right};
ghost use Rattle.exif_text.specs.Pad.{pad};

use crate::decimal::Decimal;
use crate::pad::write_padded;
use arrayvec::ArrayString;
use itoa::Buffer;
use std::fmt;

/// A fraction without sign (TIFF 6.0, section 2, RATIONAL). Its text is `num/denom`, on the right
/// of its width; it is not reduced.
#[derive(Clone, Copy, PartialEq, Eq)]
pub struct Rational {
    /// The upper number.
    pub num: u32,
    /// The lower number, which may be 0.
    pub denom: u32,
}

/// A fraction with sign (TIFF 6.0, section 2, SRATIONAL). Its text is `num/denom`, on the right of
/// its width; it is not reduced.
#[derive(Clone, Copy, PartialEq, Eq)]
pub struct SRational {
    /// The upper number.
    pub num: i32,
    /// The lower number, which may be 0.
    pub denom: i32,
}

impl Rational {
    ghost use Rattle.exif_text.specs.Decimal.{rational_decimal, shown_decimal};
    ghost use Rattle.exif_text.specs.Rational.{rational_text};

    /// The fraction as a decimal, cut after nine places. It takes no memory.
    pub fn decimal(&self) -> Decimal
        ensures { shown_decimal result ≡ rational_decimal self.now }
    {
        Decimal::new(false, self.num, self.denom)
    }

    // The two numbers, each of at most ten digits, around a slash.
    fn text(self) -> ArrayString<21>
        ensures { result.bytes ≡ rational_text self }
    {
        let Rational { num, denom } = self;
        let mut digits = Buffer::new();
        let mut text = ArrayString::new();
        text.push_str(digits.format(num));
        text.push_str("/");
        text.push_str(digits.format(denom));
        text
    }
}

impl SRational {
    ghost use Rattle.exif_text.specs.Decimal.{shown_decimal, srational_decimal};
    ghost use Rattle.exif_text.specs.Rational.{srational_text};

    /// The fraction as a decimal, cut after nine places. Over 0 it keeps the sign of `num`.
    pub fn decimal(&self) -> Decimal
        ensures { shown_decimal result ≡ srational_decimal self.now }
    {
        Decimal::new(
            (self.num < 0) != (self.denom < 0),
            self.num.unsigned_abs(),
            self.denom.unsigned_abs(),
        )
    }

    // The two numbers, each of at most ten digits and a sign, around a slash.
    fn text(self) -> ArrayString<23>
        ensures { result.bytes ≡ srational_text self }
    {
        let SRational { num, denom } = self;
        let mut digits = Buffer::new();
        let mut text = ArrayString::new();
        text.push_str(digits.format(num));
        text.push_str("/");
        text.push_str(digits.format(denom));
        text
    }
}

impl From<(u32, u32)> for Rational {
    ghost from_gives = { λ pair r. r ≡ record { num = pair.0; denom = pair.1 } };

    fn from(pair: (u32, u32)) -> Rational {
        Rational {
            num: pair.0,
            denom: pair.1,
        }
    }
}

impl From<(i32, i32)> for SRational {
    ghost from_gives = { λ pair r. r ≡ record { num = pair.0; denom = pair.1 } };

    fn from(pair: (i32, i32)) -> SRational {
        SRational {
            num: pair.0,
            denom: pair.1,
        }
    }
}

impl fmt::Display for Rational {
    ghost use Rattle.exif_text.specs.Rational.{rational_text};

    ghost output = { λ r. Some (rational_text r) };

    ghost styled_output = { λ r spec. Some (pad (rational_text r)
        (unwrap_or (spec_width spec) 0) (unwrap_or (spec_align spec) Right)) };

    fn fmt<W: fmt::Write>(&self, f: &mut fmt::Formatter<W>) -> fmt::Result {
        write_padded(f, self.text().as_str(), fmt::Alignment::Right)
    }
}

impl fmt::Display for SRational {
    ghost use Rattle.exif_text.specs.Rational.{srational_text};

    ghost output = { λ r. Some (srational_text r) };

    ghost styled_output = { λ r spec. Some (pad (srational_text r)
        (unwrap_or (spec_width spec) 0) (unwrap_or (spec_align spec) Right)) };

    fn fmt<W: fmt::Write>(&self, f: &mut fmt::Formatter<W>) -> fmt::Result {
        write_padded(f, self.text().as_str(), fmt::Alignment::Right)
    }
}

impl fmt::Debug for Rational {
    fn fmt<W: fmt::Write>(&self, f: &mut fmt::Formatter<W>) -> fmt::Result {
        let Rational { num, denom } = *self;
        write!(f, "Rational({num}/{denom})")
    }
}

impl fmt::Debug for SRational {
    fn fmt<W: fmt::Write>(&self, f: &mut fmt::Formatter<W>) -> fmt::Result {
        let SRational { num, denom } = *self;
        write!(f, "SRational({num}/{denom})")
    }
}

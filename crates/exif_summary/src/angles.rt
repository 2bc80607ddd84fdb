//! Angles in degrees, minutes and seconds as decimal degrees, by whole numbers.

ghost use Rattle.std.specs.Prelude.{◌≡◌, ◌+◌, ◌*◌, ◌^◌, ◌<◌, ◌≤◌, Some, suc};

use exif_text::Rational;
use std::fmt;

/// How many units are a degree.
const UNITS: u64 = 10_000_000;

/// Degrees as a fraction.
#[derive(Clone, Copy)]
pub(crate) struct Angle {
    pub(crate) over: u128,
    pub(crate) under: u128,
}

/// The product of three numbers of 32 bits.
fn product(a: u32, b: u32, c: u32) -> u128
    ensures value { result ≡ a * b * c }
    ensures bound { result < 2 ^ 96 }
{
    u128::from(a) * u128::from(b) * u128::from(c)
}

impl Angle {
    ghost use Rattle.exif_summary.specs.Coordinates.{angle_of, is_within, units_of};

    /// Degrees, minutes and seconds together.
    pub(crate) fn of(d: Rational, m: Rational, s: Rational) -> Angle
        ensures over { result.over ≡ (angle_of d m s).over }
        ensures under { result.under ≡ (angle_of d m s).under }
        ensures bound { (result.over < 2 ^ 110) × (result.under < 2 ^ 108) }
    {
        Angle {
            over: product(d.num, m.denom, s.denom) * 3600
                + product(m.num, d.denom, s.denom) * 60
                + product(s.num, d.denom, m.denom),
            under: product(d.denom, m.denom, s.denom) * 3600,
        }
    }

    /// Whether it has a value, and that of at most so many degrees.
    pub(crate) fn is_within(self, most: u8) -> bool
        requires { self.under < 2 ^ 108 }
        ensures { result ≡ is_within most (record { over = self.over; under = self.under }) }
    {
        self.under > 0 && self.over <= u128::from(most) * self.under
    }

    /// The angle in units of a ten millionth of a degree, to the nearest, half up.
    #[tactic(auto, unfolding(crate::specs::Coordinates::units_of))]
    pub(crate) fn units(self) -> u64
        requires { (0 < self.under) × (self.under < 2 ^ 108) × (self.over ≤ 255 * self.under) }
        ensures { result ≡ units_of (record { over = self.over; under = self.under }) }
    {
        let whole = self.over / self.under;
        let thousandths = self.over % self.under * 1000;
        let first = thousandths / self.under;
        let last = (thousandths % self.under * 20_000 + self.under) / (2 * self.under);
        (whole * 10_000_000 + first * 10_000 + last) as u64
    }
}

/// A coordinate in units of a ten millionth of a degree.
#[derive(Clone, Copy)]
pub struct Degrees {
    /// Whether it is south or west.
    pub negative: bool,
    /// How many units.
    pub units: u64,
}

impl fmt::Display for Degrees {
    ghost use Rattle.exif_summary.specs.Coordinates.{degrees_text};

    ghost output = { λ d. Some (degrees_text d.negative d.units) };

    fn fmt<W: fmt::Write>(&self, f: &mut fmt::Formatter<W>) -> fmt::Result {
        if self.negative {
            f.write_str("-")?;
        }
        write!(f, "{}.{:07}", self.units / UNITS, self.units % UNITS)
    }
}

/// One coordinate: its tags in the GPS directory, the letters of its halves and its range.
pub struct Axis {
    /// The tag of the coordinate.
    pub value: u16,
    /// The tag of its half.
    pub reference: u16,
    /// The letter of the positive half.
    pub positive: u8,
    /// The letter of the negative half.
    pub negative: u8,
    /// How many degrees it has at most.
    pub most: u8,
}

/// From the equator to the north or to the south.
pub const LATITUDE: Axis = Axis {
    value: 2,
    reference: 1,
    positive: b'N',
    negative: b'S',
    most: 90,
};

/// From Greenwich to the east or to the west.
pub const LONGITUDE: Axis = Axis {
    value: 4,
    reference: 3,
    positive: b'E',
    negative: b'W',
    most: 180,
};

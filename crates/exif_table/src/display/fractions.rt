//! Texts of fractions by the kind of their tag.

ghost use Rattle.std.specs.Prelude.{◌≡◌, List, ℕ};
ghost use Rattle.std.specs.Fmt.{WritesOnOk};
ghost use Rattle.exif_text.specs.Contents.{contents_view};
ghost use Rattle.exif_text.specs.Plain.{listed};
ghost use Rattle.exif_text.specs.Decimal.{rational_decimal, shown_decimal, srational_decimal};
ghost use Rattle.exif_table.specs.Fractions.{clock_part, decimals_text, degrees_text, exposure_time_text, lens_text, optional_decimal_text, subject_distance_text, time_stamp_text, zoom_ratio_text};

use exif_text::plain::write_plain;
use exif_text::{Contents, Decimal, Rational, SRational};
use std::fmt;
use std::fmt::Display;

/// Writes each fraction as a decimal.
pub(crate) fn write_decimals<W: fmt::Write>(
    f: &mut fmt::Formatter<W>,
    contents: Contents<'_>,
) -> fmt::Result
    ensures { WritesOnOk W.write_str_gives f.old result
        (decimals_text (contents_view contents.entry)) f.new }
{
    match contents {
        Contents::Rational(items) => write_decimal_list(f, items),
        Contents::SRational(items) => write_decimal_list(f, items),
        _ => write_plain(f, contents),
    }
}

/// A fraction that has a decimal.
trait AsDecimal {
    ghost decimal_output: { Self → List ℕ };

    fn as_decimal(&self) -> Decimal
        ensures { shown_decimal result ≡ decimal_output self.now };
}

impl AsDecimal for Rational {
    ghost decimal_output = { rational_decimal };

    fn as_decimal(&self) -> Decimal {
        self.decimal()
    }
}

impl AsDecimal for SRational {
    ghost decimal_output = { srational_decimal };

    fn as_decimal(&self) -> Decimal {
        self.decimal()
    }
}

fn write_decimal_list<T: AsDecimal, W: fmt::Write>(
    f: &mut fmt::Formatter<W>,
    items: &[T],
) -> fmt::Result
    ensures { WritesOnOk W.write_str_gives f.old result (listed T.decimal_output items.now) f.new }
{
    let Some((first, others)) = items.split_first() else {
        return Ok(());
    };
    first.as_decimal().fmt(f)?;
    for item in others {
        f.write_str(", ")?;
        item.as_decimal().fmt(f)?;
    }
    Ok(())
}

/// Writes the first fraction as a decimal, or that it is unknown.
pub(crate) fn write_optional_decimal<W: fmt::Write>(
    f: &mut fmt::Formatter<W>,
    contents: Contents<'_>,
) -> fmt::Result
    ensures { WritesOnOk W.write_str_gives f.old result
        (optional_decimal_text (contents_view contents.entry)) f.new }
{
    match contents {
        Contents::Rational([item, ..]) if item.denom == u32::MAX => f.write_str("unknown"),
        Contents::Rational([item, ..]) => item.decimal().fmt(f),
        Contents::SRational([item, ..]) if item.denom == -1 => f.write_str("unknown"),
        Contents::SRational([item, ..]) => item.decimal().fmt(f),
        _ => write_decimals(f, contents),
    }
}

/// Writes seconds, below one as `1/` and a decimal.
pub(crate) fn write_exposure_time<W: fmt::Write>(
    f: &mut fmt::Formatter<W>,
    contents: Contents<'_>,
) -> fmt::Result
    ensures { WritesOnOk W.write_str_gives f.old result
        (exposure_time_text (contents_view contents.entry)) f.new }
{
    match contents {
        Contents::Rational([time, ..]) if time.num >= time.denom => time.decimal().fmt(f),
        Contents::Rational([time, ..]) if time.num != 0 => {
            f.write_str("1/")?;
            let inverse = Rational {
                num: time.denom,
                denom: time.num,
            };
            inverse.decimal().fmt(f)
        }
        _ => write_plain(f, contents),
    }
}

/// Writes a distance, which may be unknown or without end.
pub(crate) fn write_subject_distance<W: fmt::Write>(
    f: &mut fmt::Formatter<W>,
    contents: Contents<'_>,
) -> fmt::Result
    ensures { WritesOnOk W.write_str_gives f.old result
        (subject_distance_text (contents_view contents.entry)) f.new }
{
    match contents {
        Contents::Rational([item, ..]) if item.num == 0 => f.write_str("unknown"),
        Contents::Rational([item, ..]) if item.num == u32::MAX => f.write_str("infinity"),
        _ => write_decimals(f, contents),
    }
}

/// Writes a ratio, which is 0 where there was no zoom.
pub(crate) fn write_zoom_ratio<W: fmt::Write>(
    f: &mut fmt::Formatter<W>,
    contents: Contents<'_>,
) -> fmt::Result
    ensures { WritesOnOk W.write_str_gives f.old result
        (zoom_ratio_text (contents_view contents.entry)) f.new }
{
    match contents {
        Contents::Rational([item, ..]) if item.num == 0 => f.write_str("unused"),
        _ => write_decimals(f, contents),
    }
}

/// Writes a range of focal lengths and a range of F numbers.
pub(crate) fn write_lens<W: fmt::Write>(
    f: &mut fmt::Formatter<W>,
    contents: Contents<'_>,
) -> fmt::Result
    ensures { WritesOnOk W.write_str_gives f.old result
        (lens_text (contents_view contents.entry)) f.new }
{
    match contents {
        Contents::Rational([short, long, wide, tele, ..]) => {
            let (short, long) = (short.decimal(), long.decimal());
            let (wide, tele) = (wide.decimal(), tele.decimal());
            write!(f, "{short}-{long} mm, f/{wide}-{tele}")
        }
        _ => write_plain(f, contents),
    }
}

/// Writes degrees, minutes and seconds.
pub(crate) fn write_degrees<W: fmt::Write>(
    f: &mut fmt::Formatter<W>,
    contents: Contents<'_>,
) -> fmt::Result
    ensures { WritesOnOk W.write_str_gives f.old result
        (degrees_text (contents_view contents.entry)) f.new }
{
    match contents {
        Contents::Rational([degrees, minutes, seconds, ..]) => {
            let (degrees, minutes, seconds) = (
                degrees.decimal(),
                minutes.decimal(),
                seconds.decimal(),
            );
            write!(f, "{degrees} deg {minutes} min {seconds} sec")
        }
        _ => write_plain(f, contents),
    }
}

/// Writes hours, minutes and seconds.
pub(crate) fn write_time_stamp<W: fmt::Write>(
    f: &mut fmt::Formatter<W>,
    contents: Contents<'_>,
) -> fmt::Result
    ensures { WritesOnOk W.write_str_gives f.old result
        (time_stamp_text (contents_view contents.entry)) f.new }
{
    match contents {
        Contents::Rational([hours, minutes, seconds, ..]) => {
            write_clock_part(f, *hours)?;
            f.write_str(":")?;
            write_clock_part(f, *minutes)?;
            f.write_str(":")?;
            write_clock_part(f, *seconds)
        }
        _ => write_plain(f, contents),
    }
}

/// Writes a decimal, behind a 0 where it is below ten.
fn write_clock_part<W: fmt::Write>(f: &mut fmt::Formatter<W>, part: Rational) -> fmt::Result
    ensures { WritesOnOk W.write_str_gives f.old result (clock_part part) f.new }
{
    if u64::from(part.num) < 10 * u64::from(part.denom) {
        f.write_str("0")?;
    }
    part.decimal().fmt(f)
}

//! The texts of dates and of times of day.

ghost use Rattle.std.specs.Prelude.{◌≡◌};
ghost use Rattle.std.specs.Fmt.{WritesOnOk, decimal};
ghost use Rattle.exif_text.specs.Plain.{zero_filled};
ghost use Rattle.exif_text.specs.Clock.{date_text, time_text};
ghost use Rattle.exif_text.specs.Dates.{datetime_text};

use crate::date::{Date, TimeOfDay};
use std::fmt;

/// Writes `2016-05-04 03:02:01`.
#[tactic(auto, unfolding(crate::specs::Dates::datetime_text))]
pub fn write_date_time<W: fmt::Write>(
    f: &mut fmt::Formatter<W>,
    date: Date,
    time: TimeOfDay,
) -> fmt::Result
    ensures { WritesOnOk W.write_str_gives f.old result (datetime_text date time) f.new }
{
    write_date(f, date)?;
    f.write_str(" ")?;
    write_time(f, time)
}

/// Writes `2016-05-04`.
pub fn write_date<W: fmt::Write>(f: &mut fmt::Formatter<W>, date: Date) -> fmt::Result
    ensures { WritesOnOk W.write_str_gives f.old result (date_text date) f.new }
{
    write_four(f, date.year)?;
    f.write_str("-")?;
    write_two(f, date.month)?;
    f.write_str("-")?;
    write_two(f, date.day)
}

/// Writes `03:02:01`.
pub fn write_time<W: fmt::Write>(f: &mut fmt::Formatter<W>, time: TimeOfDay) -> fmt::Result
    ensures { WritesOnOk W.write_str_gives f.old result (time_text time) f.new }
{
    write_two(f, time.hour)?;
    f.write_str(":")?;
    write_two(f, time.minute)?;
    f.write_str(":")?;
    write_two(f, time.second)
}

/// Writes a number with zeros before it up to two digits.
pub fn write_two<W: fmt::Write>(f: &mut fmt::Formatter<W>, n: u8) -> fmt::Result
    ensures { WritesOnOk W.write_str_gives f.old result (zero_filled 2 (decimal n)) f.new }
{
    write!(f, "{n:02}")
}

fn write_four<W: fmt::Write>(f: &mut fmt::Formatter<W>, n: u16) -> fmt::Result
    ensures { WritesOnOk W.write_str_gives f.old result (zero_filled 4 (decimal n)) f.new }
{
    write!(f, "{n:04}")
}

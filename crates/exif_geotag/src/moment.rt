//! A time of UTC as its day and its time of day.

ghost use Rattle.std.specs.Prelude.{◌≡◌, Some};
ghost use Rattle.exif_geotag.specs.Moments.{moment_at, moment_text};

use exif_datetime::moment_at as date_and_time_at;
use exif_text::clock::{write_date, write_time};
use exif_text::date::{Date, TimeOfDay};
use std::fmt;

/// A time of UTC.
#[derive(Clone, Copy)]
pub struct Moment {
    /// The day.
    pub date: Date,
    /// The time of the day.
    pub time: TimeOfDay,
    /// The thousandths of its second.
    pub millisecond: u16,
}

/// The day and the time of day of a time, in milliseconds of UTC as [`time_of`](crate::time_of) has
/// them; `None` from the year 10000 on. It takes no memory.
pub fn moment_at(time: u64) -> Option<Moment>
    ensures { result ≡ moment_at time }
{
    let (date, time_of_day) = date_and_time_at(time / 1_000)?;
    Some(Moment {
        date,
        time: time_of_day,
        millisecond: (time % 1_000) as u16,
    })
}

/// `2024-05-01T02:30:01Z`; the fraction of a second is left out.
impl fmt::Display for Moment {
    ghost output = { λ moment. Some (moment_text moment) };

    fn fmt<W: fmt::Write>(&self, f: &mut fmt::Formatter<W>) -> fmt::Result {
        write_date(f, self.date)?;
        f.write_str("T")?;
        write_time(f, self.time)?;
        f.write_str("Z")
    }
}

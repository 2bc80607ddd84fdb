//! Dates with their time of day (Exif 2.32, section 4.6.4, DateTime, and section 4.6.5).

ghost use Rattle.std.specs.Prelude.{◌≡◌, Some};
ghost use Rattle.exif_types.specs.Refusals.{refusal_of};
ghost use Rattle.exif_datetime.specs.Dates.{calendar_date, date_of, refusal_for, time_of_day};

use exif_text::DateFault;
use exif_text::clock::write_date_time;
use exif_text::date::{Date, TimeOfDay, read_date_time};
use exif_text::offset::read_offset;
use exif_text::subsec::read_subsec;
use exif_types::Error;
use std::fmt;

/// A date and a time of day. It is shown as `2016-05-04 03:02:01`, without fraction and offset, and
/// takes no notice of a width.
///
/// ```
/// let mut taken = match DateTime::from_ascii(date) {
///     Ok(taken) => taken,
///     Err(Error::BlankValue(_)) => return Ok(None),
///     Err(error) => return Err(error),
/// };
/// ```
#[derive(Clone, Copy, Debug, PartialEq, Eq)]
pub struct DateTime {
    /// The year, as its digits are.
    pub year: u16,
    /// The month, 1 for January.
    pub month: u8,
    /// The day of the month.
    pub day: u8,
    /// The hour of the day.
    pub hour: u8,
    /// The minute of the hour.
    pub minute: u8,
    /// The second of the minute.
    pub second: u8,
    /// The part of the second in nanoseconds, where it is known.
    pub nanosecond: Option<u32>,
    /// The minutes ahead of UTC, where they are known.
    pub offset: Option<i16>,
}

impl DateTime {
    ghost use Rattle.exif_types.specs.Refusals.{Answers};
    ghost use Rattle.exif_datetime.specs.Dates.{read_date, read_offset, read_subsec, was_read, with_offset, with_subsec};

    /// Reads `2016:05:04 03:02:01` (Exif 2.32, 4.6.4 D). Ranges are not checked, and more bytes are
    /// ignored. A date of spaces, or of spaces between colons, is refused as `BlankValue`, another
    /// that is none as `InvalidFormat`. It takes no memory.
    pub fn from_ascii(bytes: &[u8]) -> Result<DateTime, Error>
        ensures { Answers (λ date. date) result (read_date bytes.now) }
    {
        match read_date_time(bytes) {
            Ok((date, time)) => Ok(DateTime::of(date, time)),
            Err(fault) => Err(refused(fault)),
        }
    }

    // A date and a time of day, of which no more is known.
    fn of(date: Date, time: TimeOfDay) -> DateTime
        ensures { result ≡ date_of (date, time) }
    {
        DateTime {
            year: date.year,
            month: date.month,
            day: date.day,
            hour: time.hour,
            minute: time.minute,
            second: time.second,
            nanosecond: None,
            offset: None,
        }
    }

    // The date alone.
    fn date(self) -> Date
        ensures { result ≡ calendar_date self }
    {
        Date {
            year: self.year,
            month: self.month,
            day: self.day,
        }
    }

    // The time of day.
    fn time(self) -> TimeOfDay
        ensures { result ≡ time_of_day self }
    {
        TimeOfDay {
            hour: self.hour,
            minute: self.minute,
            second: self.second,
        }
    }

    /// Sets the fraction of the second that up to nine digits before a space spell (Exif 2.32,
    /// 4.6.5, SubsecTime), `None` where there are no digits. More bytes are ignored. Bytes that are
    /// no digits are refused as `InvalidFormat`. A refusal changes nothing. It takes no memory.
    pub fn parse_subsec(&mut self, bytes: &[u8]) -> Result<(), Error>
        ensures answer { Answers (λ done. done) result (was_read (read_subsec bytes.now)) }
        ensures after { self.new ≡ with_subsec self.old (read_subsec bytes.now) }
    {
        match read_subsec(bytes) {
            Ok(nanosecond) => {
                self.nanosecond = nanosecond;
                Ok(())
            }
            Err(fault) => Err(refused(fault)),
        }
    }

    /// Sets the offset that `+hh:mm` or `-hh:mm` spells (Exif 2.32, 4.6.5, OffsetTime). More bytes
    /// are ignored. An offset of spaces, or of spaces around a colon, is refused as `BlankValue`,
    /// another that is none as `InvalidFormat`. A refusal changes nothing. It takes no memory.
    pub fn parse_offset(&mut self, bytes: &[u8]) -> Result<(), Error>
        ensures answer { Answers (λ done. done) result (was_read (read_offset bytes.now)) }
        ensures after { self.new ≡ with_offset self.old (read_offset bytes.now) }
    {
        match read_offset(bytes) {
            Ok(minutes) => {
                self.offset = Some(minutes);
                Ok(())
            }
            Err(fault) => Err(refused(fault)),
        }
    }
}

impl fmt::Display for DateTime {
    ghost use Rattle.exif_datetime.specs.Dates.{date_text};

    ghost output = { λ date. Some (date_text date) };

    fn fmt<W: fmt::Write>(&self, f: &mut fmt::Formatter<W>) -> fmt::Result {
        write_date_time(f, self.date(), self.time())
    }
}

// The error that a fault is.
fn refused(fault: DateFault) -> Error
    ensures { refusal_of result ≡ Some (refusal_for fault) }
{
    match fault {
        DateFault::BlankDate | DateFault::BlankOffset => Error::BlankValue(fault.message()),
        _ => Error::InvalidFormat(fault.message()),
    }
}

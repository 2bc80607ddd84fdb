//! Dates with their time of day: as Exif data have them, in the calendar, and moved by a shift of a
//! clock.
#![tactic(auto)]

mod calendar;
pub mod datetime;
pub mod laws;
mod numbers;
mod shift;

pub use calendar::{is_day, is_time, moment_at, seconds_of};
pub use datetime::DateTime;
pub use numbers::{cut, number_below};
pub use shift::{ClockShift, Unmoved, moved_value, stated};

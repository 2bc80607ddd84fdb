//! The order in which pictures get the numbers of one name.

ghost use Rattle.std.specs.Prelude.{◌≡◌};
ghost use Rattle.exif_rename.specs.Orders.{dated_cmp, moment_cmp, shot_cmp};

use crate::naming::Taken;
use std::cmp::Ordering;

/// When a picture was taken, with the fraction of the second.
#[derive(Clone, Copy, Debug, PartialEq, Eq)]
pub struct Moment {
    /// The date and the time.
    pub taken: Taken,
    /// The nanoseconds after it, below 1,000,000,000.
    pub nanosecond: u32,
}

/// A picture that is to be renamed.
#[derive(Clone, Copy, Debug)]
pub struct Shot<'a> {
    /// When it was taken, if that is known.
    pub moment: Option<Moment>,
    /// Its path.
    pub path: &'a str,
}

/// Which of two pictures gets the lower number: the one that was taken earlier, to the nanosecond.
/// So the pictures of one second are in the order of their fractions, also where the camera's own
/// counter starts again. A picture without a date comes after those with one; equal ones are in the
/// order of the bytes of their paths.
pub fn compare_shots(a: &Shot<'_>, b: &Shot<'_>) -> Ordering
    ensures { result ≡ shot_cmp a.now b.now }
{
    compare_dates(&a.moment, &b.moment).then(a.path.cmp(&b.path))
}

// Which of two dates comes first; none comes last.
fn compare_dates(a: &Option<Moment>, b: &Option<Moment>) -> Ordering
    ensures { result ≡ dated_cmp a.now b.now }
{
    match (a, b) {
        (Some(a), Some(b)) => compare_moments(a, b),
        (Some(_), None) => Ordering::Less,
        (None, Some(_)) => Ordering::Greater,
        (None, None) => Ordering::Equal,
    }
}

// Which of two moments comes first.
fn compare_moments(a: &Moment, b: &Moment) -> Ordering
    ensures { result ≡ moment_cmp a.now b.now }
{
    let days = (a.taken.year.cmp(&b.taken.year))
        .then(a.taken.month.cmp(&b.taken.month))
        .then(a.taken.day.cmp(&b.taken.day));
    let seconds = (a.taken.hour.cmp(&b.taken.hour))
        .then(a.taken.minute.cmp(&b.taken.minute))
        .then(a.taken.second.cmp(&b.taken.second));
    days.then(seconds).then(a.nanosecond.cmp(&b.nanosecond))
}

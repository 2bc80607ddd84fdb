//! The location at a time, by a binary search.

ghost use Rattle.std.specs.Prelude.{◌≡◌};
ghost use Rattle.exif_geotag.specs.Between.{fix_at};
ghost use Rattle.exif_geotag.specs.Reached.{Reaches};
ghost use Rattle.exif_geotag.specs.Sorting.{AreInOrder};

use crate::between::{fix_at_last, fix_before};
use crate::point::{Fix, Point};

// How many points are at or before a time.
fn reached(time: u64, points: &[Point]) -> usize
    requires { AreInOrder points.now }
    ensures { Reaches time points.now result }
{
    points.partition_point(|point| point.time <= time)
}

/// The location at a time of a track with these points, in the order of their times; none between
/// two that are further apart than `max_gap`.
pub(crate) fn fix_at(max_gap: u64, time: u64, points: &[Point]) -> Option<Fix>
    requires { AreInOrder points.now }
    ensures { result ≡ fix_at max_gap time points.now }
{
    let next = reached(time, points);
    if next == 0 {
        return None;
    }
    let last = points[next - 1];
    if next < points.len() {
        fix_before(max_gap, time, last, points[next])
    } else {
        fix_at_last(time, last)
    }
}

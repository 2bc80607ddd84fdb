//! Locations between two points of a track.

ghost use Rattle.std.specs.Prelude.{◌≡◌, ◌+◌, ◌*◌, ◌-◌, ◌/◌, ◌<◌, ◌≤◌, ◌^◌};
ghost use Rattle.exif_geotag.specs.Between.{between, elevation_between, fix_at_last, fix_before, fix_of, interpolated, longitude_between, wrapped};

use crate::point::{Fix, Point};

// All longitudes, in units of 1e-7 degree.
const TURN: u64 = 3_600_000_000;

// A part of a number of units: rounded down.
fn part_of(units: u64, part: u64, all: u64) -> u64
    requires some { 0 < all }
    requires part { part ≤ all }
    requires units { units < 2 ^ 34 }
    ensures value { result ≡ units * part / all }
    ensures within { result ≤ units }
{
    (u128::from(units) * u128::from(part) / u128::from(all)) as u64
}

// The number at so many of all parts of the way between two, rounded towards the first.
fn between(from: u64, to: u64, part: u64, all: u64) -> u64
    requires some { 0 < all }
    requires part { part ≤ all }
    requires from { from < 2 ^ 33 }
    requires to { to < 2 ^ 33 }
    ensures value { result ≡ between from to part all }
    ensures low { from ≤ to → (from ≤ result) × (result ≤ to) }
    ensures high { to ≤ from → (to ≤ result) × (result ≤ from) }
{
    if from <= to {
        from + part_of(to - from, part, all)
    } else {
        from - part_of(from - to, part, all)
    }
}

// A longitude that may be past 180 degrees, as one that is not.
fn wrapped(longitude: u64) -> u64
    ensures { result ≡ wrapped longitude }
{
    if TURN < longitude {
        longitude - TURN
    } else {
        longitude
    }
}

// The same of two longitudes, the short way round.
fn longitude_between(from: u32, to: u32, part: u64, all: u64) -> u32
    requires some { 0 < all }
    requires part { part ≤ all }
    ensures { result ≡ longitude_between from to part all }
{
    let (from, to) = (u64::from(from), u64::from(to));
    let longitude = if from + TURN / 2 < to {
        wrapped(between(from + TURN, to, part, all))
    } else if to + TURN / 2 < from {
        wrapped(between(from, to + TURN, part, all))
    } else {
        between(from, to, part, all)
    };
    longitude as u32
}

// The same of two elevations, if both are known.
fn elevation_between(from: Option<u32>, to: Option<u32>, part: u64, all: u64) -> Option<u32>
    requires some { 0 < all }
    requires part { part ≤ all }
    ensures { result ≡ elevation_between from to part all }
{
    match (from, to) {
        (Some(from), Some(to)) => {
            Some(between(u64::from(from), u64::from(to), part, all) as u32)
        }
        _ => None,
    }
}

// The location of a point.
fn fix_of(point: Point) -> Fix
    ensures { result ≡ fix_of point }
{
    Fix {
        latitude: point.latitude,
        longitude: point.longitude,
        elevation: point.elevation,
    }
}

// The location at a time between two points.
fn interpolated(time: u64, from: Point, to: Point) -> Fix
    requires order { from.time < to.time }
    requires after { from.time ≤ time }
    requires before { time ≤ to.time }
    ensures { result ≡ interpolated time from to }
{
    let part = time - from.time;
    let all = to.time - from.time;
    let latitude = between(u64::from(from.latitude), u64::from(to.latitude), part, all);
    Fix {
        latitude: latitude as u32,
        longitude: longitude_between(from.longitude, to.longitude, part, all),
        elevation: elevation_between(from.elevation, to.elevation, part, all),
    }
}

/// The location at a time behind the last point, if it is the time of that point.
pub(crate) fn fix_at_last(time: u64, last: Point) -> Option<Fix>
    ensures { result ≡ fix_at_last time last }
{
    if last.time == time {
        Some(fix_of(last))
    } else {
        None
    }
}

/// The location at a time before the next point: that of the last point if it is its time, else one
/// between the two, if they are no further apart than `max_gap`.
pub(crate) fn fix_before(max_gap: u64, time: u64, last: Point, next: Point) -> Option<Fix>
    requires after { last.time ≤ time }
    requires before { time < next.time }
    ensures { result ≡ fix_before max_gap time last next }
{
    if last.time == time {
        return Some(fix_of(last));
    }
    if next.time - last.time <= max_gap {
        Some(interpolated(time, last, next))
    } else {
        None
    }
}

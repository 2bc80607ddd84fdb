//! A point of a track, and a location on it.

/// A point of a track, with its time.
#[derive(Clone, Copy, Debug, PartialEq, Eq)]
pub struct Point {
    /// Milliseconds of UTC from the start of the year 0 of the Gregorian calendar.
    pub time: u64,
    /// Units of 1e-7 degree from the south pole on: the equator is 900 million.
    pub latitude: u32,
    /// Units of 1e-7 degree from 180 degrees west on: Greenwich is 1800 million.
    pub longitude: u32,
    /// Millimetres from 1000 km below the sea level on, if it is known: the sea level is 1000
    /// million.
    pub elevation: Option<u32>,
}

/// Where a track was at a time, in the units of a point.
#[derive(Clone, Copy, Debug, PartialEq, Eq)]
pub struct Fix {
    /// Units of 1e-7 degree from the south pole on.
    pub latitude: u32,
    /// Units of 1e-7 degree from 180 degrees west on.
    pub longitude: u32,
    /// Millimetres from 1000 km below the sea level on, if it is known.
    pub elevation: Option<u32>,
}

//! The headers of videos and of their tracks (ISO/IEC 14496-12:2015, 8.2.2, 8.3.2, 8.4.2).

ghost use Rattle.std.specs.Prelude.{◌≡◌, ◌≤◌, ◌+◌, length};
ghost use Rattle.exif_movie_facts.specs.Headers.{long_duration, long_duration_at, long_header, long_track, movie_header, rotation, rotation_of, shaped, short_duration, short_header, short_track, track_header, unix_seconds};

use crate::number::{u32_of, u64_of};

// From the start of 1904 to that of 1970, both in UTC.
const SECONDS_1904_TO_1970: u64 = 2_082_844_800;

// How many bytes of a movie header are read, by its version.
const SHORT_HEADER_LEN: usize = 20;

const LONG_HEADER_LEN: usize = 32;

// The length of a track header, by its version.
const SHORT_TRACK_LEN: usize = 84;

const LONG_TRACK_LEN: usize = 96;

// Numbers of a matrix, in units of 1/65,536.
const ONE: u32 = 0x1_0000;

const MINUS_ONE: u32 = 0xffff_0000;

/// The fields of a movie header (`mvhd`), or of a media header (`mdhd`).
#[derive(Clone, Copy, Debug, PartialEq, Eq)]
pub struct MovieHeader {
    /// The creation time, in seconds since the start of 1904 in UTC. Many programs write 0 where
    /// they know none.
    pub created: u64,
    /// The modification time, in the same seconds.
    pub modified: u64,
    /// How many units of time a second has.
    pub timescale: u32,
    /// The duration in these units. `None` if it is stated to be unknown.
    pub duration: Option<u64>,
}

/// The fields of a track header (`tkhd`).
#[derive(Clone, Copy, Debug, PartialEq, Eq)]
pub struct TrackHeader {
    /// The creation time, in seconds since the start of 1904 in UTC.
    pub created: u64,
    /// The modification time, in the same seconds.
    pub modified: u64,
    /// The duration in the units of the movie header. `None` if it is stated to be unknown.
    pub duration: Option<u64>,
    /// The width of the picture before rotation, in units of 1/65,536 pixel.
    pub width: u32,
    /// The height of the picture before rotation, in units of 1/65,536 pixel.
    pub height: u32,
    /// The rotation for display in degrees clockwise: 0, 90, 180 or 270. `None` if the matrix is no
    /// such rotation.
    pub rotation: Option<u16>,
}

// A duration of four bytes; all ones are an unknown one.
fn short_duration(duration: u32) -> Option<u64>
    ensures { result ≡ short_duration duration }
{
    if duration == u32::MAX {
        None
    } else {
        Some(u64::from(duration))
    }
}

// A duration of eight bytes; all ones are an unknown one.
fn long_duration(duration: u64) -> Option<u64>
    ensures { result ≡ long_duration duration }
{
    if duration == u64::MAX {
        None
    } else {
        Some(duration)
    }
}

// The duration of eight bytes at an offset.
fn long_duration_at(at: usize, content: &[u8]) -> Option<u64>
    requires { at + 8 ≤ length content.now }
    ensures { result ≡ long_duration_at at content.now }
{
    long_duration(u64_of(&content[at..]))
}

// A movie header of version 0: times and duration have four bytes.
fn short_header(content: &[u8]) -> Option<MovieHeader>
    ensures { result ≡ short_header content.now }
{
    if content.len() < SHORT_HEADER_LEN {
        return None;
    }
    Some(MovieHeader {
        created: u64::from(u32_of(&content[4..])),
        modified: u64::from(u32_of(&content[8..])),
        timescale: u32_of(&content[12..]),
        duration: short_duration(u32_of(&content[16..])),
    })
}

// A movie header of version 1: times and duration have eight bytes.
fn long_header(content: &[u8]) -> Option<MovieHeader>
    ensures { result ≡ long_header content.now }
{
    if content.len() < LONG_HEADER_LEN {
        return None;
    }
    Some(MovieHeader {
        created: u64_of(&content[4..]),
        modified: u64_of(&content[12..]),
        timescale: u32_of(&content[20..]),
        duration: long_duration_at(24, content),
    })
}

/// The fields in the content of a movie header, the box `mvhd` (ISO/IEC 14496-12:2015, 8.2.2).
///
/// A media header (`mdhd`, 8.4.2) begins with the same fields and can be read by this call. `None`
/// if the version is neither 0 nor 1, or the content ends before the duration does.
pub fn movie_header(content: &[u8]) -> Option<MovieHeader>
    ensures fields { result ≡ movie_header content.now }
{
    match content.first() {
        Some(0) => short_header(content),
        Some(1) => long_header(content),
        _ => None,
    }
}

/// The seconds since the start of 1970 of a time in seconds since the start of 1904, both in UTC.
/// `None` if it is before 1970, as the 0 of programs that know no time.
pub fn unix_seconds(time: u64) -> Option<u64>
    ensures seconds { result ≡ unix_seconds time }
{
    if time < SECONDS_1904_TO_1970 {
        None
    } else {
        Some(time - SECONDS_1904_TO_1970)
    }
}

// The rotation of a matrix by its four numbers a, b, c and d.
#[tactic(auto, unfolding(crate::specs::Headers::rotation))]
fn rotation(a: u32, b: u32, c: u32, d: u32) -> Option<u16>
    ensures { result ≡ rotation a b c d }
{
    if a == ONE && b == 0 && c == 0 && d == ONE {
        Some(0)
    } else if a == 0 && b == ONE && c == MINUS_ONE && d == 0 {
        Some(90)
    } else if a == MINUS_ONE && b == 0 && c == 0 && d == MINUS_ONE {
        Some(180)
    } else if a == 0 && b == MINUS_ONE && c == ONE && d == 0 {
        Some(270)
    } else {
        None
    }
}

// The rotation of the matrix that bytes begin with.
fn rotation_of(bytes: &[u8]) -> Option<u16>
    requires { 36 ≤ length bytes.now }
    ensures { result ≡ rotation_of bytes.now }
{
    rotation(
        u32_of(bytes),
        u32_of(&bytes[4..]),
        u32_of(&bytes[12..]),
        u32_of(&bytes[16..]),
    )
}

// A track header with these times, whose matrix, width and height are at an offset.
fn shaped(
    created: u64,
    modified: u64,
    duration: Option<u64>,
    at: usize,
    content: &[u8],
) -> TrackHeader
    requires { at + 44 ≤ length content.now }
    ensures { result ≡ shaped created modified duration at content.now }
{
    TrackHeader {
        created,
        modified,
        duration,
        width: u32_of(&content[at + 36..]),
        height: u32_of(&content[at + 40..]),
        rotation: rotation_of(&content[at..]),
    }
}

// A track header of version 0.
fn short_track(content: &[u8]) -> Option<TrackHeader>
    ensures { result ≡ short_track content.now }
{
    if content.len() < SHORT_TRACK_LEN {
        return None;
    }
    Some(shaped(
        u64::from(u32_of(&content[4..])),
        u64::from(u32_of(&content[8..])),
        short_duration(u32_of(&content[20..])),
        40,
        content,
    ))
}

// A track header of version 1.
fn long_track(content: &[u8]) -> Option<TrackHeader>
    ensures { result ≡ long_track content.now }
{
    if content.len() < LONG_TRACK_LEN {
        return None;
    }
    Some(shaped(
        u64_of(&content[4..]),
        u64_of(&content[12..]),
        long_duration_at(28, content),
        52,
        content,
    ))
}

/// The fields in the content of a track header, the box `tkhd` (ISO/IEC 14496-12:2015, 8.3.2).
///
/// `None` if the version is neither 0 nor 1, or the content ends before the height does.
pub fn track_header(content: &[u8]) -> Option<TrackHeader>
    ensures fields { result ≡ track_header content.now }
{
    match content.first() {
        Some(0) => short_track(content),
        Some(1) => long_track(content),
        _ => None,
    }
}

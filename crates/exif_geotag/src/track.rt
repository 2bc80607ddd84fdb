//! A track: its points in the order of their times, and where it was at one.

ghost use Rattle.std.specs.Prelude.{◌≡◌};
ghost use Rattle.exif_geotag.specs.Walks.{without_points};

use crate::error::TrackError;
use crate::format::other_format;
use crate::gpx::{Points, Read, points_of};
use crate::point::{Fix, Point};
use crate::search::fix_at;
use exif_locations::xmp::Fault;
use std::alloc::{AllocError, Global};
use std::marker::Model;

/// The points of a track in the order of their times.
#[derive(Drop)]
pub struct Track {
    points: Vec<Point>,
    skipped: usize,
    cut_off: bool,
}

impl Model for Track {
    ghost use Rattle.exif_geotag.specs.Sorting.{AreInOrder};
    ghost use Rattle.exif_geotag.specs.Walks.{TrackView};

    ghost Value = { TrackView };

    ghost view = { λ track. record {
      points = track.points.items;
      skipped = track.skipped;
      cut_off = track.cut_off;
    } };

    ghost invariant = { λ track. AreInOrder track.points.items };
}

// Why a file without a point is no track.
fn without_points(cut_off: bool) -> TrackError
    ensures { result ≡ without_points cut_off }
{
    if cut_off {
        TrackError::Xml(Fault::Cut)
    } else {
        TrackError::Empty
    }
}

impl Track {
    ghost use Rattle.std.specs.Prelude.{IfOk};
    ghost use Rattle.exif_geotag.specs.Between.{fix_at};
    ghost use Rattle.exif_geotag.specs.Sorting.{in_order};
    ghost use Rattle.exif_geotag.specs.Walks.{track_of};

    /// The track of a GPX file, version 1.0 or 1.1: its elements `trkpt`, of all tracks and
    /// segments, in the order of their times. Other elements are ignored. A point is skipped,
    /// and counted, if it has no time, latitude or longitude, or one that can't be read or is out
    /// of range. Of an elevation that can't be read nothing is known. Of a file that is cut off
    /// within its root element the points before that are read. An error says why the file is no
    /// track, and names another format by [`other_format`]. It takes memory for the points, and for
    /// half of them again while they are sorted.
    pub fn read(alloc: Global, gpx: &[u8]) -> Result<Result<Track, TrackError>, AllocError>
        ensures { IfOk result (λ answer. answer ≡ track_of gpx.now) }
    {
        let read = match points_of(alloc, gpx)? {
            Ok(read) => read,
            Err(error) => return Ok(Err(error.named(other_format(gpx)))),
        };
        if read.points.kept.is_empty() {
            return Ok(Err(without_points(read.cut_off)));
        }
        Ok(Ok(Track::of(read)?))
    }

    // The track of what was read, whose points are in any order.
    fn of(read: Read) -> Result<Track, AllocError>
        ensures points { IfOk result (λ track. track.points ≡ in_order read.points.kept.items) }
        ensures skipped { IfOk result (λ track. track.skipped ≡ read.points.skipped) }
        ensures cut_off { IfOk result (λ track. track.cut_off ≡ read.cut_off) }
    {
        let Read { points, cut_off } = read;
        let Points { kept, skipped } = points;
        let mut points = kept;
        points.sort_by_key(|point| point.time)?;
        Ok(Track {
            points,
            skipped,
            cut_off,
        })
    }

    /// The points, in the order of their times.
    pub fn points(&self) -> &[Point]
        ensures { result.now ≡ self.now.points }
    {
        self.points.as_slice()
    }

    /// How many points were skipped, because they have no time or a value that can't be read.
    pub fn skipped(&self) -> usize
        ensures { result ≡ self.now.skipped }
    {
        self.skipped
    }

    /// Whether the file ends within its root element: the points are those before that.
    pub fn is_cut_off(&self) -> bool
        ensures { result ≡ self.now.cut_off }
    {
        self.cut_off
    }

    /// Where the track was at a time, in milliseconds of UTC from the start of the year 0: at the
    /// last point that is at or before it, if it is the time of that point; else between that point
    /// and the next one, in proportion to the time, if they are at most `max_gap` milliseconds
    /// apart. Each value is rounded towards the earlier point; the longitude goes the short way round; there is
    /// an elevation if both points have one. `None` before the first point, behind the last one,
    /// and in a longer gap. Its time grows with the logarithm of the points. It takes no memory.
    pub fn at(&self, time: u64, max_gap: u64) -> Option<Fix>
        ensures { result ≡ fix_at max_gap time self.now.points }
    {
        fix_at(max_gap, time, self.points.as_slice())
    }
}

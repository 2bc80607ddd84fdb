//! What a track that was read lacks.

ghost use Rattle.std.specs.Prelude.{◌≡◌, Some};
ghost use Rattle.exif_geotag.specs.Faults.{cut_fault, fault_text, last_moment, skipped_fault};

use crate::moment::{Moment, moment_at};
use crate::point::Point;
use crate::track::Track;
use std::fmt;

/// What a track that was read lacks.
#[derive(Clone, Copy)]
pub enum TrackFault {
    /// So many points, which have no time or no location.
    Skipped(usize),
    /// Its end: the file is cut off. The time of the last point, if it is before the year 10000.
    CutOff(Option<Moment>),
}

impl fmt::Display for TrackFault {
    ghost output = { λ fault. Some (fault_text fault) };

    fn fmt<W: fmt::Write>(&self, f: &mut fmt::Formatter<W>) -> fmt::Result {
        match *self {
            TrackFault::Skipped(1) => {
                f.write_str("1 point without a time or a location was skipped")
            }
            TrackFault::Skipped(count) => {
                write!(
                    f,
                    "{count} points without a time or a location were skipped"
                )
            }
            TrackFault::CutOff(Some(last)) => {
                write!(f, "the file is cut off; the track is used up to {last}")
            }
            TrackFault::CutOff(None) => {
                f.write_str("the file is cut off; the track is used up to there")
            }
        }
    }
}

// The time of the last point.
fn last_moment(points: &[Point]) -> Option<Moment>
    ensures { result ≡ last_moment points.now }
{
    let last = points.last()?;
    moment_at(last.time)
}

impl Track {
    /// That points were skipped, if some were.
    pub fn skipped_fault(&self) -> Option<TrackFault>
        ensures { result ≡ skipped_fault self.now.skipped }
    {
        match self.skipped() {
            0 => None,
            count => Some(TrackFault::Skipped(count)),
        }
    }

    /// That the file is cut off, if it is.
    pub fn cut_fault(&self) -> Option<TrackFault>
        ensures { result ≡ cut_fault self.now.points self.now.cut_off }
    {
        if self.is_cut_off() {
            Some(TrackFault::CutOff(last_moment(self.points())))
        } else {
            None
        }
    }
}

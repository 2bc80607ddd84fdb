//! Which location a picture gets by a track, or why none.

ghost use Rattle.std.specs.Prelude.{◌≡◌, IfOk, Some, is_some};
ghost use Rattle.exif_summary.specs.Choices.{fields_in, is_located};
ghost use Rattle.exif_geotag.specs.Replaced.{stale_tags};
ghost use Rattle.exif_geotag.specs.Spots.{placed, spot_in, unlocated_text};

use crate::moment::{Moment, moment_at};
use crate::pictures::time_of_picture;
use crate::point::Fix;
use crate::replaced::stale_tags;
use crate::track::Track;
use exif_summary::{LATITUDE, LONGITUDE, find_degrees};
use exif_types::{Exif, Tag};
use std::alloc::{AllocError, Global};
use std::fmt;

/// Where a picture was taken, and when.
#[derive(Clone, Copy)]
pub struct Spot {
    /// The location.
    pub fix: Fix,
    /// The time.
    pub moment: Moment,
}

/// Why a picture gets no location.
#[derive(Clone, Copy, Debug, PartialEq, Eq)]
pub enum Unlocated {
    /// It has no date that can be read.
    NoDate,
    /// It has a location, which is to stay.
    HasLocation,
    /// The track has no location at its time.
    NotOnTrack,
}

impl fmt::Display for Unlocated {
    ghost output = { λ why. Some (unlocated_text why) };

    fn fmt<W: fmt::Write>(&self, f: &mut fmt::Formatter<W>) -> fmt::Result {
        f.write_str(match self {
            Unlocated::NoDate => "no location is set: it has no date",
            Unlocated::HasLocation => "no location is set: it has one; --overwrite replaces it",
            Unlocated::NotOnTrack => "no location is set: the track has none for its time",
        })
    }
}

// Whether a picture tells latitude and longitude.
fn is_located(exif: &Exif) -> bool
    ensures { result ≡ is_located exif.now.fields }
{
    find_degrees(exif, &LATITUDE).is_some() && find_degrees(exif, &LONGITUDE).is_some()
}

// A location and its time, if both are known.
fn placed(fix: Option<Fix>, moment: Option<Moment>) -> Result<Spot, Unlocated>
    ensures { result ≡ placed fix moment }
{
    match (fix, moment) {
        (Some(fix), Some(moment)) => Ok(Spot { fix, moment }),
        (Some(_), None) | (None, _) => Err(Unlocated::NotOnTrack),
    }
}

// The location of a picture with Exif data.
fn spot_in(
    exif: &Exif,
    zone: &[u8],
    track: &Track,
    max_gap: u64,
    overwrite: bool,
) -> Result<Spot, Unlocated>
    ensures { result ≡ spot_in exif.now.fields zone.now max_gap overwrite track.now.points }
{
    let Some(time) = time_of_picture(exif, zone) else {
        return Err(Unlocated::NoDate);
    };
    if !overwrite && is_located(exif) {
        return Err(Unlocated::HasLocation);
    }
    placed(track.at(time, max_gap), moment_at(time))
}

/// Which location a picture gets by a track, or why none: it has no date, with `zone` as
/// [`time_of_picture`] takes it; it has a location that can be read, and `overwrite` is not set; or
/// the track has none at its time, with points that may be `max_gap` milliseconds apart around it,
/// or that time is in the year 10000 or later. A picture without Exif data has no date. It takes no
/// memory.
pub fn spot_of_picture(
    exif: Option<&Exif>,
    zone: &[u8],
    track: &Track,
    max_gap: u64,
    overwrite: bool,
) -> Result<Spot, Unlocated>
    ensures { result
        ≡ spot_in (fields_in exif.entry) zone.now max_gap overwrite track.now.points }
{
    match exif {
        Some(exif) => spot_in(exif, zone, track, max_gap, overwrite),
        None => Err(Unlocated::NoDate),
    }
}

impl Spot {
    /// The fields of a picture that are of its old location where it gets this one, as
    /// [`stale_tags`] has them.
    pub fn stale_tags(&self, alloc: Global, exif: Option<&Exif>) -> Result<Vec<Tag>, AllocError>
        ensures { IfOk result (λ tags. tags.items
            ≡ stale_tags (fields_in exif.entry) (is_some self.now.fix.elevation)) }
    {
        match exif {
            Some(exif) => stale_tags(alloc, exif, self.fix.elevation.is_some()),
            None => Ok(Vec::new(alloc)),
        }
    }
}

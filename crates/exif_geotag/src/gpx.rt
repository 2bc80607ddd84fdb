//! The points of a GPX file (GPX 1.0 and 1.1).

ghost use Rattle.std.specs.Prelude.{◌≡◌, ◌+◌, ◌++◌, ◌<◌, ◌≤◌, ◌^◌, length, IfOk, OnOk};
ghost use Rattle.exif_geotag.specs.Read.{read_points, walked};
ghost use Rattle.exif_geotag.specs.Walks.{ended_at, is_cut, is_cut_markup, kept_of, points_of, refused_at, skipped_of};

use crate::element::until;
use crate::error::TrackError;
use crate::point::Point;
use crate::state::{Found, State};
use crate::step::next_step;
use exif_locations::xmp::Fault;
use std::alloc::{AllocError, Global};

/// The points of a file in the order of their elements, and how many were skipped.
#[derive(Drop)]
pub(crate) struct Points {
    pub(crate) kept: Vec<Point>,
    pub(crate) skipped: usize,
}

/// What was read of a file.
#[derive(Drop)]
pub(crate) struct Read {
    pub(crate) points: Points,
    /// Whether the file is cut off behind them.
    pub(crate) cut_off: bool,
}

// Adds what the end of an element has completed.
fn add(points: &mut Points, found: Found) -> Result<(), AllocError>
    requires { points.old.skipped + 1 < 2 ^ 64 }
    ensures kept { OnOk result (points.new.kept.items ≡ points.old.kept.items ++ kept_of found) }
    ensures skipped { OnOk result (points.new.skipped ≡ points.old.skipped + skipped_of found) }
{
    match found {
        Found::Nothing => {}
        Found::Skipped => points.skipped += 1,
        Found::Kept(point) => points.kept.push(point)?,
    }
    Ok(())
}

// Whether a token that is refused is the cut end of a file: within the root element, its markup
// ends too early, or none ends behind it.
fn is_cut(state: State, rest: &[u8], error: TrackError) -> bool
    ensures { result ≡ is_cut state rest.now error }
{
    0 < state.depth && (is_cut_markup(error) || rest.len() <= until(b'>', rest))
}

// Whether markup ends too early.
fn is_cut_markup(error: TrackError) -> bool
    ensures { result ≡ is_cut_markup error }
{
    match error {
        TrackError::Xml(fault) => fault == Fault::Cut,
        _ => false,
    }
}

// Whether a file is cut off where a token is refused; or the refusal.
fn refused_at(state: State, rest: &[u8], error: TrackError) -> Result<bool, TrackError>
    ensures { result ≡ refused_at state rest.now error }
{
    if is_cut(state, rest, error) {
        Ok(true)
    } else {
        Err(error)
    }
}

// Whether a file is cut off where it ends; it is refused before its first element.
fn ended_at(state: State) -> Result<bool, TrackError>
    ensures { result ≡ ended_at state }
{
    if state.in_tag || 0 < state.depth {
        return Ok(true);
    }
    if state.rooted {
        Ok(false)
    } else {
        Err(TrackError::NotGpx)
    }
}

// The points that were read up to an end.
fn walked(points: Points, end: Result<bool, TrackError>) -> Result<Read, TrackError>
    ensures { read_points result ≡ walked points.kept.items points.skipped end }
{
    match end {
        Ok(cut_off) => Ok(Read { points, cut_off }),
        Err(error) => Err(error),
    }
}

/// The points of a file in the order of their elements. It takes memory for the points, and the
/// time of one pass.
pub(crate) fn points_of(alloc: Global, gpx: &[u8]) -> Result<Result<Read, TrackError>, AllocError>
    ensures { IfOk result (λ answer. read_points answer ≡ points_of gpx.now) }
{
    let mut points = Points {
        kept: Vec::new(alloc),
        skipped: 0,
    };
    let mut state = State::at_start();
    let mut at = 0;
    while at < gpx.len() {
        let next = match next_step(state, &gpx[at..]) {
            Ok(next) => next,
            Err(error) => return Ok(walked(points, refused_at(state, &gpx[at..], error))),
        };
        add(&mut points, next.found)?;
        state = next.state;
        at += next.len;
    }
    Ok(walked(points, ended_at(state)))
}

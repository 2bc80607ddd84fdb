//! Where a picture was taken, by the track of a GPS receiver: the points of a GPX file, where it was
//! at a time, and the edit that says so.
#![tactic(auto)]

mod between;
mod element;
mod erasing;
mod error;
mod fault;
mod format;
mod gap;
mod gpx;
pub mod laws;
mod moment;
mod number;
mod pictures;
mod point;
mod relocating;
mod replaced;
mod search;
mod spot;
mod spot_fields;
mod state;
mod step;
mod text;
mod time;
mod track;
mod unix_time;

pub use error::TrackError;
pub use fault::TrackFault;
pub use format::{OtherFormat, other_format};
pub use gap::{DEFAULT_GAP, gap_by, gap_in};
pub use moment::{Moment, moment_at};
pub use pictures::time_of_picture;
pub use point::{Fix, Point};
pub use relocating::{Relocated, Relocation, Unfinished, relocate};
pub use replaced::stale_tags;
pub use spot::{Spot, Unlocated, spot_of_picture};
pub use time::{exif_time_of, is_offset, time_of};
pub use track::Track;
pub use unix_time::unix_time_of_picture;

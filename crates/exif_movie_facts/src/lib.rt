//! What a QuickTime or MP4 video states of when and where it was taken, its duration, its size and
//! its rotation.
//!
//! [`iso6709_location`] reads the text of a location, and [`loci_location`] the box `loci` of 3GPP,
//! both exactly, as fractions. [`movie_header`] and [`track_header`] read the boxes `mvhd` and
//! `tkhd`, [`user_data_text`] and [`item_text`] the texts of user data and of metadata items. No
//! call needs memory.
#![tactic(auto)]

mod digits;
mod header;
mod location;
mod number;
mod text;
mod token;

pub use header::{MovieHeader, TrackHeader, movie_header, track_header, unix_seconds};
pub use location::{Fraction, Location, iso6709_location, loci_location};
pub use text::{item_text, user_data_text};

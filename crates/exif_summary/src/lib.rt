//! What people ask of a picture: its size and orientation, and when, where and with which camera it
//! was taken. Each answer is one number or one text.
//!
//! [`find_cell`] answers a [`Column`] of a picture, as catalogues and tables have them. A
//! [`Choice`] says which pictures are asked for: by the date taken, by the camera, and by what they
//! have.
#![tactic(auto)]

mod angles;
mod bounds;
mod choice;
mod columns;
mod dates;
mod looking;

pub use angles::{Axis, Degrees, LATITUDE, LONGITUDE};
pub use bounds::{begin_of, stamp_of};
pub use choice::{Choice, Facts, facts_of};
pub use columns::{COLUMNS, Cell, Column, Height, find_cell, find_either};
pub use dates::{CHANGED, DIGITIZED, Iso, Moment, TAKEN, find_date, find_fraction};
pub use looking::{find_degrees, find_number, find_orientation, find_text};

//! What the file of a picture holds, part by part, and which parts have a location.
//!
//! [`check`] judges each part of a file, [`check_json`] writes its answer as JSON, and [`Line`] is
//! the line of a part for people.
#![tactic(auto)]

mod checked;
mod line;
mod lines;
mod names;
mod object;

pub use checked::{Checked, Location, check, check_picture, is_only_maker_notes, location_of};
pub use line::{Line, is_listed};
pub use lines::lines_of;
pub use object::check_json;

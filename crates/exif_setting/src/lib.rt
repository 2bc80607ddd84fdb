//! Values set and dates moved in pictures of every format, in memory; new Exif data.
//!
//! Each call answers the whole new file and what was left undone in it, or a refusal by its cause.
//! What fits is written where it is; what does not is put behind the data ([`exif_grow`]), or the
//! file is written again. Raw files are not changed.
#![tactic(auto)]

mod contained;
mod dates;
mod fields;
mod growing;
mod in_place;
mod other_dates;
mod pictures;
mod second;
pub mod set_laws;
mod setting;

pub use dates::Dates;
pub use exif_assign::Assignment;
pub use exif_datetime::{ClockShift, Unmoved};
pub use growing::new_data;
pub use in_place::Sets;
pub use pictures::{set, set_fields, shift};
pub use setting::{assigned, set_here};

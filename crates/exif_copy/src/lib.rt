//! The metadata of one picture put into another one, as after an editor lost them.
//!
//! [`copy_exif`] answers the whole new file, or a refusal by its cause. The new data are those of
//! the first picture byte for byte, or with the orientation and the size of the second one.
//! [`copy_selected`] copies the XMP packet and the colour profile, too, and [`check_source`] says
//! what a picture lacks of them.
#![tactic(auto)]

mod copying;
mod found;
mod placing;
mod selected;
mod shaping;
pub mod xmp_icc;

pub use copying::{Shape, copy_exif};
pub use selected::{Selection, check_source, copy_selected};

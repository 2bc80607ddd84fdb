//! What a file says of where its picture was taken, erased in place.
//!
//! [`erase_locations`] works on JPEG, WebP, HEIF, AVIF, PNG, JPEG XL and TIFF files. It erases what
//! it can, changes no other byte, and answers which parts stay that hold a location or may hold one.
#![tactic(auto)]

mod chunks;
mod erase;
pub mod laws;
mod part;
mod parts;
mod portions;
mod reasons;
mod remaining;

pub use erase::erase_locations;
pub use exif_locations::Unread;
pub use parts::parts_of;
pub use reasons::Reasons;
pub use remaining::{Reason, Remaining};

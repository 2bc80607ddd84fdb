//! Locations in XMP packets, erased in place.
//!
//! XMP is XML: properties are attributes, `exif:GPSLatitude="33,51.6S"`, or elements,
//! `<exif:GPSLatitude>33,51.6S</exif:GPSLatitude>`. Each one that names a location becomes as many
//! spaces, so the packet stays as long as it was, and what was well formed stays so.

mod erase;
mod fault;
pub mod laws;
mod location_names;
mod names;
pub mod scan;
mod step;
pub mod token;

pub use erase::{erase_locations, erase_locations_at, has_locations};
pub use fault::Fault;

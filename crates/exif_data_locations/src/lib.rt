//! Locations in Exif data, erased in place.
//!
//! [`erase_locations`] works on the Exif data of a file, and on a TIFF file, which has the same
//! form. It erases GPS data, and the locations in XMP packets, IPTC data, resources of Photoshop
//! and GeoTIFF tags, and in the thumbnail, and answers why a location may still be there.
#![tactic(auto)]

mod erase;
mod field;
mod gps;
pub mod laws;
mod locations;
mod reason;
mod region;
mod resource;
mod stream;
mod tags;
mod text;
mod thumbnail;
mod version;
mod wanted;

pub use locations::erase_locations;
pub use reason::Reason;
pub use version::without_version;

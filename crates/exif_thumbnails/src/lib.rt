//! The thumbnail of a picture, of any format, as JPEG data.
//!
//! [`held_thumbnail`] is that of Exif data that are held whole. [`place_of`] answers where the Exif
//! data say that it is, and [`read_place`] reads it from the
//! file where it is behind what was held. A CR3 file has its own
//! ([`find_thumbnail`](exif_formats::raw::cr3::find_thumbnail)), or a preview
//! ([`read_cr3_preview`]). That of a HEIF or AVIF file may be an item of its own, which is coded as
//! JPEG or otherwise ([`heif_thumbnail`]). TIFF and raw files without a thumbnail may have previews
//! ([`preview_places`], [`jpg_from_raw`]).
#![tactic(auto)]

mod cr3;
mod heif;
mod place;
mod prefix;
mod previews;
mod reading;
mod stream;

pub use cr3::read_cr3_preview;
pub use heif::{Coding, HEIF_PREFIX_LEN, HeifThumbnail, heif_thumbnail, read_heif_thumbnail};
pub use place::{MAX_THUMBNAIL_LEN, Place, held_thumbnail, place_of};
pub use previews::preview_places;
pub use reading::{Thumbnail, read_place};
pub use stream::{ends_search, jpg_from_raw, whole_stream};

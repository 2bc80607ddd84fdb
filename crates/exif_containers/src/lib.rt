//! The Exif data of a stream, whatever container it is: TIFF data, a JPEG stream, a HEIF file or a
//! WebP file; and where in the stream they are. Beside these the Exif data of a PNG file.
//!
//! `exif_segments` reads JPEG streams and WebP files; HEIF files are read here, by the boxes of
//! `exif_isobmff`.
//!
//! A body ends `let x = f()?; Ok(x)` where its proof uses a lemma on the value or on the error
//! alone: `?` makes a case of each.
#![tactic(auto)]

pub mod container;
pub mod isobmff;
pub mod laws;
mod located;
pub mod png;

pub use container::{exif_attr_as, exif_attr_from, exif_attr_of_stream};
pub use located::{Extent, Located, find_exif};

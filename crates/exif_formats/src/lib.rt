//! Pictures of every format that is read, by their signature: TIFF, JPEG, HEIF and WebP as
//! `exif_reader` reads them, and PNG, JPEG XL and raw files beside them.
//!
//! [`read_picture`] is what programs call. Raw files that are TIFF data (DNG, NEF, CR2, ARW, PEF)
//! are read as such.
#![tactic(auto)]

mod cr3;
mod format;
mod headers;
mod held;
pub mod jxl;
pub mod laws;
mod magic;
mod options;
mod picture;
pub mod raw;

pub use exif_containers::container::Format;
pub use format::{PictureFormat, format_of, format_of_file};
pub use held::{jxl_data, png_data, raf_data};
pub use options::Options;
pub use picture::{Picture, read_bytes, read_picture};

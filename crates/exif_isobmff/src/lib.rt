//! The Exif data of a HEIF file in memory (ISO/IEC 14496-12:2015, 4.2; ISO/IEC 23008-12:2017,
//! A.2.1).
#![tactic(auto)]

mod entries;
mod exif;
mod extents;
mod file;
mod front;
mod items;
mod kind;
pub mod laws;
mod located;
mod locations;
mod ranges;
mod splitter;
mod tables;

pub use entries::{Entry, entry_offset, exif_entry};
pub use exif::{ExifItem, exif_of_file, find_exif};
pub use extents::{MAX_EXIF_SIZE, after_header, extent_front, item_bytes};
pub use file::{Meta, is_heif, meta_of, pass};
pub use front::{header_of, settled_meta, sizes_itself};
pub use kind::Kind;
pub use located::{LocatedExif, locate, located_in};
pub use locations::{Extent, Location, Sizes, item_location};
pub use ranges::item_ranges;
pub use splitter::{BoxSplitter, Header};

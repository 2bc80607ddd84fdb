//! Fields and blocks written as one TIFF image, as `exif_layout` defines it.
#![tactic(auto)]

mod measure;
mod plan;
mod send;
mod tag_counts;
mod tag_order;
mod writer;

pub use writer::Writer;

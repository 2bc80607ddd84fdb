//! Whole files written again: without their Exif data, all metadata or their colour profile, and
//! with new Exif data.
#![tactic(auto)]

pub mod by_head;
mod color;
pub mod jpeg;
pub mod laws;
pub mod scrubbed;
pub mod scrubbing;
mod sending;
pub mod webp;

pub use by_head::rewrite;
pub use color::without_color_profile;
pub use exif_parts::Ended;
pub use exif_segments::Remove;
pub use jpeg::{rewrite_jpeg, rewrite_jpeg_as_it_stands};
pub use scrubbed::{UPRIGHT, scrubbed_exif};
pub use scrubbing::scrub;
pub use webp::rewrite_webp;

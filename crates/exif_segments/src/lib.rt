//! The Exif data of formats that are read forward: the marker segments of JPEG streams and the
//! chunks of WebP files.
//!
//! A body ends `let x = f()?; Ok(x)` where its proof uses a lemma on the value or on the error
//! alone: `?` makes a case of each.
#![tactic(auto)]

pub mod jpeg;
pub mod laws;
pub mod remove;
pub mod util;
pub mod webp;

pub use jpeg::get_exif_attr_from_jpeg;
pub use remove::Remove;

//! The parts of a picture's file, with those of the picture that have other bytes than their standard
//! gives them.
//!
//! [`inventory`] looks at the markers, segments, chunks and boxes that make up the picture of a JPEG,
//! PNG, JPEG XL or WebP file. The length of most is known, from their name and their first fields: a
//! longer one may hold a text, and is listed as a part that is not known.
#![tactic(auto)]

mod format;
mod index;
mod jpeg;
mod jxl;
mod pictures;
mod png;
mod step;
mod tables;
mod walk;
mod webp;

pub use walk::inventory;

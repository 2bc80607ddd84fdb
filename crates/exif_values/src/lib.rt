//! The XMP properties and the IPTC values of a picture.
//!
//! [`read`] reads the packets of a JPEG, WebP, PNG, JPEG XL, HEIF or AVIF file, and [`read_fields`]
//! those in the values of fields, as TIFF and raw files have them. Both add to [`Values`]; what is
//! not read is named in it. [`paths`] finds properties by their paths, and [`sorting_of`] answers what
//! people sort pictures by out of them.
#![tactic(auto)]

mod arrays;
mod datasets;
mod extension;
mod fault;
pub mod paths;
mod reading;
mod regions;
mod sorting;
#[cfg(test)]
mod tests;
pub mod values;

pub use fault::{Cause, Fault};
pub use reading::{MAX_TEXT_LEN, read, read_fields};
pub use sorting::{Sorting, joined, sorting_of};
pub use values::Values;

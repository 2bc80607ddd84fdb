//! The Exif data of a JPEG XL file: those of the first box `Exif` in its container (ISO/IEC
//! 18181-2, clause 9).
//!
//! A body ends `let x = f()?; Ok(x)` where its proof uses a lemma on the value or on the error
//! alone: `?` makes a case of each.

mod bodies;
mod boxes;
mod file;
pub mod laws;

pub use file::{get_exif_attr_from_jxl, is_codestream, is_jxl};

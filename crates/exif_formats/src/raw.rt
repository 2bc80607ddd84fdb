//! Where raw files of cameras hold their Exif data: Fujifilm's RAF and Canon's CR3.
//!
//! A body ends `let x = f()?; Ok(x)` where its proof uses a lemma on the value or on the error
//! alone: `?` makes a case of each.

pub mod cr3;
pub mod laws;
pub mod raf;

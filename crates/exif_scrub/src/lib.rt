//! All metadata out of a file, in place: of HEIF and AVIF files, and of TIFF files. No byte of the
//! picture changes or moves.
#![tactic(auto)]

pub mod heif;
pub mod tiff;

//! What people read of a picture beside its Exif data: a line for each XMP property and each IPTC
//! dataset, and why one was not read.
//!
//! ```text
//! dc:title[1] (XMP, en): The harbour
//! xmp:Rating (XMP): 4
//! Keywords (IPTC): beach
//! ```
#![tactic(auto)]

mod fault;
mod iptc;
mod lines;
mod xmp;

pub use fault::FaultLine;
pub use iptc::iptc_line;
pub use lines::lines_of;
pub use xmp::xmp_line;

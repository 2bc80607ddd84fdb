//! XMP packets and colour profiles put into a file in place of its own.
//!
//! [`with_xmp`] puts a packet into a JPEG, PNG, WebP or JPEG XL file, and [`with_profile`] a colour
//! profile into a JPEG, PNG or WebP file. All other pieces of the file stay, in their order: the
//! pieces are those of the inventory, and new blocks are where [`exif_parts`] puts new Exif data or
//! behind them.
#![tactic(auto)]

mod blocks;
mod jpeg;
mod jxl;
pub mod laws;
mod png;
mod putting;
mod step;
mod walk;
mod webp;
mod zlib;

pub use blocks::{Block, Container, Profile, Xmp};
pub use putting::{with_profile, with_xmp};

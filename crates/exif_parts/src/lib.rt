//! Files written again as a filter over their parts: without their Exif data or without all
//! metadata, and with new Exif data.
//!
//! [`rewrite_jpeg`], [`rewrite_webp`], [`rewrite_png`] and [`rewrite_jxl`] read a file once, piece
//! by piece, by the inventory's own definitions of a piece ([`exif_inventory::stream_piece`],
//! [`exif_inventory::chunk_piece`], [`exif_inventory::frame_piece`], [`exif_inventory::png_piece`]
//! and [`exif_inventory::box_piece`]). What a piece holds decides whether it stays. So what the
//! inventory lists and what is written agree.
#![tactic(auto)]

pub mod insertion;
mod jpeg;
mod jxl;
mod kept;
pub mod laws;
mod marker;
mod png;
mod rewritten;
mod webp;

pub use jpeg::rewrite_jpeg;
pub use jxl::rewrite_jxl;
pub use marker::split;
pub use png::{png_chunk, rewrite_png};
pub use rewritten::{Ended, Rewritten};
pub use webp::rewrite_webp;

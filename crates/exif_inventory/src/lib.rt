//! The parts of a picture's file: which bytes make up the picture, and which hold metadata.
//!
//! [`inventory`] lists the parts of a JPEG, WebP, PNG or JPEG XL file in order, from its first byte
//! to its last. [`stream_piece`] is one step of its walk over a JPEG stream, [`chunk_piece`] over
//! the chunks of a WebP file, [`frame_piece`] over those of an animation frame, [`png_piece`] over
//! the chunks of a PNG file, whose checksum is [`crc_of`], and [`box_piece`] over the boxes of a
//! JPEG XL file. [`boxes`] reads the headers of boxes.
#![tactic(auto)]

pub mod boxes;
mod bytes;
mod crc;
mod jpeg;
mod jxl;
mod kind;
mod part;
mod piece;
mod png;
mod resource;
mod walk;
mod webp;

pub use crc::{crc_of, crc_of_chunk};
pub use jpeg::{fill_len, is_jpeg, stream_piece};
pub use jxl::{box_piece, is_cut_box, is_jxl};
pub use kind::Kind;
pub use part::Part;
pub use piece::{Piece, State};
pub use png::{is_png, png_piece};
pub use resource::{Resource, resource_at};
pub use walk::inventory;
pub use webp::{chunk_piece, frame_piece, is_webp};

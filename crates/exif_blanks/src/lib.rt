//! What comes in place of metadata, byte for byte: of items' data, of boxes, and of JPEG streams.
//! No byte of a picture changes, and none moves.
#![tactic(auto)]

pub mod blank;
mod boxes;
pub mod bytes;
mod config;
mod entries;
mod jpeg;
mod lists;
mod obus;
pub mod steps;

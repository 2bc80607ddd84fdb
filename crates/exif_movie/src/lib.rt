//! The parts of a video: which bytes make up the presentation, and which may state when, where and
//! with what it was taken.
//!
//! [`parts`] lists the parts of a QuickTime or MP4 file in order, from its first byte to its last.
//! `exif_movie_facts` reads what some of them hold.
#![tactic(auto)]

mod boxes;
mod bytes;
mod file;
mod keys;
mod kind;
pub mod laws;
mod leaf;
mod named;
mod nesting;
mod open;
mod part;
mod piece;
mod walk;

pub use file::{Refusal, parts};
pub use kind::{Container, Kind, Subject};
pub use part::{Part, bytes_of, data_of};

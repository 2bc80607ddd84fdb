//! TIFF files without their metadata: the picture stays where it is, and all else becomes zero.
//!
//! [`scrub`] keeps the directories with the tags that describe their pictures, the values of these
//! tags, and the strips and tiles. Every other byte becomes zero, also in JPEG streams; none moves
//! but entries, which close up. [`is_settled`] says whether a file is one that comes out so.

mod bytes;
mod directory;
mod entry;
mod fault;
mod file;
pub mod laws;
mod pass;
mod picture;
mod shape;
mod stream;
mod tags;

pub use fault::Fault;
pub use file::{is_settled, scrub};

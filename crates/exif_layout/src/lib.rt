//! What a TIFF image is made of, and what it holds: the definition of images, the laws of reading
//! and writing them, and the parts of a directory that are there before any offset is settled.
#![tactic(auto)]

mod block_kind;
pub mod content;
mod ifd;
pub mod item;
pub mod laws;
mod ranges;
mod write_fault;

pub use block_kind::BlockKind;
pub use ifd::{Ifd, is_own};
pub use ranges::{show_field_fits, show_value_fits};
pub use write_fault::WriteFault;

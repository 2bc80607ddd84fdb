//! The parts of a HEIF or AVIF file: which bytes make up the picture, and which hold metadata.
//!
//! [`inventory`] lists the parts of a file in order, from its first byte to its last.
#![tactic(auto)]

mod carve;
mod extents;
mod gaps;
mod items;
mod numbers;
mod parts;
mod piece;
mod role;
mod span;
mod walk;

pub use extents::{Widths, extent_len, head_len, widths_of};
pub use items::text_len;
pub use numbers::number;
pub use parts::{inventory, layout};
pub use role::Role;
pub use span::{Layout, Span, part_of};

//! All metadata out of a HEIF or AVIF file, in place.
//!
//! [`scrub`] changes no byte of the picture, moves none, and answers which parts stay that may hold
//! metadata.

mod fault;
mod file;
pub mod laws;
mod settled;

pub use fault::Fault;
pub use file::{empty, scrub};
pub use settled::parts_left;

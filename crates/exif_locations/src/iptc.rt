//! Locations in IPTC-IIM data, erased in place.
//!
//! The data are datasets: `1c`, a record, a number, the length of a value in two bytes, and the
//! value. The values of those that name a location become spaces.

mod dataset;
mod erase;
mod fault;
pub mod laws;

pub use erase::{erase_locations, has_locations};
pub use fault::Fault;

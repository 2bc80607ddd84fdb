//! Locations, or all metadata and the dates, taken out of a video in memory, in place.
//!
//! [`scrub`] writes zeros over them. No byte moves, no other byte changes, and it answers the
//! parts that may still hold a location.
#![tactic(auto)]

mod fault;
mod file;
pub mod laws;
mod remaining;
mod request;
#[cfg(test)]
mod tests;
mod zeros;

pub use fault::Fault;
pub use file::scrub;
pub use remaining::{Reason, Remaining};
pub use request::Request;

//! The properties of an XMP packet, as a list.
//!
//! [`read`] answers the properties of a packet (XMP Specification, Part 1: Data Model,
//! Serialization, and Core Properties) in document order, each with the URI of its namespace, its
//! path, its text, its language, and where the packet has it. A packet that is not read is refused
//! by name and offset, and within the limits that [`limits`] names.
#![tactic(auto)]

mod characters;
mod elements;
mod fault;
mod fields;
mod frame;
pub mod limits;
mod path;
mod property;
mod reading;
mod role;
mod state;
mod step;
mod tag;

pub use fault::{Fault, ReadError, Refusal};
pub use property::{Form, Property};
pub use reading::read;

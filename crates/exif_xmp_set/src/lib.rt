//! A property of an XMP packet gets another text, or a packet gets a property more.
//!
//! [`set_text`] answers the packet with the text of one property replaced, as
//! [`exif_xmp::read`] lists it: an element, an item of an array, a field of a structure or an
//! attribute. [`add_text`] and [`add_item`] answer the packet with a text more, or with an item more
//! at the end of an array. All other bytes stay in their order, but for the padding before the
//! trailer of the packet, which takes up what the packet grows or shrinks by.
#![tactic(auto)]

mod adding;
mod context;
mod escaping;
mod fault;
mod found;
mod inserted;
mod items;
pub mod laws;
mod padding;
mod read_back;
mod set;
#[cfg(test)]
mod tests;

pub use adding::{add_item, add_text};
pub use fault::{Reason, SetError};
pub use items::Array;
pub use set::set_text;

//! Locations in XMP packets and in IPTC data, erased in place: as many bytes as before, and each is
//! as it was or a space.
#![tactic(auto)]

pub mod iptc;
mod iptc_numbers;
mod stray;
mod text_names;
pub mod texts;
pub mod unread;
pub mod words;
pub mod xmp;

pub use unread::Unread;

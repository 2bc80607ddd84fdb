//! Exif data edited in place: an [`Edit`] sets a value, or erases fields of a name, GPS data or all
//! fields, and changes no other byte.
//!
//! [`apply`] edits data in memory, and [`apply_in_file`] a file in memory. [`patches_of`] and
//! [`patches_in`] answer what to put over the data or the file, for a program that writes by a seek.
//! An error leaves all bytes as they were. Where bytes that an edit changes are shared with
//! something else, the edited data are read again before they are answered; data that read
//! otherwise are refused, and the old bytes are put back.
//!
//! ```
//! let value = Value::Short(Items::from_slice(alloc, &[orientation])?);
//! let edit = Edit::Set {
//!     tag: Tag::Orientation,
//!     ifd_num: In::PRIMARY,
//!     value,
//! };
//! apply_in_file(alloc, &edit, None, picture)
//! ```
#![tactic(auto)]

mod alone;
mod clear;
mod edits;
mod erase;
mod file;
pub mod laws;
pub mod remove;
pub mod set;
mod source;
pub mod spell;
mod spread;

pub use edits::{Edit, apply, patches_of};
pub use erase::erase_located_gps;
pub use exif_edit_base::{Error, Patch, Unerased, leftovers};
pub use file::{apply_in_file, holds};
pub use source::patches_in;

//! Edits of Exif data that grow: what is new is appended, and no old byte moves.
//!
//! [`grow_value`] sets a value whatever its length: over the old value where it fits, else
//! appended; a new field goes into its directory, which is appended anew, and a directory that the
//! data lack is created. [`set_fields`] sets several, each with all fields of its name. Maker
//! notes, strips, tiles and thumbnails keep their offsets. Each edit is read again before it is
//! answered; data that read otherwise are refused. An error changes nothing.
//!
//! [`grow_item`] answers what makes a HEIF file hold new Exif data: patches over its bytes, and a
//! box that follows them; [`with_data`] answers the new file. A program that writes into a file
//! appends the box first.
#![tactic(auto)]

mod alike;
mod append;
mod closed;
mod create;
mod directories;
mod entry;
mod fields;
mod grow;
mod growth;
mod insert;
mod item;
mod item_fields;
pub mod laws;
mod reread;

pub use append::append_value;
pub use create::create_value;
pub use exif_edit_base::{Error, Patch};
pub use fields::set_fields;
pub use grow::grow_value;
pub use growth::{Growth, first_read, grown};
pub use insert::insert_value;
pub use item::{grow_item, with_data};

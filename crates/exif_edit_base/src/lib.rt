//! What all edits of Exif data share: patches, the data read and read again, the last field of a
//! name, and why an edit is refused. `exif_edit` has the edits.
#![tactic(auto)]

pub mod error;
pub mod find;
pub mod laws;
pub mod limit;
pub mod offsets;
pub mod patch;
pub mod plan;
pub mod read;
pub mod reread;
pub mod spans;
pub mod unerased;
mod walk;

pub use error::Error;
pub use exif_tiff::{DirectoryOffset, EntryOffset};
pub use patch::Patch;
pub use unerased::{Unerased, leftovers};
pub use walk::{Located, Walk, read_located};

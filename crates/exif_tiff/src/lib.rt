//! TIFF data read into fields and faults: the header, the walk of the directories, values as they are
//! spelled, the definitions of reading, and the laws between them.
#![tactic(auto)]

pub mod bytes;
pub mod decode;
pub mod directory;
pub mod fault;
pub mod laws;
pub mod offset;
pub mod offsets;
mod parser;
pub mod stop;
pub mod tiff;

pub use decode::decode_value;
pub use fault::Fault;
pub use offset::{DirectoryOffset, EntryOffset};
pub use tiff::parse_exif;

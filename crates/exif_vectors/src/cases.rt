//! Worked cases as text files: the words of a line, the fields and values that they spell, and what
//! a case asks. docs/TESTS.md has the format; `exif_vectors` runs the cases.

mod case;
mod error;
mod lines;
mod values;
mod words;

pub use case::{Block, BlockKind, Call, Case, Kind};
pub use error::CaseError;
pub use words::{Named, Word, bytes_of, words_of};

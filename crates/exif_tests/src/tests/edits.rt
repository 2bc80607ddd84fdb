//! What edits report: the offsets of their patches, and pointers that they do not follow; and bytes
//! that stay as they were where memory runs out.

mod growth;
mod left;
mod memory;
mod patches;
mod undone;

use exif_types::{Context, Tag, Value};
use std::alloc::{AllocError, Global};

/// The tag of an image description.
pub const DESCRIPTION: Tag = Tag(Context::Tiff, 0x10e);

/// A value of one text.
pub fn text(alloc: Global, bytes: &[u8]) -> Result<Value, AllocError> {
    Value::ascii(alloc, &[bytes])
}

/// Puts new bytes over those at an offset, if there are as many.
pub fn put(bytes: &mut [u8], offset: usize, new: &[u8]) {
    if new.len() <= bytes.len() && offset <= bytes.len() - new.len() {
        bytes[offset..offset + new.len()].copy_from_slice(new);
    }
}

/// Whether an answer is that something is so. It takes any error, so that the proof of a test does
/// not open the kinds of errors where one goes.
pub fn is_so<E: Drop>(answer: Result<bool, E>) -> bool {
    matches!(answer, Ok(true))
}

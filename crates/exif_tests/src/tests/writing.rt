//! The debug texts of writers, and images that are as long as they may be.

mod debug;
mod limits;

use exif::experimental::Writer;
use exif::{Error, Field};
use exif_test_support::writings::push_all;
use std::alloc::{AllocError, Global};

/// A list of one field.
pub fn list_of(alloc: Global, field: Field) -> Result<Vec<Field>, AllocError> {
    let mut fields = Vec::new(alloc);
    fields.push(field)?;
    Ok(fields)
}

/// A writer of these fields.
pub fn writer_with<'a>(alloc: Global, fields: &'a [Field]) -> Result<Writer<'a>, Error> {
    let mut writer = Writer::new(alloc);
    push_all(&mut writer, fields)?;
    Ok(writer)
}

//! Data that have no directory for a new field.

use super::{is_so, text};
use exif_grow::{Error, grow_value};
use exif_test_support::files::DESCRIBED_BIG;
use exif_types::{Context, In, Tag};
use std::alloc::Global;

const ARTIST: Tag = Tag(Context::Tiff, 0x13b);

// Whether there is no directory for the artist of a thumbnail.
fn has_no_directory(alloc: Global) -> Result<bool, Error> {
    let value = text(alloc, b"Ann")?;
    match grow_value(alloc, DESCRIBED_BIG, ARTIST, In(1), &value) {
        Err(Error::NoDirectory) => Ok(true),
        _ => Ok(false),
    }
}

#[test]
fn no_directory(rt: HostRuntime) {
    assert!(rt; is_so(has_no_directory(rt.alloc())));
}

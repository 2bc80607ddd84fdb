//! Data that grow: patches over their bytes, and new bytes after them.

ghost use Rattle.std.specs.Prelude.{◌≡◌, ◌<◌, ◌^◌, ◌%◌, ◌++◌, All, length, replicate, IfOk};
ghost use Rattle.exif_layout.specs.Offsets.{even};
ghost use Rattle.exif_edit_base.specs.Causes.{Makes};
ghost use Rattle.exif_edit_base.specs.Patches.{FitsIn};
ghost use Rattle.exif_edit_base.specs.Readings.{read_of, reads_as};
ghost use Rattle.exif_grow.specs.Growing.{added_of, aligned, first_read, grown};

use exif_edit_base::Error;
use exif_edit_base::patch::{Patch, patched};
use exif_edit_base::read::reads_as;
use exif_tiff::tiff::Parsed;
use std::alloc::{AllocError, Global};

/// How data grow: [`grown`] makes the new data of it. A program that writes into a file appends the
/// tail first, and then puts the patches over the old bytes.
#[derive(Debug, Drop)]
pub struct Growth {
    /// Bytes put over those of the data, one patch after another. They lie in the data.
    pub patches: Vec<Patch>,
    /// The bytes that follow the data. They may be none.
    pub tail: Vec<u8>,
}

/// The new data: a copy of the old ones with the patches over them, and the tail.
pub fn grown(alloc: Global, growth: &Growth, bytes: &[u8]) -> Result<Vec<u8>, AllocError>
    requires { All (FitsIn (length bytes.now)) growth.now.patches.items }
    ensures { IfOk result (λ v. v.items ≡ grown (added_of growth.now) bytes.now) }
{
    let mut out = patched(alloc, growth.patches.as_slice(), bytes)?;
    out.extend_from_slice(growth.tail.as_slice())?;
    Ok(out)
}

/// The next even offset, from the end of data of this length.
pub fn even(len: usize) -> usize
    requires { len < 2 ^ 33 }
    ensures { result ≡ even len }
{
    len + len % 2
}

/// Bytes that follow data of this length at the next even offset: a zero before them, if need be.
pub fn aligned(alloc: Global, len: usize, bytes: &[u8]) -> Result<Vec<u8>, AllocError>
    ensures { IfOk result (λ v. v.items ≡ aligned len bytes.now) }
{
    let mut out = vec![in alloc; 0u8; len % 2]?;
    out.extend_from_slice(bytes)?;
    Ok(out)
}

// Whether the grown data read as wanted.
fn is_read(
    alloc: Global,
    growth: &Growth,
    bytes: &[u8],
    wanted: &Parsed,
) -> Result<bool, AllocError>
    requires { All (FitsIn (length bytes.now)) growth.now.patches.items }
    ensures { IfOk result
        (λ same. same ≡ reads_as (grown (added_of growth.now) bytes.now) (read_of wanted.now)) }
{
    let new = grown(alloc, growth, bytes)?;
    reads_as(alloc, new.as_slice(), wanted)
}

/// The first of two growths with which the data read as wanted.
pub fn first_read(
    alloc: Global,
    bytes: &[u8],
    wanted: &Parsed,
    first: Growth,
    second: Growth,
) -> Result<Growth, Error>
    requires first { All (FitsIn (length bytes.now)) first.patches.items }
    requires second { All (FitsIn (length bytes.now)) second.patches.items }
    ensures answer { Makes added_of result
        (first_read (read_of wanted.now) bytes.now (added_of first) (added_of second)) }
{
    if is_read(alloc, &first, bytes, wanted)? {
        return Ok(first);
    }
    if is_read(alloc, &second, bytes, wanted)? {
        return Ok(second);
    }
    Err(Error::SharedBytes)
}

//! The entry of an item in `iloc`, for an item that is moved (ISO/IEC 14496-12:2015, 8.11.3).

ghost use Rattle.std.specs.Prelude.{◌≡◌};
ghost use Rattle.exif_edit_base.specs.Causes.{Makes};
ghost use Rattle.exif_grow.specs.Entries.{base_for, field_text, has_space, method_len, moved_entry, number_len, offset_for};

use exif_edit_base::Error;
use exif_isobmff::{Entry, Sizes};
use std::alloc::Global;

// A number of so many bytes.
fn field_text(alloc: Global, width: u8, number: u64) -> Result<Vec<u8>, Error>
    ensures { Makes (λ v. v.items) result (field_text width number) }
{
    match width {
        8 => Ok(Vec::from_slice(alloc, &number.to_be_bytes())?),
        4 if number <= u32::MAX as u64 => {
            Ok(Vec::from_slice(alloc, &(number as u32).to_be_bytes())?)
        }
        0 if number == 0 => Ok(Vec::new(alloc)),
        _ => Err(Error::Container(exif_types::Error::NotSupported(
            "Field of ItemLocationBox too narrow",
        ))),
    }
}

// Whether there is a field of so many bytes, and it has space for a number.
fn has_space(width: u8, number: u64) -> bool
    ensures { result ≡ has_space width number }
{
    width == 8 || (width == 4 && number <= u32::MAX as u64)
}

// The base of an item that is at an offset: the offset itself, if its field has space for it. exiv2
// reads no other field where there is a base.
fn base_for(sizes: Sizes, from: u64) -> u64
    ensures { result ≡ base_for sizes from }
{
    if has_space(sizes.base, from) { from } else { 0 }
}

// The offset of its extent behind the base.
fn offset_for(sizes: Sizes, from: u64) -> u64
    ensures { result ≡ offset_for sizes from }
{
    if has_space(sizes.base, from) { 0 } else { from }
}

/// How many bytes an item's number takes.
pub fn number_len(version: u8) -> u64
    ensures { result ≡ number_len version }
{
    if version == 2 { 4 } else { 2 }
}

// How many bytes take how an item is put together, and where its data are.
fn method_len(version: u8) -> usize
    ensures { result ≡ method_len version }
{
    if version == 0 { 2 } else { 4 }
}

/// The bytes of an entry behind the item's number, for an item of one extent of the file.
#[tactic(auto, unfolding(crate::specs::Entries::moved_entry))]
pub fn moved_entry(alloc: Global, entry: Entry, from: u64, len: u64) -> Result<Vec<u8>, Error>
    ensures { Makes (λ v. v.items) result (moved_entry entry from len) }
{
    let sizes = entry.sizes;
    let base = field_text(alloc, sizes.base, base_for(sizes, from))?;
    let offset = field_text(alloc, sizes.offset, offset_for(sizes, from))?;
    let size = field_text(alloc, sizes.len, len)?;
    let index = vec![in alloc; 0u8; sizes.index as usize]?;
    let mut text = vec![in alloc; 0u8; method_len(entry.version)]?;
    text.extend_from_slice(base.as_slice())?;
    text.extend_from_slice(&[0, 1])?;
    text.extend_from_slice(index.as_slice())?;
    text.extend_from_slice(offset.as_slice())?;
    text.extend_from_slice(size.as_slice())?;
    Ok(text)
}

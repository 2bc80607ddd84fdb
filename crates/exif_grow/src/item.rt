//! A HEIF file with new Exif data, whose item is appended.

ghost use Rattle.std.specs.Prelude.{◌≡◌, ◌≢◌, ◌≤◌, ◌+◌, ◌++◌, ◌∷◌, [], All, length, Err, IfOk};
ghost use Rattle.exif_edit_base.specs.Causes.{Makes};
ghost use Rattle.exif_edit_base.specs.Patches.{FitsIn};
ghost use Rattle.exif_edit_base.specs.declared.error.Error.TheVariants.{OutOfMemory};
ghost use Rattle.exif_edit.specs.InFiles.{holds};
ghost use Rattle.exif_grow.specs.Growing.{added_of, grown};
ghost use Rattle.exif_grow.specs.ItemFields.{fields_view};
ghost use Rattle.exif_grow.specs.Items.{first_held, item_added, item_grown, item_growth, item_moved, media_box, one_range, range_cleared};
ghost use Rattle.exif_grow.specs.ItemPromises.{IsItemMoved};

use crate::closed::are_closed;
use crate::entry::{moved_entry, number_len};
use crate::item_fields::{ExifFields, item_fields};
use crate::{Growth, grown};
use exif_base::Items;
use exif_edit::holds;
use exif_edit_base::{Error, Patch};
use exif_isobmff::{Extent, MAX_EXIF_SIZE};
use std::alloc::{AllocError, Global};

// A box of media data that holds an item: the bytes before its data, and the data.
fn media_box(alloc: Global, header: &[u8], new: &[u8]) -> Result<Vec<u8>, AllocError>
    requires { length header.now + length new.now ≤ 65535 }
    ensures { IfOk result (λ v. v.items ≡ media_box (header.now ++ new.now)) }
{
    let size = 8 + header.len() + new.len();
    let mut text = Vec::with_capacity(alloc, size)?;
    text.extend_from_slice(&(size as u32).to_be_bytes())?;
    text.extend_from_slice(b"mdat")?;
    text.extend_from_slice(header)?;
    text.extend_from_slice(new)?;
    Ok(text)
}

// The patches of an item that is moved: zeros over its old range, if it is to be cleared, and the
// text of its entry.
fn item_patches(
    alloc: Global,
    clear: bool,
    range: Extent,
    offset: u64,
    text: &[u8],
) -> Result<Vec<Patch>, AllocError>
    ensures { IfOk result (λ ps. ps.items
        ≡ range_cleared clear range ++ record { offset = offset; bytes = text.now } ∷ []) }
{
    let mut patches = Vec::with_capacity(alloc, 2)?;
    if clear {
        patches.push(Patch {
            offset: range.offset,
            bytes: Items::from_vec(vec![in alloc; 0u8; range.len as usize]?),
        })?;
    }
    patches.push(Patch {
        offset,
        bytes: Items::from_slice(alloc, text)?,
    })?;
    Ok(patches)
}

// Whether a file holds the new data with what is added.
fn is_held(alloc: Global, growth: &Growth, file: &[u8], new: &[u8]) -> Result<bool, AllocError>
    requires { All (FitsIn (length file.now)) growth.now.patches.items }
    ensures { IfOk result
        (λ held. held ≡ holds (grown (added_of growth.now) file.now) new.now) }
{
    let out = grown(alloc, growth, file)?;
    holds(alloc, out.as_slice(), new)
}

// The first of two growths with which a file holds the new data.
fn first_held(
    alloc: Global,
    file: &[u8],
    new: &[u8],
    first: Growth,
    second: Growth,
) -> Result<Growth, Error>
    requires first { All (FitsIn (length file.now)) first.patches.items }
    requires second { All (FitsIn (length file.now)) second.patches.items }
    ensures { Makes added_of result
        (first_held file.now new.now (added_of first) (added_of second)) }
{
    if is_held(alloc, &first, file, new)? {
        return Ok(first);
    }
    if is_held(alloc, &second, file, new)? {
        return Ok(second);
    }
    Err(Error::SharedBytes)
}

// What moves an item out of a range of the file.
fn item_moved(
    alloc: Global,
    file: &[u8],
    new: &[u8],
    fields: &ExifFields,
    range: Extent,
) -> Result<Growth, Error>
    ensures { Makes added_of result
        (item_moved file.now new.now (fields_view fields.now) range) }
{
    let Some(from) = (file.len() as u64).checked_add(8) else {
        return Err(Error::Container(exif_types::Error::NotSupported(
            "Field of ItemLocationBox too narrow",
        )));
    };
    let header = fields.header.as_slice();
    if header.len() as u128 + new.len() as u128 > MAX_EXIF_SIZE as u128 {
        return Err(Error::Container(exif_types::Error::TooBig("Exif item over 65,535 bytes")));
    }
    let len = (header.len() + new.len()) as u64;
    let text = moved_entry(alloc, fields.entry, from, len)?;
    let before = number_len(fields.entry.version);
    if (file.len() as u128) < fields.offset as u128 + before as u128 + text.len() as u128 {
        return Err(Error::SharedBytes);
    }
    if (file.len() as u128) < range.offset as u128 + range.len as u128 {
        return Err(Error::SharedBytes);
    }
    let offset = fields.offset + before;
    let first = Growth {
        patches: item_patches(alloc, true, range, offset, text.as_slice())?,
        tail: media_box(alloc, header, new)?,
    };
    let second = Growth {
        patches: item_patches(alloc, false, range, offset, text.as_slice())?,
        tail: media_box(alloc, header, new)?,
    };
    first_held(alloc, file, new, first, second)
}

// The range of an item that has one.
fn one_range(ranges: &[Extent]) -> Result<Extent, Error>
    ensures range { Makes (λ e. e) result (one_range ranges.now) }
    ensures no_memory { result ≢ Err OutOfMemory }
{
    match ranges {
        [range] => Ok(*range),
        _ => Err(Error::Container(exif_types::Error::NotSupported("Exif item in several extents"))),
    }
}

/// What makes a HEIF file hold new Exif data, of any length: the item that holds them is put into a
/// media data box (`mdat`) that follows the file, with the bytes that were before its data, and its
/// entry in `iloc` says so. The item is one of the file then (construction method 0), and has one
/// extent. Its old bytes become zeros, unless the file would hold other data then; another item
/// that has some of these bytes loses them. No other byte of the file changes, and none moves.
///
/// Refusals are `Container`, with the refusal of the file, or `NotSupported` where the item has
/// several extents, or one without a length, where a field of `iloc` is too narrow for the new
/// offset or length, and where the last box of the file runs to its end or past it, or `TooBig`
/// where the item would have more than 65,535 bytes; and `SharedBytes`, if the file does not hold
/// the new data then, as where the item's bytes also say where the item is. It takes the memory of
/// the file twice.
pub fn grow_item(alloc: Global, file: &[u8], new: &[u8]) -> Result<Growth, Error>
    ensures answer { Makes added_of result (item_growth file.now new.now) }
    ensures within { IfOk result (λ g. All (FitsIn (length file.now)) g.patches.items) }
    ensures moved { IfOk result
        (λ g. IsItemMoved file.now new.now (grown (added_of g) file.now)) }
{
    let fields = item_fields(alloc, file)?;
    if !are_closed(file) {
        return Err(Error::Container(exif_types::Error::NotSupported(
            "Last box of the file has no end",
        )));
    }
    let range = one_range(fields.ranges.as_slice())?;
    item_moved(alloc, file, new, &fields, range)
}

/// A HEIF file with new Exif data of any length, as [`grow_item`] makes it, with its refusals.
pub fn with_data(alloc: Global, file: &[u8], new: &[u8]) -> Result<Vec<u8>, Error>
    ensures answer { Makes (λ v. v.items) result (item_grown file.now new.now) }
    ensures moved { IfOk result (λ v. IsItemMoved file.now new.now v.items) }
{
    let growth = grow_item(alloc, file, new)?;
    Ok(grown(alloc, &growth, file)?)
}

//! The last field of a name, and the offset of its entry.

ghost use Rattle.std.specs.Prelude.{◌≡◌, ◌<◌, ◌^◌, All, length, false, slice_get, Some, IfOk, OnOk, MatchOption};
ghost use Rattle.exif_types.specs.Lookup.{is_named};
ghost use Rattle.exif_edit_base.specs.Walked.{Finds};
ghost use Rattle.exif_edit_base.specs.Causes.{Makes};
ghost use Rattle.exif_edit_base.specs.EntryLimit.{limited};
ghost use Rattle.exif_edit_base.specs.Finding.{IsLastAt, find_answer};
ghost use Rattle.exif_edit_base.specs.Readings.{read_of};
ghost use Rattle.exif_edit_base.specs.declared.find.Found.{Found};

use crate::error::Error;
use crate::limit::locate_within;
use crate::walk::{Located, Walk};
use exif_tiff::EntryOffset;
use exif_tiff::tiff::Parsed;
use exif_types::{Field, In, Tag};
use std::alloc::Global;

/// The fields that were read, the index of one of them, and the offsets of all.
#[derive(Drop)]
pub struct Found {
    pub parsed: Parsed,
    pub index: usize,
    pub entry: u32,
    pub walk: Walk,
}

/// Whether a field has this tag, in this directory.
pub fn is_named(field: &Field, tag: Tag, ifd_num: In) -> bool
    ensures { result ≡ is_named tag ifd_num field.now }
{
    field.tag == tag && field.ifd_num == ifd_num
}

// The index of the last field of a name.
fn last_index(fields: &[Field], tag: Tag, ifd_num: In) -> Option<usize>
    ensures { MatchOption result
        (All (λ f. is_named tag ifd_num f ≡ false) fields.now)
        (λ i. IsLastAt tag ifd_num fields.now i) }
{
    let mut i = fields.len();
    while i > 0 {
        i -= 1;
        if is_named(&fields[i], tag, ifd_num) {
            return Some(i);
        }
    }
    None
}

// The entry at an index.
fn at(entries: &[EntryOffset], index: usize) -> EntryOffset
    requires { index < length entries.now }
    ensures { slice_get entries.now index ≡ Some result }
{
    entries[index]
}

/// Reads the data, unless they have more entries than a limit, and finds the last field of a name.
pub fn find_within(
    alloc: Global,
    bytes: &[u8],
    limit: Option<u64>,
    tag: Tag,
    ifd_num: In,
) -> Result<Found, Error>
    ensures answer { Makes (λ (f : Found). (read_of f.parsed, f.entry)) result
        (limited limit bytes.now (find_answer bytes.now tag ifd_num)) }
    ensures last { IfOk result (λ f. IsLastAt tag ifd_num f.parsed.fields.items f.index) }
    ensures offsets { IfOk result (λ f. Finds bytes.now f.walk) }
    ensures small { OnOk result (length bytes.now < 2 ^ 32) }
{
    let Located { parsed, walk } = locate_within(alloc, bytes, limit)?;
    match last_index(parsed.fields.as_slice(), tag, ifd_num) {
        None => Err(Error::FieldNotFound),
        Some(index) => {
            let offset = at(walk.entries(), index);
            Ok(Found {
                parsed,
                index,
                entry: offset.entry,
                walk,
            })
        }
    }
}

/// Reads the data and finds the last field of a name.
pub fn find(alloc: Global, bytes: &[u8], tag: Tag, ifd_num: In) -> Result<Found, Error>
    ensures answer { Makes (λ (f : Found). (read_of f.parsed, f.entry)) result
        (find_answer bytes.now tag ifd_num) }
    ensures last { IfOk result (λ f. IsLastAt tag ifd_num f.parsed.fields.items f.index) }
    ensures offsets { IfOk result (λ f. Finds bytes.now f.walk) }
    ensures small { OnOk result (length bytes.now < 2 ^ 32) }
{
    find_within(alloc, bytes, None, tag, ifd_num)
}

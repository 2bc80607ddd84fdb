//! The positions of fields by directory and tag.

ghost use Rattle.std.specs.Prelude.{◌≡◌, ◌<◌, ◌≤◌, ◌^◌, All, length, IfOk};
ghost use Rattle.std.specs.Option.{option_copied};
ghost use Rattle.exif_table.specs.Contexts.{context_rank};
ghost use Rattle.exif_types.specs.Lookup.{last_named};
ghost use Rattle.exif_types.specs.Located.{key_of, entry_of};
ghost use Rattle.exif_types.specs.Sound.{IsRead};

use crate::{Context, Field, In, Tag};
use std::alloc::{AllocError, Global};

/// The fields of a list by directory, tag and position: an entry for each, in ascending order.
#[derive(Drop)]
pub struct FieldIndex {
    entries: Vec<u64>,
}

// The position of a context in the order of contexts.
fn rank(context: Context) -> u64
    ensures value { result ≡ context_rank context }
    ensures small { result < 4 }
{
    match context {
        Context::Tiff => 0,
        Context::Exif => 1,
        Context::Gps => 2,
        Context::Interop => 3,
    }
}

// What a field is looked up by, as one number of 21 bits.
fn key_of(tag: Tag, ifd_num: In) -> u64
    requires { ifd_num.0 < 8 }
    ensures value { result ≡ key_of tag ifd_num }
    ensures small { result < 2 ^ 21 }
    ensures number { tag.1 < 2 ^ 16 }
{
    (ifd_num.0 as u64 * 4 + rank(tag.0)) * 65536 + tag.1 as u64
}

// A field with this key at this position, as one number.
fn entry_of(key: u64, position: u64) -> u64
    requires key { key < 2 ^ 21 }
    requires position { position < 2 ^ 43 }
    ensures { result ≡ entry_of key position }
{
    key * (1 << 43) + position
}

impl FieldIndex {
    ghost use Rattle.std.specs.List.Sorted.{IsNonDecreasing};
    ghost use Rattle.exif_types.specs.Located.{EndsUpTo, Indexes, greatest_of};

    /// The index of a list of fields. There is no memory for a list of 2^43 fields or more.
    pub fn of(alloc: Global, fields: &[Field]) -> Result<FieldIndex, AllocError>
        requires { All IsRead fields.now }
        ensures { IfOk result (λ index. Indexes index fields.now) }
    {
        if fields.len() >= 1 << 43 {
            return Err(AllocError);
        }
        let mut entries = Vec::with_capacity(alloc, fields.len())?;
        for (position, field) in fields.iter().enumerate() {
            entries.push(entry_of(key_of(field.tag, field.ifd_num), position as u64))?;
        }
        entries.sort_unstable();
        Ok(FieldIndex { entries })
    }

    // How many entries there are up to the greatest of a key.
    fn count_up_to(&self, key: u64) -> usize
        requires key { key < 2 ^ 21 }
        requires ascending { IsNonDecreasing self.now.entries.items }
        ensures within { result ≤ length self.now.entries.items }
        ensures parted { EndsUpTo (greatest_of key) self.now.entries.items result }
    {
        let greatest = entry_of(key, (1 << 43) - 1);
        self.entries.partition_point(|entry| *entry <= greatest)
    }

    /// The last field of the list with this tag and this directory.
    pub fn last_named<'a>(&self, fields: &'a [Field], tag: Tag, ifd_num: In) -> Option<&'a Field>
        requires { Indexes self.now fields.now }
        ensures { option_copied result ≡ last_named fields.now tag ifd_num }
    {
        if ifd_num.0 >= 8 {
            return None;
        }
        let key = key_of(tag, ifd_num);
        let last = self.count_up_to(key).checked_sub(1)?;
        let entry = self.entries.get(last)?;
        let position = entry.checked_sub(entry_of(key, 0))?;
        fields.get(position as usize)
    }
}

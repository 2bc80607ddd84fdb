//! Where the entry of the Exif item is in a file.

ghost use Rattle.std.specs.Prelude.{◌≡◌, false, None, option_to_list};
ghost use Rattle.exif_types.specs.Refusals.{Gives, TakesIfRoom, is_io, last_read};
ghost use Rattle.exif_isobmff.specs.Boxes.{times_joined};
ghost use Rattle.exif_isobmff.specs.Entries.{entries, entry_at, entry_offset, exif_entry};

use crate::locations::{Sizes, next_location, number, sizes_of};
use crate::ranges::behind_last;
use crate::tables::{Tables, meta_tables};
use crate::{BoxSplitter, Kind};
use exif_types::Error;
use std::alloc::Global;

/// The entry of an item in `iloc`: where it begins, and how many bytes its fields take.
#[derive(Clone, Copy)]
pub struct Entry {
    /// How many bytes of the box are left where it begins.
    pub left: usize,
    /// The version of the box.
    pub version: u8,
    /// How many bytes its fields take.
    pub sizes: Sizes,
}

// The next entry, where it is that of the wanted item.
#[tactic(auto, unfolding(crate::specs::Entries::entry_at))]
fn next_entry(
    alloc: Global,
    body: &mut BoxSplitter,
    wanted: u32,
    version: u8,
    sizes: Sizes,
) -> Result<Option<Entry>, Error>
    ensures gives { TakesIfRoom option_to_list result body.new
        (entry_at wanted version sizes body.old) }
    ensures no_io { is_io result ≡ false }
{
    let left = body.rest().len();
    match next_location(alloc, body, wanted, version, sizes)? {
        Some(_location) => Ok(Some(Entry {
            left,
            version,
            sizes,
        })),
        None => Ok(None),
    }
}

// The last entry of the wanted item.
fn last_entry(
    alloc: Global,
    mut body: BoxSplitter,
    wanted: u32,
    version: u8,
    sizes: Sizes,
    count: u32,
) -> Result<Option<Entry>, Error>
    ensures gives { Gives (λ e. e) result
        (last_read None (times_joined count (entry_at wanted version sizes) body.entry)) }
    ensures no_io { is_io result ≡ false }
{
    let mut last = None;
    for _ in 0..count {
        let entry = next_entry(alloc, &mut body, wanted, version, sizes)?;
        last = entry.or(last);
    }
    Ok(last)
}

// The last entry of the wanted item in an `iloc` box.
#[tactic(auto, unfolding(crate::specs::Entries::entries))]
fn item_entry(alloc: Global, mut body: BoxSplitter, wanted: u32) -> Result<Option<Entry>, Error>
    ensures gives { Gives (λ e. e) result (last_read None (entries wanted body.entry)) }
    ensures no_io { is_io result ≡ false }
{
    let version = body.fullbox_version()?;
    let packed = body.uint16()?;
    if version > 2 {
        return Err(Error::InvalidFormat("Unsupported ItemLocationBox"));
    }
    let count = number(&mut body, version)?;
    last_entry(
        alloc,
        body,
        wanted,
        version,
        sizes_of(version, packed),
        count,
    )
}

/// The entry of the Exif item of the body of a `meta`. Refusals are those of
/// [`find_exif`](crate::find_exif).
#[tactic(auto, unfolding(crate::specs::Entries::exif_entry))]
pub fn exif_entry(alloc: Global, meta: &[u8]) -> Result<Entry, Error>
    ensures gives { Gives (λ e. e) result (exif_entry meta.now) }
    ensures no_io { is_io result ≡ false }
{
    let Tables {
        item,
        iloc,
        idat: _,
    } = meta_tables(BoxSplitter::new(meta))?;
    let Some(item) = item else {
        return Err(Error::NotFound("HEIF"));
    };
    let Some(iloc) = iloc else {
        return Err(Error::InvalidFormat("No ItemLocationBox"));
    };
    let Some(entry) = item_entry(alloc, iloc, item)? else {
        return Err(Error::InvalidFormat("No matching item in ItemLocationBox"));
    };
    Ok(entry)
}

/// The offset of an entry of the last `iloc` of a `meta` that ends at an offset.
pub fn entry_offset(end: u64, meta: &[u8], entry: Entry) -> u64
    ensures { result ≡ entry_offset end meta.now entry }
{
    let boxes = &meta[meta.len().min(4)..];
    end.saturating_sub(behind_last(Kind::ItemLocation, boxes).len() as u64)
        .saturating_sub(entry.left as u64)
}

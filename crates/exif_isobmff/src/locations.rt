//! Where an item is.

ghost use Rattle.std.specs.Prelude.{◌≡◌, false, ◌+◌, ◌*◌, Option, None, Ok};
ghost use Rattle.std.specs.Option.{option_map};
ghost use Rattle.exif_types.specs.Refusals.{Gives, Takes, TakesIfRoom, is_io, last_read};
ghost use Rattle.exif_isobmff.specs.Boxes.{number_at, pass_at, times, times_joined};
ghost use Rattle.exif_isobmff.specs.ItemLocations.{location_view, location_list, sizes, item_width, method_at, extent_at, item_head_at, location_at, locations};

use crate::BoxSplitter;
use exif_types::Error;
use std::alloc::Global;

/// How many bytes the fields of an item take.
#[derive(Clone, Copy)]
pub struct Sizes {
    /// An extent's offset.
    pub offset: u8,
    /// An extent's length.
    pub len: u8,
    /// The offset that all extents of an item share.
    pub base: u8,
    /// An extent's index.
    pub index: u8,
}

/// A part of an item.
#[derive(Clone, Copy)]
pub struct Extent {
    /// Its offset behind the base, in bytes.
    pub offset: u64,
    /// Its length in bytes; 0 runs to the end.
    pub len: u64,
}

/// The parts of an item, and where they are.
#[derive(Drop)]
pub struct Location {
    /// How the item is put together: 0 from the file, 1 from `idat`.
    pub method: u8,
    /// The offset that all extents share.
    pub base: u64,
    /// The parts, in order.
    pub extents: Vec<Extent>,
}

/// The sizes that 16 bits say.
pub fn sizes_of(version: u8, packed: u16) -> Sizes
    ensures { result ≡ sizes version packed }
{
    Sizes {
        offset: (packed >> 12) as u8,
        len: (packed >> 8 & 0xf) as u8,
        base: (packed >> 4 & 0xf) as u8,
        index: if version == 0 {
            0
        } else {
            (packed & 0xf) as u8
        },
    }
}

/// An item's number, or how many items there are.
pub fn number(body: &mut BoxSplitter, version: u8) -> Result<u32, Error>
    ensures { Takes (λ n. n) result body.new (number_at (item_width version) body.old) }
{
    if version == 2 {
        body.uint32()
    } else {
        Ok(u32::from(body.uint16()?))
    }
}

// How an item is put together.
fn method(body: &mut BoxSplitter, version: u8) -> Result<u8, Error>
    ensures { Takes (λ n. n) result body.new (method_at version body.old) }
{
    if version == 0 {
        return Ok(0);
    }
    let bytes = body.slice(2)?;
    Ok(bytes[1] & 0xf)
}

#[tactic(auto, unfolding(crate::specs::ItemLocations::extent_at))]
fn next_extent(body: &mut BoxSplitter, sizes: Sizes) -> Result<Extent, Error>
    ensures { Takes (λ e. e) result body.new (extent_at sizes body.old) }
{
    let _index = body.sized(usize::from(sizes.index), "Invalid index_size")?;
    let offset = body.sized(usize::from(sizes.offset), "Invalid offset_size")?;
    let len = body.sized(usize::from(sizes.len), "Invalid length_size")?;
    Ok(Extent { offset, len })
}

fn extents(
    alloc: Global,
    body: &mut BoxSplitter,
    sizes: Sizes,
    count: u16,
) -> Result<Vec<Extent>, Error>
    ensures gives { TakesIfRoom
        (λ v. v.items) result body.new (times count (extent_at sizes) body.old) }
    ensures no_io { is_io result ≡ false }
{
    let mut found = Vec::new(alloc);
    for _ in 0..count {
        let extent = next_extent(body, sizes)?;
        found.push(extent)?;
    }
    Ok(found)
}

// The extents of an item that is not wanted.
fn pass_extents(body: &mut BoxSplitter, sizes: Sizes, count: u16) -> Result<(), Error>
    ensures { Takes (λ u. u) result body.new
        (pass_at ((sizes.index + sizes.offset + sizes.len) * count) body.old) }
{
    let each = usize::from(sizes.index) + usize::from(sizes.offset) + usize::from(sizes.len);
    let _passed = body.slice(each * usize::from(count))?;
    Ok(())
}

// What is in front of an item's extents.
#[derive(Clone, Copy)]
struct ItemHead {
    number: u32,
    method: u8,
    base: u64,
    count: u16,
}

#[tactic(auto, unfolding(crate::specs::ItemLocations::item_head_at))]
fn item_head(body: &mut BoxSplitter, version: u8, sizes: Sizes) -> Result<ItemHead, Error>
    ensures { Takes (λ h. h) result body.new (item_head_at version sizes body.old) }
{
    let number = number(body, version)?;
    let method = method(body, version)?;
    let reference = body.uint16()?;
    if method == 0 && reference != 0 {
        return Err(Error::NotSupported("External data reference is not supported"));
    }
    let base = body.sized(usize::from(sizes.base), "Invalid base_offset_size")?;
    let count = body.uint16()?;
    Ok(ItemHead {
        number,
        method,
        base,
        count,
    })
}

/// The next item, where it is the wanted one.
#[tactic(auto, unfolding(crate::specs::ItemLocations::location_at))]
pub fn next_location(
    alloc: Global,
    body: &mut BoxSplitter,
    wanted: u32,
    version: u8,
    sizes: Sizes,
) -> Result<Option<Location>, Error>
    ensures gives { TakesIfRoom location_list result body.new
        (location_at wanted version sizes body.old) }
    ensures no_io { is_io result ≡ false }
{
    let head = item_head(body, version, sizes)?;
    if head.number != wanted {
        pass_extents(body, sizes, head.count)?;
        return Ok(None);
    }
    let extents = extents(alloc, body, sizes, head.count)?;
    Ok(Some(Location {
        method: head.method,
        base: head.base,
        extents,
    }))
}

// The last location of the wanted item.
fn last_location(
    alloc: Global,
    mut body: BoxSplitter,
    wanted: u32,
    version: u8,
    sizes: Sizes,
    count: u32,
) -> Result<Option<Location>, Error>
    ensures gives { Gives (option_map location_view) result
        (last_read None (times_joined count (location_at wanted version sizes) body.entry)) }
    ensures no_io { is_io result ≡ false }
{
    let mut last = None;
    for _ in 0..count {
        let location = next_location(alloc, &mut body, wanted, version, sizes)?;
        last = location.or(last);
    }
    Ok(last)
}

/// The last location of the wanted item in the body of an `iloc` box, whatever the item is.
///
/// Refusals come in the order of the bytes: versions over 2, data in another file, and fields of
/// other sizes than 0, 4 or 8 bytes, up to the last item that the box counts. It takes the memory
/// of the extents.
#[tactic(auto, unfolding(crate::specs::ItemLocations::locations))]
pub fn item_location(
    alloc: Global,
    mut body: BoxSplitter,
    wanted: u32,
) -> Result<Option<Location>, Error>
    ensures gives { Gives (option_map location_view) result
        (last_read None (locations wanted body.entry)) }
    ensures no_io { is_io result ≡ false }
{
    let version = body.fullbox_version()?;
    let packed = body.uint16()?;
    if version > 2 {
        return Err(Error::InvalidFormat("Unsupported ItemLocationBox"));
    }
    let count = number(&mut body, version)?;
    last_location(
        alloc,
        body,
        wanted,
        version,
        sizes_of(version, packed),
        count,
    )
}

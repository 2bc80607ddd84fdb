//! Where the data of the items are (ISO/IEC 14496-12, 8.11.3).

ghost use Rattle.std.specs.Prelude.{◌≡◌, ◌≤◌, ◌<◌, ◌+◌, length, IfOk, IfSome};
ghost use Rattle.std.specs.Option.{option_map};
ghost use Rattle.exif_inventory_heif.specs.Extents.{are_widths, counted_entries, end_of, entries_in, entry_head, entry_step, extent_at, extent_len, extent_step, extents_of, head_len, is_known, is_width, item_kind, method_of, read_view, source_of, wide_entries, widths_of};
ghost use Rattle.exif_inventory_heif.specs.Loops.{repeated};

use crate::items::{ITEM_LIMIT, Item, kind_of};
use crate::numbers::number;
use crate::span::Span;
use exif_inventory::Kind;
use std::alloc::{AllocError, Global};

// How many extents are read at most.
const EXTENT_LIMIT: usize = 65_536;

/// Bytes of the file that are data of an item.
#[derive(Clone, Copy, Debug)]
pub struct Extent {
    /// What the item's data are.
    pub kind: Kind,
    /// The offset of the first byte.
    pub from: usize,
    /// The offset behind the last byte.
    pub end: usize,
}

/// Where items' data can be.
#[derive(Clone, Copy)]
pub struct Room {
    /// The length of the file.
    pub file: usize,
    /// The data beside the lists.
    pub idat: Option<Span>,
}

/// How many bytes the fields of an entry take.
#[derive(Clone, Copy, Debug)]
pub struct Widths {
    /// The number of an item.
    pub number: u8,
    /// How its data are put together.
    pub method: u8,
    /// What is added to each offset.
    pub base: u8,
    /// The index of an extent.
    pub index: u8,
    /// The offset of an extent.
    pub offset: u8,
    /// The length of an extent.
    pub len: u8,
}

// What an entry says of all its extents.
#[derive(Clone, Copy)]
struct EntryHead {
    number: usize,
    in_file: bool,
    base: usize,
    count: usize,
}

// Where offsets begin, and where the bytes that they count end.
#[derive(Clone, Copy)]
struct Source {
    from: usize,
    end: usize,
}

// What is left of the list, and the extents before that.
#[derive(Drop)]
struct Reading<'a> {
    rest: &'a [u8],
    found: Vec<Extent>,
}

/// The widths that a version and four numbers of 4 bits say.
#[tactic(auto, unfolding(crate::specs::Extents::widths_of))]
pub fn widths_of(version: u8, packed: usize) -> Widths
    ensures value { result ≡ widths_of version packed }
    ensures most { result.number ≤ 4 }
{
    Widths {
        number: if version == 2 { 4 } else { 2 },
        method: if version == 0 { 0 } else { 2 },
        base: (packed / 16 % 16) as u8,
        index: if version == 0 { 0 } else { (packed % 16) as u8 },
        offset: (packed / 4096 % 16) as u8,
        len: (packed / 256 % 16) as u8,
    }
}

// Whether a field may have this width.
fn is_width(width: u8) -> bool
    ensures { result ≡ is_width width }
{
    matches!(width, 0 | 4 | 8)
}

// Whether all fields may have their widths.
fn are_widths(w: Widths) -> bool
    ensures { result ≡ are_widths w }
{
    is_width(w.base) && is_width(w.index) && is_width(w.offset) && is_width(w.len)
}

/// How many bytes come before the extents of an entry.
pub fn head_len(w: Widths) -> usize
    ensures value { result ≡ head_len w }
    ensures most { result ≤ 1024 }
{
    usize::from(w.number) + usize::from(w.method) + usize::from(w.base) + 4
}

/// How many bytes an extent takes.
pub fn extent_len(w: Widths) -> usize
    ensures value { result ≡ extent_len w }
    ensures most { result ≤ 1024 }
{
    usize::from(w.index) + usize::from(w.offset) + usize::from(w.len)
}

// How the data of an entry are put together.
fn method_of(w: Widths, bytes: &[u8]) -> u8
    requires { head_len w ≤ length bytes.now }
    ensures { result ≡ method_of w bytes.now }
{
    if w.method == 0 {
        0
    } else {
        bytes[usize::from(w.number) + 1] % 16
    }
}

// What an entry says of all its extents: data of other files, and data that are put together of
// other items' data, are not read.
#[tactic(auto, unfolding(crate::specs::Extents::entry_head))]
fn entry_head(w: Widths, bytes: &[u8]) -> Option<EntryHead>
    ensures value { result ≡ entry_head w bytes.now }
    ensures within { IfSome result (λ _. head_len w ≤ length bytes.now) }
{
    if bytes.len() < head_len(w) {
        return None;
    }
    let method = method_of(w, bytes);
    let behind = &bytes[usize::from(w.number) + usize::from(w.method)..];
    if method > 1 || number(2, behind) != 0 {
        return None;
    }
    Some(EntryHead {
        number: number(usize::from(w.number), bytes),
        in_file: method == 0,
        base: number(usize::from(w.base), &behind[2..]),
        count: number(2, &behind[2 + usize::from(w.base)..]),
    })
}

// Where the offsets of an entry count from.
fn source_of(in_file: bool, room: Room) -> Option<Source>
    ensures { result ≡ source_of in_file room }
{
    if in_file {
        return Some(Source {
            from: 0,
            end: room.file,
        });
    }
    match room.idat {
        Some(span) => Some(Source {
            from: span.content,
            end: span.end,
        }),
        None => None,
    }
}

// Where an extent ends: one without a length runs to the end.
fn end_of(source: Source, from: usize, len: usize) -> Option<usize>
    ensures { result ≡ end_of source from len }
{
    if len == 0 {
        return Some(from.max(source.end));
    }
    from.checked_add(len)
}

// The extent at the front of bytes.
#[tactic(auto, unfolding(crate::specs::Extents::extent_at))]
fn extent_at(w: Widths, source: Source, base: usize, kind: Kind, bytes: &[u8]) -> Option<Extent>
    ensures value { result ≡ extent_at w source base kind bytes.now }
    ensures within { IfSome result (λ _. extent_len w ≤ length bytes.now) }
{
    if bytes.len() < extent_len(w) {
        return None;
    }
    let behind = &bytes[usize::from(w.index)..];
    let offset = number(usize::from(w.offset), behind);
    let len = number(usize::from(w.len), &behind[usize::from(w.offset)..]);
    let Some(start) = source.from.checked_add(base) else {
        return None;
    };
    let Some(from) = start.checked_add(offset) else {
        return None;
    };
    match end_of(source, from, len) {
        Some(end) => Some(Extent { kind, from, end }),
        None => None,
    }
}

// One extent more.
fn read_extent<'a>(
    reading: Reading<'a>,
    w: Widths,
    source: Source,
    base: usize,
    kind: Kind,
) -> Result<Option<Reading<'a>>, AllocError>
    ensures { IfOk result (λ read. option_map read_view read
        ≡ extent_step w source base kind (read_view reading.entry)) }
{
    let Reading { rest, mut found } = reading;
    if found.len() >= EXTENT_LIMIT {
        return Ok(None);
    }
    let Some(extent) = extent_at(w, source, base, kind, rest) else {
        return Ok(None);
    };
    found.push(extent)?;
    Ok(Some(Reading {
        rest: &rest[extent_len(w)..],
        found,
    }))
}

// This many extents more.
fn read_extents<'a>(
    reading: Reading<'a>,
    w: Widths,
    source: Source,
    base: usize,
    kind: Kind,
    count: usize,
) -> Result<Option<Reading<'a>>, AllocError>
    ensures { IfOk result (λ read. option_map read_view read
        ≡ repeated (extent_step w source base kind) count (read_view reading.entry)) }
{
    let mut so_far = reading;
    for _ in 0..count {
        let Some(read) = read_extent(so_far, w, source, base, kind)? else {
            return Ok(None);
        };
        so_far = read;
    }
    Ok(Some(so_far))
}

// What the data of an item are, of which there are so many extents.
fn item_kind(kind: Kind, count: usize) -> Kind
    ensures { result ≡ item_kind kind count }
{
    match kind {
        Kind::Picture => Kind::Picture,
        _ => { if count == 1 { kind } else { Kind::Unknown } }
    }
}

// The extents of one entry more.
#[tactic(auto, unfolding(crate::specs::Extents::entry_step))]
fn read_entry<'a>(
    reading: Reading<'a>,
    w: Widths,
    items: &[Item],
    room: Room,
) -> Result<Option<Reading<'a>>, AllocError>
    ensures { IfOk result (λ read. option_map read_view read
        ≡ entry_step w items.now room (read_view reading.entry)) }
{
    let Reading { rest, found } = reading;
    let Some(head) = entry_head(w, rest) else {
        return Ok(None);
    };
    let Some(source) = source_of(head.in_file, room) else {
        return Ok(None);
    };
    let kind = item_kind(kind_of(head.number, items), head.count);
    let behind = Reading {
        rest: &rest[head_len(w)..],
        found,
    };
    read_extents(behind, w, source, head.base, kind, head.count)
}

// The extents of so many entries.
fn entries_in(
    alloc: Global,
    w: Widths,
    items: &[Item],
    room: Room,
    count: usize,
    bytes: &[u8],
) -> Result<Option<Vec<Extent>>, AllocError>
    ensures { IfOk result
        (λ found. option_map (λ v. v.items) found ≡ entries_in w items.now room count bytes.now) }
{
    let mut so_far = Reading {
        rest: bytes,
        found: Vec::new(alloc),
    };
    for _ in 0..count {
        let Some(read) = read_entry(so_far, w, items, room)? else {
            return Ok(None);
        };
        so_far = read;
    }
    let Reading { rest: _, found } = so_far;
    Ok(Some(found))
}

// The extents of so many entries, if no more are read at most.
fn counted_entries(
    alloc: Global,
    w: Widths,
    items: &[Item],
    room: Room,
    count: usize,
    bytes: &[u8],
) -> Result<Option<Vec<Extent>>, AllocError>
    ensures { IfOk result (λ found. option_map (λ v. v.items) found
        ≡ counted_entries w items.now room count bytes.now) }
{
    if count > ITEM_LIMIT {
        return Ok(None);
    }
    entries_in(alloc, w, items, room, count, bytes)
}

// The extents of a list from its count on, whose entries have these widths.
#[tactic(auto, unfolding(crate::specs::Extents::wide_entries))]
fn wide_entries(
    alloc: Global,
    w: Widths,
    items: &[Item],
    room: Room,
    bytes: &[u8],
) -> Result<Option<Vec<Extent>>, AllocError>
    requires within { w.number ≤ length bytes.now }
    ensures { IfOk result
        (λ found. option_map (λ v. v.items) found ≡ wide_entries w items.now room bytes.now) }
{
    let width = usize::from(w.number);
    counted_entries(alloc, w, items, room, number(width, bytes), &bytes[width..])
}

// Whether a list of this version, with entries of these widths, can be read.
#[tactic(auto, unfolding(crate::specs::Extents::is_known))]
fn is_known(version: u8, w: Widths) -> bool
    ensures { result ≡ is_known version w }
{
    version <= 2 && are_widths(w)
}

/// The extents of the items, if their list can be read and has no more than are read at most.
#[tactic(auto, unfolding(crate::specs::Extents::extents_of))]
pub fn extents_of(
    alloc: Global,
    items: &[Item],
    room: Room,
    body: &[u8],
) -> Result<Option<Vec<Extent>>, AllocError>
    ensures { IfOk result
        (λ found. option_map (λ v. v.items) found ≡ extents_of items.now room body.now) }
{
    if body.len() < 10 {
        return Ok(None);
    }
    let version = body[0];
    let w = widths_of(version, number(2, &body[4..]));
    if !is_known(version, w) {
        return Ok(None);
    }
    wide_entries(alloc, w, items, room, &body[6..])
}

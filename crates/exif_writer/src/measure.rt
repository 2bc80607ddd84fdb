//! Why nothing is written, and where the image would end, measured without memory.

ghost use Rattle.std.specs.Prelude.{◌≡◌, ◌+◌, ◌*◌, ◌<◌, ◌≤◌, ◌^◌, false, length, SomeIff, ◌-◌, ◌%◌, ◌++◌, [], ◌∷◌, List, map, IfSome, IfNone, None, IfOk};
ghost use Rattle.exif_layout.specs.Encoding.{value_len};
ghost use Rattle.exif_layout.specs.Offsets.{after_blocks, after_values, directory_len, tiff_values, strips_offset, draft_end, drafts_end};
ghost use Rattle.exif_layout.specs.Refused.{is_unknown, any_unknown, group_fault, first_group_fault, write_fault};
ghost use Rattle.exif_layout.specs.Views.{blocks_of, set_in, entries_in};
ghost use Rattle.exif_writer.specs.Tails.{Tells};
ghost use Rattle.exif_layout.specs.Measuring.{MeasuredAs, span};
ghost use Rattle.exif_layout.specs.Slots.{Slot, known, set_slots, content_len, in_tag_order, draft_of, slots_of, unsorted};
ghost use Rattle.exif_layout.specs.Counting.{counted_len};

use crate::plan::{lengths_tag, offsets_tag};
use exif_layout::{BlockKind, Ifd, WriteFault};
use exif_types::{Context, Field, Value};

/// The end of so many bytes that begin at an offset.
pub fn end_of(offset: u32, len: usize) -> Option<u32>
    ensures { MeasuredAs result (offset + len) }
{
    offset.checked_add(u32::try_from(len).ok()?)
}

/// How many bytes items of a few bytes each take.
pub fn items_size(unit: u32, count: usize) -> Option<u32>
    requires { 1 ≤ unit }
    ensures { MeasuredAs result (unit * count) }
{
    unit.checked_mul(u32::try_from(count).ok()?)
}

/// How many bytes a value of a known type takes.
pub fn value_size(value: &Value) -> Option<u32>
    requires { is_unknown value.now ≡ false }
    ensures { MeasuredAs result (value_len value.now) }
{
    let unit = value.field_type()?.unit_length();
    unit.checked_mul(value.count()?)
}

/// Where blocks end that begin at an offset.
pub fn blocks_end(offset: u32, blocks: &[&[u8]]) -> Option<u32>
    ensures { MeasuredAs result (after_blocks offset (blocks_of blocks.now)) }
{
    let mut end = offset;
    for block in blocks {
        end = end_of(end, block.len())?;
    }
    Some(end)
}

/// What is known of the values of entries that don't fit into them.
#[derive(Clone, Copy, Debug)]
pub struct Tail {
    bytes: u32,
    last: Option<(u16, u32)>,
}

// The end of so many bytes that begin at an even offset, less the zero that makes the last ones
// even.
fn even_end(offset: u32, bytes: u32, last: u32) -> Option<u32>
    ensures { MeasuredAs result (offset + offset % 2 + bytes - last % 2) }
{
    let end = u64::from(offset) + u64::from(offset % 2) + u64::from(bytes);
    u32::try_from(end.saturating_sub(u64::from(last % 2))).ok()
}

impl Tail {
    // Of no entries.
    fn new() -> Tail
        ensures { Tells result [] }
    {
        Tail {
            bytes: 0,
            last: None,
        }
    }

    // Counts an entry with a tag whose value takes so many bytes.
    fn with(self, tag: u16, size: u32) -> Option<Tail>
        ensures over { IfNone result ((slots : List Slot) (slot : Slot)
            → Tells self slots → content_len slot.content ≡ size
            → 2 ^ 32 ≤ span (slots ++ slot ∷ [])) }
        ensures told { IfSome result (λ tail. (slots : List Slot) (slot : Slot)
            → Tells self slots → slot.tag ≡ tag → content_len slot.content ≡ size
            → Tells tail (slots ++ slot ∷ [])) }
    {
        if size <= 4 {
            return Some(self);
        }
        let bytes = end_of(self.bytes, size as usize + size as usize % 2)?;
        let last = match self.last {
            Some((last, _)) if tag < last => self.last,
            _ => Some((tag, size)),
        };
        Some(Tail { bytes, last })
    }

    /// Counts the two entries of blocks that are set.
    pub fn with_blocks(self, kind: BlockKind, set: Option<&[&[u8]]>) -> Option<Tail>
        ensures over { IfNone result ((slots : List Slot) → Tells self slots
            → 2 ^ 32 ≤ span (slots ++ set_slots kind (set_in set.entry))) }
        ensures told { IfSome result (λ tail. (slots : List Slot) → Tells self slots
            → Tells tail (slots ++ set_slots kind (set_in set.entry))) }
    {
        let Some(blocks) = set else {
            return Some(self);
        };
        let size = items_size(4, blocks.len())?;
        self.with(offsets_tag(kind), size)?
            .with(lengths_tag(kind), size)
    }

    /// Where the values end that begin at an offset.
    pub fn end(&self, offset: u32) -> Option<u32>
        ensures { (slots : List Slot) → Tells self.now slots
            → MeasuredAs result (after_values offset (in_tag_order slots)) }
    {
        match self.last {
            None => Some(offset),
            Some((_, size)) => even_end(offset, self.bytes, size),
        }
    }
}

/// What is known of the values of pushed fields.
pub fn tail_of(fields: &[&Field]) -> Option<Tail>
    requires { any_unknown (entries_in fields.now) ≡ false }
    ensures over { IfNone result (2 ^ 32 ≤ span (map known (entries_in fields.now))) }
    ensures told { IfSome result (λ tail. Tells tail (map known (entries_in fields.now))) }
{
    let mut tail = Tail::new();
    for field in fields {
        tail = tail.with(field.tag.1, value_size(&field.value)?)?;
    }
    Some(tail)
}

// The length of a directory of so many entries; one with none isn't there.
fn directory_len(entries: usize) -> u32
    requires { entries ≤ 65535 }
    ensures len { result ≡ counted_len entries }
    ensures few { result ≤ 6 + 12 * 65535 }
{
    if entries == 0 {
        0
    } else {
        6 + 12 * entries as u32
    }
}

/// The length of the directory of a context.
pub fn context_len(ifd: &Ifd, context: Context) -> u32
    requires { group_fault ifd.now ≡ None }
    ensures len { result ≡ directory_len (slots_of ifd.now context) }
    ensures few { result ≤ 6 + 12 * 65535 }
{
    directory_len(ifd.count(context))
}

// Where the directories end of a directory of the chain that begins at an offset.
fn directories_end(ifd: &Ifd, start: u32) -> Option<u32>
    requires { group_fault ifd.now ≡ None }
    ensures { MeasuredAs result (tiff_values (draft_of ifd.now) start) }
{
    let len = context_len(ifd, Context::Tiff)
        + context_len(ifd, Context::Exif)
        + context_len(ifd, Context::Gps)
        + context_len(ifd, Context::Interop);
    start.checked_add(start % 2 + len)
}

// What is known of the values of a context: those of pushed fields and of strips and tiles, since
// all others are in their entries.
fn context_tail(ifd: &Ifd, context: Context) -> Option<Tail>
    requires { group_fault ifd.now ≡ None }
    ensures over { IfNone result (2 ^ 32 ≤ span (unsorted ifd.now context)) }
    ensures told { IfSome result (λ tail. Tells tail (unsorted ifd.now context)) }
{
    let tail = tail_of(ifd.fields(context))?;
    match context {
        Context::Tiff => tail
            .with_blocks(BlockKind::Strips, ifd.set(BlockKind::Strips))?
            .with_blocks(BlockKind::Tiles, ifd.set(BlockKind::Tiles)),
        Context::Exif | Context::Gps | Context::Interop => Some(tail),
    }
}

// Where the values of a context end that begin at an offset.
fn values_end(ifd: &Ifd, context: Context, offset: u32) -> Option<u32>
    requires fault { group_fault ifd.now ≡ None }
    requires offset { 0 < offset }
    ensures { MeasuredAs result (after_values offset (slots_of ifd.now context)) }
{
    context_tail(ifd, context)?.end(offset)
}

// Where the values of all its directories end.
fn all_values_end(ifd: &Ifd, start: u32) -> Option<u32>
    requires fault { group_fault ifd.now ≡ None }
    requires start { 0 < start }
    ensures { MeasuredAs result (strips_offset (draft_of ifd.now) start) }
{
    let tiff = directories_end(ifd, start)?;
    let exif = values_end(ifd, Context::Tiff, tiff)?;
    let gps = values_end(ifd, Context::Exif, exif)?;
    let interop = values_end(ifd, Context::Gps, gps)?;
    values_end(ifd, Context::Interop, interop)
}

// Where a directory of the chain that begins at an offset ends, with its children and its blocks.
fn end(ifd: &Ifd, start: u32) -> Option<u32>
    requires fault { group_fault ifd.now ≡ None }
    requires start { 0 < start }
    ensures { MeasuredAs result (draft_end (draft_of ifd.now) start) }
{
    let strips = all_values_end(ifd, start)?;
    let tiles = blocks_end(strips, ifd.blocks(BlockKind::Strips))?;
    let jpeg = blocks_end(tiles, ifd.blocks(BlockKind::Tiles))?;
    blocks_end(jpeg, ifd.blocks(BlockKind::Jpeg))
}

/// The offset of the first directory, right behind the header.
pub const FIRST: u32 = 8;

// The cause of the first directory that has one.
fn first_fault(ifds: &[Ifd]) -> Option<WriteFault>
    ensures { result ≡ first_group_fault ifds.now }
{
    for ifd in ifds {
        let fault = ifd.fault();
        if fault.is_some() {
            return fault;
        }
    }
    None
}

// Where the image ends, if offsets of 32 bits reach there.
fn image_end(ifds: &[Ifd]) -> Option<u32>
    requires { first_group_fault ifds.now ≡ None }
    ensures { MeasuredAs result (drafts_end 8 (map draft_of ifds.now)) }
{
    let mut offset = FIRST;
    for ifd in ifds {
        offset = end(ifd, offset)?;
    }
    Some(offset)
}

/// Why nothing is written. It takes no memory.
pub fn write_fault(ifds: &[Ifd]) -> Option<WriteFault>
    ensures { result ≡ write_fault ifds.now }
{
    if ifds.is_empty() {
        return Some(WriteFault::NoDirectory);
    }
    let fault = first_fault(ifds);
    if fault.is_some() {
        return fault;
    }
    match image_end(ifds) {
        Some(_) => None,
        None => Some(WriteFault::OffsetTooLarge),
    }
}

//! What is known of an image before its first byte is sent. All the memory of writing is taken
//! here.

ghost use Rattle.std.specs.Prelude.{◌≡◌, ◌≤◌, map, OnOk, ◌++◌, IfOk, length, None};
ghost use Rattle.exif_writer.specs.Sending.{symbol, settle, settle_slot, after_slot, values_end, IsMeasurable};
ghost use Rattle.exif_layout.specs.EntryContents.{symbol_of};
ghost use Rattle.exif_layout.specs.Offsets.{after_blocks, draft_end};
ghost use Rattle.exif_layout.specs.Groups.{offsets_tag, lengths_tag};
ghost use Rattle.exif_layout.specs.Slots.{in_tag_order, draft_of, known, set_slots, pointer_slots};
ghost use Rattle.exif_writer.specs.Drafts.{AreDirectories, AreSettledDirectories, HasRoom, IsSettledPlan, next_of, offsets_of, ArePlans};
ghost use Rattle.exif_writer.specs.Plans.{CanSettle};
ghost use Rattle.exif_layout.specs.Views.{blocks_of, set_in, entries_in};
ghost use Rattle.exif_layout.specs.Refused.{write_fault};

use crate::measure::{FIRST, context_len};
use crate::tag_order::sort;
use exif_layout::content::Content;
use exif_layout::{BlockKind, Ifd};
use exif_types::{Context, Field, Tag};
use std::alloc::{AllocError, Global};

/// The offsets of the parts of one directory of the chain and its children.
#[derive(Clone, Copy, Debug)]
pub struct Offsets {
    /// The end of what is before.
    pub start: u32,
    /// The directory of the chain.
    pub tiff: u32,
    /// The Exif directory.
    pub exif: u32,
    /// The GPS directory.
    pub gps: u32,
    /// The Interoperability directory.
    pub interop: u32,
    /// The values of the directory of the chain.
    pub tiff_values: u32,
    /// Those of the Exif directory.
    pub exif_values: u32,
    /// Those of the GPS directory.
    pub gps_values: u32,
    /// Those of the Interoperability directory.
    pub interop_values: u32,
    /// The strips.
    pub strips: u32,
    /// The tiles.
    pub tiles: u32,
    /// The JPEG.
    pub jpeg: u32,
    /// The end of the JPEG.
    pub end: u32,
    /// The next directory of the chain, or 0.
    pub next: u32,
}

/// An entry of a directory.
#[derive(Drop)]
pub struct Slot<'a> {
    /// The number of the tag.
    pub tag: u16,
    /// What the value is made of.
    pub content: Content<'a>,
    /// How many bytes the value takes.
    pub size: u32,
    /// Where the value is, if it isn't in the entry.
    pub offset: u32,
    /// Whether a zero is before it there.
    pub padded: bool,
}

impl<'a> Slot<'a> {
    /// An entry whose size and offset are not settled.
    pub fn new(tag: u16, content: Content<'a>) -> Slot<'a>
        ensures { symbol result ≡ record { tag = tag; content = symbol_of content.entry } }
    {
        Slot {
            tag,
            content,
            size: 0,
            offset: 0,
            padded: false,
        }
    }

    // Settles the size of the value, and its offset if it isn't in the entry and may be from a
    // offset on; answers where the next one may be.
    fn settle(&mut self, start: u32) -> u32
        requires measurable { IsMeasurable self.old }
        requires room { after_slot start self.old ≤ 4294967295 }
        ensures slot { self.new ≡ settle_slot start self.old }
        ensures end { result ≡ after_slot start self.old }
    {
        let size = self.content.size();
        self.size = size;
        if size <= 4 {
            return start;
        }
        self.padded = start % 2 == 1;
        self.offset = start + start % 2;
        self.offset + size
    }
}

/// What is sent of one directory of the chain, its children and its blocks.
#[derive(Drop)]
pub struct Plan<'a> {
    /// Where everything is.
    pub offsets: Offsets,
    /// The entries of the directory of the chain, in tag order.
    pub tiff: Vec<Slot<'a>>,
    /// Those of the Exif directory.
    pub exif: Vec<Slot<'a>>,
    /// Those of the GPS directory.
    pub gps: Vec<Slot<'a>>,
    /// Those of the Interoperability directory.
    pub interop: Vec<Slot<'a>>,
    /// The strips.
    pub strips: &'a [&'a [u8]],
    /// The tiles.
    pub tiles: &'a [&'a [u8]],
    /// The JPEG, as a slice of one, or none.
    pub jpeg: &'a [&'a [u8]],
}

/// Settles the sizes and the offsets of values that are one behind the other from an offset on;
/// answers where they end.
pub fn settle(slots: &mut [Slot], start: u32) -> u32
    requires { CanSettle start slots.old }
    ensures settled { slots.new ≡ settle start slots.old }
    ensures end { result ≡ values_end start slots.old }
{
    let mut end = start;
    for slot in slots.iter_mut() {
        end = slot.settle(end);
    }
    end
}

// Where blocks end that begin at an offset.
fn after_blocks(offset: u32, blocks: &[&[u8]]) -> u32
    requires { after_blocks offset (blocks_of blocks.now) ≤ 4294967295 }
    ensures { result ≡ after_blocks offset (blocks_of blocks.now) }
{
    let mut end = offset;
    for block in blocks {
        end += block.len() as u32;
    }
    end
}

/// The tag under which the offsets of blocks are.
pub fn offsets_tag(kind: BlockKind) -> u16
    ensures { result ≡ offsets_tag kind }
{
    match kind {
        BlockKind::Strips => Tag::StripOffsets.number(),
        BlockKind::Tiles => Tag::TileOffsets.number(),
        BlockKind::Jpeg => Tag::JPEGInterchangeFormat.number(),
    }
}

/// The tag under which their lengths are.
pub fn lengths_tag(kind: BlockKind) -> u16
    ensures { result ≡ lengths_tag kind }
{
    match kind {
        BlockKind::Strips => Tag::StripByteCounts.number(),
        BlockKind::Tiles => Tag::TileByteCounts.number(),
        BlockKind::Jpeg => Tag::JPEGInterchangeFormatLength.number(),
    }
}

// How many entries a directory can have beside pushed ones: two for each kind of blocks, and the
// pointers to two children.
const OTHERS: usize = 8;

// Entries of pushed fields, as they came, with capacity for the others.
fn known_slots<'a>(alloc: Global, fields: &[&'a Field]) -> Result<Vec<Slot<'a>>, AllocError>
    ensures { IfOk result (λ slots. map symbol slots.items ≡ map known (entries_in fields.now)) }
{
    let mut slots = Vec::with_capacity(alloc, fields.len() + OTHERS)?;
    for field in fields {
        slots.push(Slot::new(field.tag.1, Content::of(&field.value)))?;
    }
    Ok(slots)
}

// Adds the two entries of blocks that are set.
fn push_blocks<'a>(
    slots: &mut Vec<Slot<'a>>,
    kind: BlockKind,
    set: Option<&'a [&'a [u8]]>,
) -> Result<(), AllocError>
    ensures { OnOk result (map symbol slots.new.items
        ≡ map symbol slots.old.items ++ set_slots kind (set_in set.entry)) }
{
    let Some(blocks) = set else {
        return Ok(());
    };
    slots.push(Slot::new(offsets_tag(kind), Content::OffsetsOf(kind, blocks)))?;
    slots.push(Slot::new(lengths_tag(kind), Content::LengthsOf(kind, blocks)))?;
    Ok(())
}

// Adds the pointer to a child directory that has entries.
fn push_pointer<'a>(
    slots: &mut Vec<Slot<'a>>,
    tag: Tag,
    child: Context,
    entries: &[Slot<'a>],
) -> Result<(), AllocError>
    ensures { OnOk result (map symbol slots.new.items
        ≡ map symbol slots.old.items ++ pointer_slots tag.1 child (map symbol entries.now)) }
{
    if entries.is_empty() {
        return Ok(());
    }
    slots.push(Slot::new(tag.number(), Content::OffsetOf(child)))?;
    Ok(())
}

// The entries of a directory of pushed fields alone, in tag order.
fn sorted_slots<'a>(alloc: Global, fields: &[&'a Field]) -> Result<Vec<Slot<'a>>, AllocError>
    ensures { IfOk result (λ slots. map symbol slots.items
        ≡ in_tag_order (map known (entries_in fields.now))) }
{
    let mut slots = known_slots(alloc, fields)?;
    sort(alloc, &mut slots)?;
    Ok(slots)
}

// The entries of a directory of the chain and of its children, in tag order.
#[derive(Drop)]
struct Directories<'a> {
    tiff: Vec<Slot<'a>>,
    exif: Vec<Slot<'a>>,
    gps: Vec<Slot<'a>>,
    interop: Vec<Slot<'a>>,
}

// Those of a directory whose sizes and offsets are not settled.
fn directories_of<'b>(alloc: Global, ifd: &'b Ifd) -> Result<Directories<'b>, AllocError>
    ensures { IfOk result (AreDirectories (draft_of ifd.now)) }
{
    let gps = sorted_slots(alloc, ifd.fields(Context::Gps))?;
    let interop = sorted_slots(alloc, ifd.fields(Context::Interop))?;
    let mut exif = known_slots(alloc, ifd.fields(Context::Exif))?;
    push_pointer(
        &mut exif,
        Tag::InteropIFDPointer,
        Context::Interop,
        interop.as_slice(),
    )?;
    sort(alloc, &mut exif)?;
    let mut tiff = known_slots(alloc, ifd.fields(Context::Tiff))?;
    push_blocks(&mut tiff, BlockKind::Strips, ifd.set(BlockKind::Strips))?;
    push_blocks(&mut tiff, BlockKind::Tiles, ifd.set(BlockKind::Tiles))?;
    push_blocks(&mut tiff, BlockKind::Jpeg, ifd.set(BlockKind::Jpeg))?;
    push_pointer(
        &mut tiff,
        Tag::ExifIFDPointer,
        Context::Exif,
        exif.as_slice(),
    )?;
    push_pointer(
        &mut tiff,
        Tag::GPSInfoIFDPointer,
        Context::Gps,
        gps.as_slice(),
    )?;
    sort(alloc, &mut tiff)?;
    Ok(Directories {
        tiff,
        exif,
        gps,
        interop,
    })
}

// The offset of the next directory of the chain; behind the last one there is none.
fn next_of(end: u32, last: bool) -> u32
    requires { next_of end last ≤ 4294967295 }
    ensures { result ≡ next_of end last }
{
    if last { 0 } else { end + end % 2 }
}

impl<'a> Directories<'a> {
    // Settles where everything is from an offset on.
    fn settle(&mut self, ifd: &Ifd, start: u32, last: bool) -> Offsets
        requires directories { AreDirectories (draft_of ifd.now) self.old }
        requires room { HasRoom ifd.now start last }
        ensures offsets { result
            ≡ offsets_of (draft_of ifd.now) start
            (next_of (draft_end (draft_of ifd.now) start) last) }
        ensures settled { AreSettledDirectories (draft_of ifd.now) start self.new }
    {
        let tiff = start + start % 2;
        let exif = tiff + context_len(ifd, Context::Tiff);
        let gps = exif + context_len(ifd, Context::Exif);
        let interop = gps + context_len(ifd, Context::Gps);
        let tiff_values = interop + context_len(ifd, Context::Interop);
        let exif_values = settle(&mut self.tiff, tiff_values);
        let gps_values = settle(&mut self.exif, exif_values);
        let interop_values = settle(&mut self.gps, gps_values);
        let strips = settle(&mut self.interop, interop_values);
        let tiles = after_blocks(strips, ifd.blocks(BlockKind::Strips));
        let jpeg = after_blocks(tiles, ifd.blocks(BlockKind::Tiles));
        let end = after_blocks(jpeg, ifd.blocks(BlockKind::Jpeg));
        let next = next_of(end, last);
        Offsets {
            start,
            tiff,
            exif,
            gps,
            interop,
            tiff_values,
            exif_values,
            gps_values,
            interop_values,
            strips,
            tiles,
            jpeg,
            end,
            next,
        }
    }
}

// The plan of a directory that begins at an offset and is the last one of the chain, or not.
fn plan_of<'b>(alloc: Global, ifd: &'b Ifd, start: u32, last: bool) -> Result<Plan<'b>, AllocError>
    requires { HasRoom ifd.now start last }
    ensures { IfOk result
        (IsSettledPlan (draft_of ifd.now) start
        (next_of (draft_end (draft_of ifd.now) start) last)) }
{
    let mut directories = directories_of(alloc, ifd)?;
    let offsets = directories.settle(ifd, start, last);
    Ok(Plan {
        offsets,
        tiff: directories.tiff,
        exif: directories.exif,
        gps: directories.gps,
        interop: directories.interop,
        strips: ifd.blocks(BlockKind::Strips),
        tiles: ifd.blocks(BlockKind::Tiles),
        jpeg: ifd.blocks(BlockKind::Jpeg),
    })
}

/// The plans of directories that can be written. All the memory of writing is taken here.
pub fn plans<'b>(alloc: Global, ifds: &'b [Ifd]) -> Result<Vec<Plan<'b>>, AllocError>
    requires { write_fault ifds.now ≡ None }
    ensures { IfOk result (λ plans. ArePlans 8 (map draft_of ifds.now) plans.items) }
{
    let mut plans = Vec::with_capacity(alloc, ifds.len())?;
    let mut start = FIRST;
    for (index, ifd) in ifds.iter().enumerate() {
        let plan = plan_of(alloc, ifd, start, index + 1 == ifds.len())?;
        start = plan.offsets.end;
        plans.push(plan)?;
    }
    Ok(plans)
}

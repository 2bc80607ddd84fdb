//! What a writer holds of one directory of the chain, and why it isn't written.

ghost use Rattle.std.specs.Prelude.{◌≡◌, OnOk, OnErr, nat_lt};
ghost use Rattle.exif_layout.specs.Groups.{empty_group, blocks_in, pushed_in, with_entry, with_strips, with_tiles, with_jpeg, entry_of, is_ignored};
ghost use Rattle.exif_layout.specs.Views.{blocks_of, entries_in, set_in};
ghost use Rattle.exif_layout.specs.Slots.{block_list};
ghost use Rattle.std.specs.List.{list_any};
ghost use Rattle.exif_layout.specs.Counting.{entry_count, exif_count, tiff_count, pointer_count, set_count};
ghost use Rattle.exif_layout.specs.Refused.{group_fault, any_unknown, contexts, is_unknown};

use crate::block_kind::BlockKind;
use crate::write_fault::WriteFault;
use exif_types::{Context, Field, Tag, Value};
use std::alloc::{AllocError, Global};
use std::marker::Model;
use std::slice;

/// The fields of a directory of the chain and of its children, in the order in which they were
/// pushed, and its blocks where they are set.
#[derive(Debug, Drop)]
pub struct Ifd<'a> {
    pub tiff: Vec<&'a Field>,
    pub exif: Vec<&'a Field>,
    pub gps: Vec<&'a Field>,
    pub interop: Vec<&'a Field>,
    pub strips: Option<&'a [&'a [u8]]>,
    pub tiles: Option<&'a [&'a [u8]]>,
    pub jpeg: Option<&'a [u8]>,
}

impl<'a> Model for Ifd<'a> {
    ghost use Rattle.exif_layout.specs.Groups.{Group};
    ghost use Rattle.exif_layout.specs.Views.{entries_in, set_in, block_in};

    ghost Value = { Group };

    ghost view = { λ ifd. record {
      tiff = entries_in ifd.tiff.items;
      exif = entries_in ifd.exif.items;
      gps = entries_in ifd.gps.items;
      interop = entries_in ifd.interop.items;
      strips = set_in ifd.strips;
      tiles = set_in ifd.tiles;
      jpeg = block_in ifd.jpeg;
    } };
}

impl<'a> Ifd<'a> {
    /// A directory with nothing in it.
    pub fn new(alloc: Global) -> Ifd<'a>
        ensures { result ≡ empty_group }
    {
        Ifd {
            tiff: Vec::new(alloc),
            exif: Vec::new(alloc),
            gps: Vec::new(alloc),
            interop: Vec::new(alloc),
            strips: None,
            tiles: None,
            jpeg: None,
        }
    }

    /// The fields that were pushed in a context.
    pub fn fields(&self, context: Context) -> &[&'a Field]
        ensures { entries_in result.now ≡ pushed_in self.now context }
    {
        match context {
            Context::Tiff => self.tiff.as_slice(),
            Context::Exif => self.exif.as_slice(),
            Context::Gps => self.gps.as_slice(),
            Context::Interop => self.interop.as_slice(),
        }
    }

    /// The blocks of a kind, where they are set.
    pub fn set(&self, kind: BlockKind) -> Option<&[&[u8]]>
        ensures { set_in result ≡ blocks_in self.now kind }
    {
        match kind {
            BlockKind::Strips => self.strips,
            BlockKind::Tiles => self.tiles,
            BlockKind::Jpeg => self.jpeg.as_ref().map(|jpeg| slice::from_ref(jpeg)),
        }
    }

    /// The blocks of a kind, none where they are not set.
    pub fn blocks(&self, kind: BlockKind) -> &[&[u8]]
        ensures { blocks_of result.now ≡ block_list (blocks_in self.now kind) }
    {
        self.set(kind).unwrap_or(&[])
    }

    /// Adds a field to the directory of its context.
    pub fn push(&mut self, field: &'a Field) -> Result<(), AllocError>
        ensures pushed { OnOk result
            (self.new ≡ with_entry field.now.tag.0 (entry_of field.now) self.old) }
        ensures kept { OnErr result (self.new ≡ self.old) }
    {
        match field.tag.0 {
            Context::Tiff => self.tiff.push(field)?,
            Context::Exif => self.exif.push(field)?,
            Context::Gps => self.gps.push(field)?,
            Context::Interop => self.interop.push(field)?,
        }
        Ok(())
    }

    /// Sets the strips.
    pub fn set_strips(&mut self, strips: &'a [&'a [u8]])
        ensures { self.new ≡ with_strips (blocks_of strips.entry.now) self.old }
    {
        self.strips = Some(strips);
    }

    /// Sets the tiles.
    pub fn set_tiles(&mut self, tiles: &'a [&'a [u8]])
        ensures { self.new ≡ with_tiles (blocks_of tiles.entry.now) self.old }
    {
        self.tiles = Some(tiles);
    }

    /// Sets the JPEG.
    pub fn set_jpeg(&mut self, jpeg: &'a [u8])
        ensures { self.new ≡ with_jpeg jpeg.now self.old }
    {
        self.jpeg = Some(jpeg);
    }
}

/// Whether the writer makes an entry with this tag itself.
pub fn is_own(tag: Tag) -> bool
    ensures { result ≡ is_ignored tag.0 tag.1 }
{
    matches!(
        tag,
        Tag::StripOffsets
            | Tag::StripByteCounts
            | Tag::TileOffsets
            | Tag::TileByteCounts
            | Tag::JPEGInterchangeFormat
            | Tag::JPEGInterchangeFormatLength
            | Tag::ExifIFDPointer
            | Tag::GPSInfoIFDPointer
            | Tag::InteropIFDPointer
    )
}

// The pointer to a directory of so many entries.
fn pointer_count(entries: usize) -> usize
    ensures { result ≡ pointer_count entries }
{
    usize::from(entries > 0)
}

// The two entries of blocks that are set.
fn set_count<T>(blocks: &Option<T>) -> usize
    ensures { result ≡ set_count blocks.now }
{
    if blocks.is_some() { 2 } else { 0 }
}

// Whether a value's type is not known.
fn is_unknown(value: &Value) -> bool
    ensures { result ≡ is_unknown value.now }
{
    matches!(value, Value::Unknown(_, _, _))
}

// Whether a field has a value whose type is not known.
fn any_unknown(fields: &[&Field]) -> bool
    ensures { result ≡ list_any (λ field. is_unknown field.now.value) fields.now }
{
    fields.iter().any(|field| is_unknown(&field.value))
}

impl<'a> Ifd<'a> {
    // How many entries the Exif directory has.
    fn exif_count(&self) -> usize
        ensures { result ≡ exif_count self.now }
    {
        self.exif.len() + pointer_count(self.interop.len())
    }

    // How many entries the directory of the chain has.
    fn tiff_count(&self) -> usize
        ensures { result ≡ tiff_count self.now }
    {
        self.tiff.len()
            + set_count(&self.strips)
            + set_count(&self.tiles)
            + set_count(&self.jpeg)
            + pointer_count(self.exif_count())
            + pointer_count(self.gps.len())
    }

    /// How many entries the directory of a context has.
    pub fn count(&self, context: Context) -> usize
        ensures { result ≡ entry_count self.now context }
    {
        match context {
            Context::Tiff => self.tiff_count(),
            Context::Exif => self.exif_count(),
            Context::Gps => self.gps.len(),
            Context::Interop => self.interop.len(),
        }
    }

    // Whether a directory has more entries than its count of 16 bits can say.
    fn is_over(&self) -> bool
        ensures { result
            ≡ list_any (λ context. nat_lt 65535 (entry_count self.now context)) contexts }
    {
        self.count(Context::Tiff) > 65535
            || self.count(Context::Exif) > 65535
            || self.count(Context::Gps) > 65535
            || self.count(Context::Interop) > 65535
    }

    // Whether a value's type is not known.
    #[tactic(auto, using(crate::proofs::IfdCounts::unknown_in))]
    fn has_unknown(&self) -> bool
        ensures { result ≡ list_any (λ context. any_unknown (pushed_in self.now context)) contexts }
    {
        any_unknown(self.tiff.as_slice())
            || any_unknown(self.exif.as_slice())
            || any_unknown(self.gps.as_slice())
            || any_unknown(self.interop.as_slice())
    }

    /// Why the directory isn't written.
    pub fn fault(&self) -> Option<WriteFault>
        ensures { result ≡ group_fault self.now }
    {
        if self.tiff_count() == 0 {
            Some(WriteFault::EmptyDirectory)
        } else if self.is_over() {
            Some(WriteFault::TooManyFields)
        } else if self.has_unknown() {
            Some(WriteFault::UnknownType)
        } else {
            None
        }
    }
}

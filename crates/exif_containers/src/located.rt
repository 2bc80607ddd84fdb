//! Where in a stream the Exif data are.

ghost use Rattle.std.specs.Prelude.{◌≡◌, ◌≤◌, length, Some, IfOk, IfErr, IfSome};
ghost use Rattle.exif_base.specs.Reads.{Counts};
ghost use Rattle.exif_types.specs.Refusals.{Gives, is_io};
ghost use Rattle.exif_containers.specs.declared.container.Format.TheVariants.{Tiff, Jpeg, Heif, WebP};
ghost use Rattle.exif_segments.specs.Answer.{IsNamed};
ghost use Rattle.exif_containers.specs.Container.{container_refusals};
ghost use Rattle.exif_containers.specs.Located.{in_one, located_answer, located_as, located_view};

use crate::container::{BLOCK, Format, SNIFF_LEN, format_of, read_signature};
use crate::isobmff;
use exif_base::{Blocks, Source};
pub use exif_isobmff::Extent;
use exif_segments::util::read_all;
use exif_segments::{jpeg, webp};
use exif_types::Error;
use std::alloc::{AllocError, Global};

/// Exif data, and where in the stream they are.
#[derive(Drop)]
pub struct Located {
    /// The container.
    pub format: Format,
    /// The extents that hold the data, in order; offsets count from where the source was. TIFF
    /// data, JPEG streams and WebP files have one, HEIF files as many as their item has.
    pub extents: Vec<Extent>,
    /// The data.
    pub data: Vec<u8>,
}

// Data that are in one extent.
fn in_one(alloc: Global, format: Format, offset: u64, bytes: Vec<u8>) -> Result<Located, AllocError>
    ensures { IfOk result (λ l. located_view l ≡ in_one format offset bytes.items) }
{
    let mut extents = Vec::with_capacity(alloc, 1)?;
    extents.push(Extent {
        offset,
        len: bytes.len() as u64,
    })?;
    Ok(Located {
        format,
        extents,
        data: bytes,
    })
}

// The data of a TIFF file.
fn tiff_located<R: Source>(alloc: Global, source: &mut R) -> Result<Located, Error>
    ensures gives { IfSome (R.left source.old)
        (λ bytes. Gives located_view result (located_as (Some Tiff) bytes)) }
    ensures named { IfErr result (IsNamed container_refusals) }
    ensures counts { Counts R.Source source.old source.new (is_io result) }
{
    let data = read_all(alloc, source)?;
    Ok(in_one(alloc, Format::Tiff, 0, data)?)
}

// The data of a JPEG stream.
fn jpeg_located<R: Source>(alloc: Global, source: &mut R) -> Result<Located, Error>
    ensures gives { IfSome (R.left source.old)
        (λ bytes. Gives located_view result (located_as (Some Jpeg) bytes)) }
    ensures named { IfErr result (IsNamed container_refusals) }
    ensures counts { Counts R.Source source.old source.new (is_io result) }
{
    let (data, offset) = jpeg::locate(alloc, source)?;
    Ok(in_one(alloc, Format::Jpeg, offset, data)?)
}

// The data of a WebP file.
fn webp_located<R: Source>(alloc: Global, source: &mut R) -> Result<Located, Error>
    ensures gives { IfSome (R.left source.old)
        (λ bytes. Gives located_view result (located_as (Some WebP) bytes)) }
    ensures named { IfErr result (IsNamed container_refusals) }
    ensures counts { Counts R.Source source.old source.new (is_io result) }
{
    let (data, offset) = webp::locate(alloc, source)?;
    Ok(in_one(alloc, Format::WebP, offset, data)?)
}

// The data of a HEIF file.
fn heif_located<R: Source>(alloc: Global, source: &mut R) -> Result<Located, Error>
    ensures gives { IfSome (R.left source.old)
        (λ bytes. Gives located_view result (located_as (Some Heif) bytes)) }
    ensures named { IfErr result (IsNamed container_refusals) }
    ensures counts { Counts R.Source source.old source.new (is_io result) }
{
    let found = isobmff::locate(alloc, source)?;
    Ok(Located {
        format: Format::Heif,
        extents: found.ranges,
        data: found.bytes,
    })
}

// The data of this container, or the refusal of bytes that begin none.
#[tactic(auto, unfolding(crate::specs::Located::located_as))]
fn located_as<R: Source>(
    alloc: Global,
    format: Option<Format>,
    source: &mut R,
) -> Result<Located, Error>
    ensures gives { IfSome (R.left source.old)
        (λ bytes. Gives located_view result (located_as format bytes)) }
    ensures named { IfErr result (IsNamed container_refusals) }
    ensures counts { Counts R.Source source.old source.new (is_io result) }
{
    match format {
        Some(Format::Tiff) => tiff_located(alloc, source),
        Some(Format::Jpeg) => jpeg_located(alloc, source),
        Some(Format::Heif) => heif_located(alloc, source),
        Some(Format::WebP) => webp_located(alloc, source),
        None => Err(Error::InvalidFormat("Unknown image format")),
    }
}

// The data of a stream that is read through this block.
fn located_through<R: Source>(
    alloc: Global,
    source: &mut R,
    block: &mut [u8],
) -> Result<Located, Error>
    requires { SNIFF_LEN ≤ length block.now }
    ensures gives { IfSome (R.left source.old)
        (λ bytes. Gives located_view result (located_answer bytes)) }
    ensures named { IfErr result (IsNamed container_refusals) }
    ensures counts { Counts R.Source source.old source.new (is_io result) }
{
    let filled = read_signature(source, block)?;
    let format = format_of(&block[..filled]);
    let mut blocks = Blocks::new(block, filled, source);
    let found = located_as(alloc, format, &mut blocks)?;
    Ok(found)
}

/// The Exif data of a stream, its container, and where in the stream the data are: the bytes at the
/// extents, joined, are the data.
///
/// The data and the refusals are those of [`exif_attr_of_stream`](crate::exif_attr_of_stream). A
/// HEIF file is held in memory; of the others it takes the memory of the data. How far the source
/// was read is left open.
pub fn find_exif<R: Source>(alloc: Global, source: &mut R) -> Result<Located, Error>
    ensures gives { IfSome (R.left source.old)
        (λ bytes. Gives located_view result (located_answer bytes)) }
    ensures named { IfErr result (IsNamed container_refusals) }
    ensures counts { Counts R.Source source.old source.new (is_io result) }
{
    if source.is_at_hand() {
        return located_through(alloc, source, &mut [0; SNIFF_LEN]);
    }
    located_through(alloc, source, &mut [0; BLOCK])
}

//! The Exif data of a stream, whatever container it is.

ghost use Rattle.std.specs.Prelude.{◌≡◌, ◌<◌, ◌≤◌, length, min, take, is_err, IfOk, IfErr, IfSome};
ghost use Rattle.std.specs.Io.KnownBytes.{Consumes, IsAtEnd};
ghost use Rattle.exif_base.specs.Reads.{Counts};
ghost use Rattle.exif_types.specs.Refusals.{Gives, is_io};
ghost use Rattle.exif_segments.specs.Answer.{IsNamed};
ghost use Rattle.exif_containers.specs.GoingBack.{BeginsAt};
ghost use Rattle.exif_containers.specs.Container.{answer_as, begins_tiff, container_answer, container_refusals, format_in};

use crate::isobmff::{self, is_heif};
use exif_base::{Blocks, Source, read_front};
use exif_segments::jpeg::{self, is_jpeg};
use exif_segments::util::read_all;
use exif_segments::webp::{self, is_webp};
use exif_types::Error;
use std::alloc::Global;
use std::io;

// How TIFF data begin in each byte order (TIFF 6.0, section 2).
const TIFF_BE_SIG: [u8; 4] = [0x4d, 0x4d, 0x00, 0x2a];

const TIFF_LE_SIG: [u8; 4] = [0x49, 0x49, 0x2a, 0x00];

/// How many bytes choose the container.
pub const SNIFF_LEN: usize = 4096;

/// How many bytes are read at a time behind them.
pub const BLOCK: usize = 8192;

/// A container of Exif data.
#[derive(Clone, Copy, Debug, PartialEq, Eq)]
pub enum Format {
    /// TIFF data, which are the Exif data.
    Tiff,
    /// A JPEG stream.
    Jpeg,
    /// A HEIF file.
    Heif,
    /// A WebP file.
    WebP,
}

/// Whether the bytes begin as TIFF data do, in either byte order.
pub fn is_tiff(bytes: &[u8]) -> bool
    ensures { result ≡ begins_tiff bytes.now }
{
    bytes.len() >= 4 && (bytes[..4] == TIFF_BE_SIG[..] || bytes[..4] == TIFF_LE_SIG[..])
}

/// The container that begins with these bytes.
#[tactic(auto, unfolding(crate::specs::Container::format_in))]
pub fn format_of(signature: &[u8]) -> Option<Format>
    ensures { result ≡ format_in signature.now }
{
    if is_tiff(signature) {
        Some(Format::Tiff)
    } else if is_jpeg(signature) {
        Some(Format::Jpeg)
    } else if is_heif(signature) {
        Some(Format::Heif)
    } else if is_webp(signature) {
        Some(Format::WebP)
    } else {
        None
    }
}

/// The Exif data of a stream whose signature is that of this container, or the refusal of bytes
/// that begin none. The first byte is at this offset; with none, the stream is read in order.
#[tactic(auto, unfolding(crate::specs::Container::answer_as))]
pub fn exif_attr_as<R: Source>(
    alloc: Global,
    format: Option<Format>,
    source: &mut R,
    origin: Option<u64>,
) -> Result<Vec<u8>, Error>
    ensures gives { IfSome (R.left source.old) (λ bytes.
        BeginsAt origin (R.stream source.old) (R.left source.old)
        → Gives (λ v. v.items) result (answer_as format bytes)) }
    ensures named { IfErr result (IsNamed container_refusals) }
    ensures counts { Counts R.Source source.old source.new (is_io result) }
{
    match format {
        Some(Format::Tiff) => read_all(alloc, source),
        Some(Format::Jpeg) => jpeg::get_exif_attr(alloc, source),
        Some(Format::Heif) => isobmff::exif_from(alloc, source, origin),
        Some(Format::WebP) => webp::get_exif_attr(alloc, source),
        None => Err(Error::InvalidFormat("Unknown image format")),
    }
}

/// Reads the first [`SNIFF_LEN`] bytes of the stream, or all if there are fewer, into the front of
/// the block, and answers how many.
pub fn read_signature<R: Source>(source: &mut R, block: &mut [u8]) -> io::Result<usize>
    ensures taken { IfOk result
        (λ n. Consumes (R.left source.old) (R.left source.new) (take n block.new)) }
    ensures bound { IfOk result (λ n. n ≤ length block.new) }
    ensures len { length block.new ≡ length block.old }
    ensures end { IfOk result
        (λ n. n < min SNIFF_LEN (length block.new) → IsAtEnd (R.left source.new)) }
    ensures most { IfOk result (λ n. n ≤ SNIFF_LEN) }
    ensures stream { R.stream source.new ≡ R.stream source.old }
    ensures counts { Counts R.Source source.old source.new (is_err result) }
{
    let space = SNIFF_LEN.min(block.len());
    read_front(source, &mut block[..space])
}

// The Exif data of a stream that is read through this block.
fn attr_through<R: Source>(
    alloc: Global,
    source: &mut R,
    origin: Option<u64>,
    block: &mut [u8],
) -> Result<Vec<u8>, Error>
    requires { SNIFF_LEN ≤ length block.now }
    ensures gives { IfSome (R.left source.old) (λ bytes.
        BeginsAt origin (R.stream source.old) (R.left source.old)
        → Gives (λ v. v.items) result (container_answer bytes)) }
    ensures named { IfErr result (IsNamed container_refusals) }
    ensures counts { Counts R.Source source.old source.new (is_io result) }
{
    let filled = read_signature(source, block)?;
    let format = format_of(&block[..filled]);
    let mut blocks = Blocks::new(block, filled, source);
    let payload = exif_attr_as(alloc, format, &mut blocks, origin)?;
    Ok(payload)
}

/// The Exif data of a stream, as [`exif_attr_of_stream`] has it, whose first byte is at this
/// offset. With none, the stream is read in order.
pub fn exif_attr_from<R: Source>(
    alloc: Global,
    source: &mut R,
    origin: Option<u64>,
) -> Result<Vec<u8>, Error>
    ensures gives { IfSome (R.left source.old) (λ bytes.
        BeginsAt origin (R.stream source.old) (R.left source.old)
        → Gives (λ v. v.items) result (container_answer bytes)) }
    ensures named { IfErr result (IsNamed container_refusals) }
    ensures counts { Counts R.Source source.old source.new (is_io result) }
{
    if source.is_at_hand() {
        return attr_through(alloc, source, origin, &mut [0; SNIFF_LEN]);
    }
    attr_through(alloc, source, origin, &mut [0; BLOCK])
}

/// The Exif data of a stream: all bytes of TIFF data, or what a JPEG stream, a HEIF file or a
/// WebP file holds. The first 4096 bytes choose, or all if there are fewer, whatever the source's
/// cuts.
///
/// Refusals are those of the containers, and `Unknown image format`. How far the source was read
/// is left open.
pub fn exif_attr_of_stream<R: Source>(alloc: Global, source: &mut R) -> Result<Vec<u8>, Error>
    ensures gives { IfSome (R.left source.old)
        (λ bytes. Gives (λ v. v.items) result (container_answer bytes)) }
    ensures named { IfErr result (IsNamed container_refusals) }
    ensures counts { Counts R.Source source.old source.new (is_io result) }
{
    let origin = source.offset();
    let payload = exif_attr_from(alloc, source, origin)?;
    Ok(payload)
}

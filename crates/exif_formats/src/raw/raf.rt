//! The Exif data of a RAF file of Fujifilm: those of the JPEG stream in it.
//!
//! There is no public standard of RAF. These are the fields of its header that are read: the first
//! 16 bytes are the signature, and the four bytes at 84 are the offset of the JPEG stream from the
//! start of the file, the highest first.

ghost use Rattle.std.specs.Prelude.{◌≡◌, ◌≢◌, ◌<◌, ◌≤◌, ◌^◌, ◌++◌, List, ℕ, length, drop, IfOk, IfErr, IfSome, Err};
ghost use Rattle.exif_base.specs.Reads.{Counts};
ghost use Rattle.exif_base.specs.Told.{WhereTold};
ghost use Rattle.exif_types.specs.Refusals.{Fails, is_io};
ghost use Rattle.exif_types.specs.declared.error.Error.TheVariants.{OutOfMemory};
ghost use Rattle.exif_segments.specs.Answer.{IsCollected, IsNamed, found};
ghost use Rattle.exif_segments.specs.Jpeg.{broken_jpeg};
ghost use Rattle.exif_formats.specs.Raf.{begins_raf, jpeg_offset, behind_limit, raf_answer, raf_refusals, stream_answer};

use exif_base::{BigEndian, Endian, Source};
use exif_segments::jpeg;
use exif_segments::util::{fill, skip};
use exif_types::Error;
use std::alloc::Global;

// How many bytes the header has, as far as it is read.
const HEADER_LEN: u64 = 92;

// What the end of the bytes is called.
const BROKEN: &str = "Broken RAF file";

/// Whether the bytes begin as a RAF file does.
pub fn is_raf(bytes: &[u8]) -> bool
    ensures { result ≡ begins_raf bytes.now }
{
    bytes.len() >= 16 && bytes[..16] == b"FUJIFILMCCD-RAW "[..]
}

// The offset of the JPEG stream, as the header of a file says.
fn offset_of_jpeg<R: Source>(source: &mut R) -> Result<u64, Error>
    ensures offset { IfOk result (λ offset. WhereTold (R.left source.old) (R.left source.new)
        (λ xs ys. (raf_answer xs ≡ stream_answer offset xs) × (jpeg_offset xs ≡ offset)
        × (92 ≤ length xs) × (ys ≡ drop 92 xs))) }
    ensures least { IfOk result (λ offset. 92 ≤ offset) }
    ensures small { IfOk result (λ offset. offset < 2 ^ 32) }
    ensures refused { IfErr result
        (λ e. IfSome (R.left source.old) (λ xs. Fails e (raf_answer xs))) }
    ensures named { IfErr result (IsNamed raf_refusals) }
    ensures no_memory { result ≢ Err OutOfMemory }
    ensures counts { Counts R.Source source.old source.new (is_io result) }
{
    let mut header = [0u8; 92];
    fill(source, &mut header, BROKEN)?;
    if !is_raf(&header) {
        return Err(Error::InvalidFormat("Not a RAF file"));
    }
    let offset = BigEndian::loadu32(&header, 84);
    if offset < 92 {
        return Err(Error::InvalidFormat("Invalid JPEG offset"));
    }
    Ok(u64::from(offset))
}

/// The Exif bytes of the JPEG stream of a RAF file. What follows their segment is left in the
/// source.
///
/// Refusals, in this order: `Broken RAF file` where the bytes end within the header of 92 bytes,
/// `Not a RAF file`, `Invalid JPEG offset` where the stream would begin in the header, `Broken RAF
/// file` where the bytes end before the stream, and then those of
/// [`jpeg::get_exif_attr`](exif_segments::jpeg::get_exif_attr) for the stream. What is skipped
/// takes no memory: `OutOfMemory` comes only where a payload is collected. After an error, how far
/// the source was read is left open.
pub fn get_exif_attr<R: Source>(alloc: Global, source: &mut R) -> Result<Vec<u8>, Error>
    ensures found { IfOk result (λ v. WhereTold (R.left source.old) (R.left source.new)
        (λ xs ys. (rest : List ℕ) × (raf_answer xs ≡ found v.items rest)
        × (ys ≡ rest ++ behind_limit xs))) }
    ensures refused { IfErr result
        (λ e. IfSome (R.left source.old) (λ xs. Fails e (raf_answer xs))) }
    ensures named { IfErr result (IsNamed raf_refusals) }
    ensures memory { IfErr result (λ e. e ≡ OutOfMemory → IfSome (R.left source.old)
        (λ xs. IsCollected broken_jpeg (raf_answer xs))) }
    ensures counts { Counts R.Source source.old source.new (is_io result) }
{
    let offset = offset_of_jpeg(source)?;
    skip(source, offset - HEADER_LEN, BROKEN)?;
    let payload = jpeg::get_exif_attr(alloc, source)?;
    Ok(payload)
}

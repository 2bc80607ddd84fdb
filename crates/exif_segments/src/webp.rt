//! The Exif chunk of a WebP file (WebP Container Specification, "RIFF File Format", "Metadata").

ghost use Rattle.std.specs.Prelude.{◌≡◌, ◌≢◌, ◌<◌, ◌≤◌, ◌+◌, ◌-◌, ◌^◌, length, take, drop, OnOk, IfOk, IfErr, IfSome, Ok, Err};
ghost use Rattle.byteorder.specs.Endian.{little_number};
ghost use Rattle.exif_base.specs.Reads.{Counts};
ghost use Rattle.exif_base.specs.Told.{WhereTold};
ghost use Rattle.exif_types.specs.Refusals.{Fails, is_io};
ghost use Rattle.exif_types.specs.declared.error.Error.TheVariants.{OutOfMemory};
ghost use Rattle.exif_segments.specs.Answer.{IsCollected, IsNamed, IsShort, found, offset_before};
ghost use Rattle.exif_segments.specs.Webp.{begins_webp, body_answer, broken_webp, chunk_at, chunk_body, padded, webp_answer, webp_refusals};
ghost use Rattle.exif_segments.specs.WebpSteps.{IsPayload, LeavesAtMost, chunk_of};

use crate::util::{collect, fill, skip};
use exif_base::{Endian, LittleEndian, Source};
use exif_types::Error;
use std::alloc::Global;

// A chunk that was passed: the payload of the one named `EXIF`, or the space behind another.
#[derive(Drop)]
enum Step {
    Exif(Vec<u8>),
    Other(u64),
}

// What the end of the bytes is called.
const BROKEN: &str = "Broken WebP file";

/// How many bytes a payload takes, its pad byte among them: there is none at the end of the body.
pub fn padded_len(size: u64, space: u64) -> u64
    requires { size ≤ space }
    ensures value { result ≡ padded size space }
    ensures fits { result ≤ space }
    ensures least { size ≤ result }
{
    if size % 2 == 1 && size < space {
        size + 1
    } else {
        size
    }
}

// What follows the header of a chunk.
fn body<R: Source>(
    alloc: Global,
    source: &mut R,
    name: [u8; 4],
    size: u64,
    space: u64,
) -> Result<Step, Error>
    ensures chunk { IfOk result (λ step. WhereTold (R.left source.old) (R.left source.new)
        (λ xs ys. chunk_body name size space xs ≡ Ok (chunk_of step ys))) }
    ensures refused { IfErr result
        (λ e. IfSome (R.left source.old) (λ xs. Fails e (chunk_body name size space xs))) }
    ensures named { IfErr result (IsNamed webp_refusals) }
    ensures memory { IfErr result (λ e. e ≡ OutOfMemory → IfSome (R.left source.old)
        (λ xs. IsPayload (chunk_body name size space xs))) }
    ensures fewer { IfOk result (LeavesAtMost space) }
    ensures counts { Counts R.Source source.old source.new (is_io result) }
{
    if size > space {
        return Err(Error::InvalidFormat("Chunk overflowing parent"));
    }
    if name == *b"EXIF" {
        let payload = collect(alloc, source, size, BROKEN)?;
        return Ok(Step::Exif(payload));
    }
    let taken = padded_len(size, space);
    skip(source, taken, BROKEN)?;
    Ok(Step::Other(space - taken))
}

// The name and the size of a chunk.
fn header<R: Source>(source: &mut R) -> Result<([u8; 4], u64), Error>
    ensures taken { IfOk result (λ h. WhereTold (R.left source.old) (R.left source.new)
        (λ xs ys. (h.0 ≡ take 4 xs) × (h.1 ≡ little_number 4 (drop 4 xs))
        × (8 ≤ length xs) × (ys ≡ drop 8 xs))) }
    ensures short { IfErr result
        (λ e. IsShort broken_webp e (R.left source.old) (λ xs. length xs < 8)) }
    ensures no_memory { result ≢ Err OutOfMemory }
    ensures counts { Counts R.Source source.old source.new (is_io result) }
{
    let mut bytes = [0u8; 8];
    fill(source, &mut bytes, BROKEN)?;
    let name = [bytes[0], bytes[1], bytes[2], bytes[3]];
    let size = u32::from_le_bytes([bytes[4], bytes[5], bytes[6], bytes[7]]);
    Ok((name, u64::from(size)))
}

/// Whether the bytes begin as a WebP file does.
pub fn is_webp(bytes: &[u8]) -> bool
    ensures { result ≡ begins_webp bytes.now }
{
    bytes.len() >= 12 && bytes[..4] == b"RIFF"[..] && bytes[8..12] == b"WEBP"[..]
}

// The space behind the header of a file.
fn space_of_body<R: Source>(source: &mut R) -> Result<u64, Error>
    ensures space { IfOk result (λ space. WhereTold (R.left source.old) (R.left source.new)
        (λ xs ys. webp_answer xs ≡ body_answer space ys)) }
    ensures header { OnOk result (WhereTold (R.left source.old) (R.left source.new)
        (λ xs ys. length xs ≡ 12 + length ys)) }
    ensures small { IfOk result (λ space. space < 2 ^ 32) }
    ensures refused { IfErr result
        (λ e. IfSome (R.left source.old) (λ xs. Fails e (webp_answer xs))) }
    ensures named { IfErr result (IsNamed webp_refusals) }
    ensures no_memory { result ≢ Err OutOfMemory }
    ensures counts { Counts R.Source source.old source.new (is_io result) }
{
    let mut bytes = [0u8; 12];
    fill(source, &mut bytes, BROKEN)?;
    if !is_webp(&bytes) {
        return Err(Error::InvalidFormat("Not a WebP file"));
    }
    let size = LittleEndian::loadu32(&bytes, 4);
    if size < 4 {
        return Err(Error::InvalidFormat("Invalid header file size"));
    }
    Ok(u64::from(size - 4))
}

// The next chunk of a body with so much space left.
fn next_chunk<R: Source>(alloc: Global, source: &mut R, space: u64) -> Result<Step, Error>
    requires { 0 < space }
    ensures chunk { IfOk result (λ step. WhereTold (R.left source.old) (R.left source.new)
        (λ xs ys. chunk_at space xs ≡ Ok (chunk_of step ys))) }
    ensures refused { IfErr result
        (λ e. IfSome (R.left source.old) (λ xs. Fails e (chunk_at space xs))) }
    ensures named { IfErr result (IsNamed webp_refusals) }
    ensures memory { IfErr result (λ e. e ≡ OutOfMemory → IfSome (R.left source.old)
        (λ xs. IsPayload (chunk_at space xs))) }
    ensures fewer { IfOk result (LeavesAtMost (space - 8)) }
    ensures space { OnOk result (8 ≤ space) }
    ensures counts { Counts R.Source source.old source.new (is_io result) }
{
    if space < 8 {
        return Err(Error::InvalidFormat("Chunk overflowing parent"));
    }
    let (name, size) = header(source)?;
    body(alloc, source, name, size, space - 8)
}

/// The payload of the first chunk named `EXIF`, and its offset in the file.
///
/// The answers are those of [`get_exif_attr`].
pub fn locate<R: Source>(alloc: Global, source: &mut R) -> Result<(Vec<u8>, u64), Error>
    ensures found { IfOk result (λ v. WhereTold (R.left source.old) (R.left source.new)
        (λ xs ys. (webp_answer xs ≡ found v.0.items ys)
        × (v.1 ≡ offset_before xs v.0.items ys))) }
    ensures refused { IfErr result
        (λ e. IfSome (R.left source.old) (λ xs. Fails e (webp_answer xs))) }
    ensures named { IfErr result (IsNamed webp_refusals) }
    ensures memory { IfErr result (λ e. e ≡ OutOfMemory → IfSome (R.left source.old)
        (λ xs. IsCollected broken_webp (webp_answer xs))) }
    ensures counts { Counts R.Source source.old source.new (is_io result) }
{
    let body = space_of_body(source)?;
    let mut space = body;
    while space > 0 {
        match next_chunk(alloc, source, space)? {
            Step::Exif(payload) => return Ok((payload, body - space + 20)),
            Step::Other(rest) => space = rest,
        }
    }
    Err(Error::NotFound("WebP"))
}

/// The payload of the first chunk named `EXIF`. What follows it is left in the source.
///
/// Refusals: `Not a WebP file`, `Invalid header file size`, `Chunk overflowing parent`, NotFound
/// `WebP` where the file's body is used up, and `Broken WebP file` where the bytes end before. What
/// is skipped takes no memory: `OutOfMemory` comes only where a payload is collected. After an
/// error, how far the source was read is left open.
pub fn get_exif_attr<R: Source>(alloc: Global, source: &mut R) -> Result<Vec<u8>, Error>
    ensures found { IfOk result (λ v. WhereTold (R.left source.old) (R.left source.new)
        (λ xs ys. webp_answer xs ≡ found v.items ys)) }
    ensures refused { IfErr result
        (λ e. IfSome (R.left source.old) (λ xs. Fails e (webp_answer xs))) }
    ensures named { IfErr result (IsNamed webp_refusals) }
    ensures memory { IfErr result (λ e. e ≡ OutOfMemory → IfSome (R.left source.old)
        (λ xs. IsCollected broken_webp (webp_answer xs))) }
    ensures counts { Counts R.Source source.old source.new (is_io result) }
{
    let (payload, _offset) = locate(alloc, source)?;
    Ok(payload)
}

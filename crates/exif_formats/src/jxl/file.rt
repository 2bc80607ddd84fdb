//! A JPEG XL file: its signature, and then its boxes.

ghost use Rattle.std.specs.Prelude.{◌≡◌, ◌≢◌, IfOk, OnOk, IfErr, IfSome, Err};
ghost use Rattle.exif_base.specs.Reads.{Counts};
ghost use Rattle.exif_base.specs.Told.{WhereTold};
ghost use Rattle.exif_types.specs.Refusals.{Fails, is_io};
ghost use Rattle.exif_types.specs.declared.error.Error.TheVariants.{OutOfMemory};
ghost use Rattle.exif_segments.specs.Answer.{IsCollected, IsNamed, found};
ghost use Rattle.exif_formats.specs.Jxl.{begins_codestream, begins_jxl, boxes_answer, broken_jxl, jxl_answer, jxl_refusals, max_boxes};

use crate::jxl::bodies::BROKEN;
use crate::jxl::boxes::next_box;
use exif_base::{Source, read_front};
use exif_types::Error;
use std::alloc::Global;

// The first box of a file in its container.
const SIGNATURE: [u8; 12] = [0, 0, 0, 12, b'J', b'X', b'L', b' ', 0x0d, 0x0a, 0x87, 0x0a];

/// Whether the bytes begin as a JPEG XL file in its container does.
pub fn is_jxl(bytes: &[u8]) -> bool
    ensures { result ≡ begins_jxl bytes.now }
{
    bytes.len() >= 12 && bytes[..12] == SIGNATURE[..]
}

/// Whether the bytes begin as a naked JPEG XL codestream does, which has no metadata.
pub fn is_codestream(bytes: &[u8]) -> bool
    ensures { result ≡ begins_codestream bytes.now }
{
    bytes.len() >= 2 && bytes[0] == 0xff && bytes[1] == 0x0a
}

// Reads the signature of a file in its container.
fn begin<R: Source>(source: &mut R) -> Result<(), Error>
    ensures begun { OnOk result (WhereTold (R.left source.old) (R.left source.new)
        (λ xs ys. jxl_answer xs ≡ boxes_answer max_boxes ys)) }
    ensures refused { IfErr result
        (λ e. IfSome (R.left source.old) (λ xs. Fails e (jxl_answer xs))) }
    ensures named { IfErr result (IsNamed jxl_refusals) }
    ensures no_memory { result ≢ Err OutOfMemory }
    ensures counts { Counts R.Source source.old source.new (is_io result) }
{
    let mut bytes = [0u8; 12];
    let n = read_front(source, &mut bytes)?;
    if is_codestream(&bytes[..n]) {
        return Err(Error::NotFound("JPEG XL"));
    }
    if n < 12 {
        return Err(Error::InvalidFormat(BROKEN));
    }
    if !is_jxl(&bytes) {
        return Err(Error::InvalidFormat("Not a JPEG XL file"));
    }
    Ok(())
}

/// The TIFF data of the first box `Exif`. What follows it is left in the source.
///
/// Refusals: `Not a JPEG XL file`; `Broken JPEG XL file` where the bytes end in a box, or those of
/// `Exif` before its TIFF data; `Invalid box size` where a box is shorter than its header;
/// NotSupported `Compressed Exif data` where a box `brob` with Exif data comes first; NotFound
/// `JPEG XL` where no box holds Exif data, as in a naked codestream. What is skipped takes no
/// memory: `OutOfMemory` comes only where the data are collected. After an error, how far the
/// source was read is left open.
pub fn get_exif_attr_from_jxl<R: Source>(alloc: Global, source: &mut R) -> Result<Vec<u8>, Error>
    ensures found { IfOk result (λ v. WhereTold (R.left source.old) (R.left source.new)
        (λ xs ys. jxl_answer xs ≡ found v.items ys)) }
    ensures refused { IfErr result
        (λ e. IfSome (R.left source.old) (λ xs. Fails e (jxl_answer xs))) }
    ensures named { IfErr result (IsNamed jxl_refusals) }
    ensures memory { IfErr result (λ e. e ≡ OutOfMemory → IfSome (R.left source.old)
        (λ xs. IsCollected broken_jxl (jxl_answer xs))) }
    ensures counts { Counts R.Source source.old source.new (is_io result) }
{
    begin(source)?;
    let mut left = u64::MAX;
    while left > 0 {
        if let Some(tiff) = next_box(alloc, source)? {
            return Ok(tiff);
        }
        left -= 1;
    }
    Err(Error::InvalidFormat(BROKEN))
}

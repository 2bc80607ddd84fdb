//! The boxes of a container: four bytes of size, four of type, and a body.

ghost use Rattle.std.specs.Prelude.{◌≡◌, ◌≢◌, [], IfOk, IfErr, IfSome, Ok, Err};
ghost use Rattle.std.specs.Option.{option_map};
ghost use Rattle.exif_base.specs.Reads.{Counts};
ghost use Rattle.exif_base.specs.Told.{WhereTold};
ghost use Rattle.exif_types.specs.Refusals.{Fails, is_io};
ghost use Rattle.exif_types.specs.declared.error.Error.TheVariants.{OutOfMemory};
ghost use Rattle.exif_segments.specs.Answer.{IsNamed};
ghost use Rattle.exif_formats.specs.Jxl.{box_at, exif, jxl_refusals, last_of, named_box, whole_box};
ghost use Rattle.exif_formats.specs.JxlSteps.{IsCollected, box_behind, box_of};

use crate::headers::{FileHeader, header_in, read_header};
use crate::jxl::bodies::{BROKEN, brotli_body, exif_body, last_brotli, last_exif};
use exif_base::Source;
use exif_segments::util::skip;
use exif_types::Error;
use std::alloc::Global;

// The body of a box that has so many bytes: the TIFF data of `Exif`; another is skipped.
fn whole_body<R: Source>(
    alloc: Global,
    source: &mut R,
    name: [u8; 4],
    len: u64,
) -> Result<Option<Vec<u8>>, Error>
    ensures next { IfOk result (λ tiff. WhereTold (R.left source.old) (R.left source.new)
        (λ xs ys. whole_box name len xs ≡ Ok (box_of (option_map (λ v. v.items) tiff) ys))) }
    ensures refused { IfErr result
        (λ e. IfSome (R.left source.old) (λ xs. Fails e (whole_box name len xs))) }
    ensures named { IfErr result (IsNamed jxl_refusals) }
    ensures memory { IfErr result (λ e. e ≡ OutOfMemory → IfSome (R.left source.old)
        (λ xs. IsCollected (whole_box name len xs))) }
    ensures counts { Counts R.Source source.old source.new (is_io result) }
{
    if name == *b"Exif" {
        let tiff = exif_body(alloc, source, len)?;
        return Ok(Some(tiff));
    }
    if name == *b"brob" {
        let _skipped = brotli_body(source, len)?;
        return Ok(None);
    }
    skip(source, len, BROKEN)?;
    Ok(None)
}

// The body of a box that goes to the end: the TIFF data of `Exif`.
fn last_body<R: Source>(alloc: Global, source: &mut R, name: [u8; 4]) -> Result<Vec<u8>, Error>
    ensures found { IfOk result (λ v. WhereTold (R.left source.old) (R.left source.new)
        (λ xs ys. last_of (named_box name xs []) ≡ Ok (exif v.items ys))) }
    ensures refused { IfErr result
        (λ e. IfSome (R.left source.old) (λ xs. Fails e (last_of (named_box name xs [])))) }
    ensures named { IfErr result (IsNamed jxl_refusals) }
    ensures memory { IfErr result (λ e. e ≡ OutOfMemory → IfSome (R.left source.old)
        (λ xs. IsCollected (last_of (named_box name xs [])))) }
    ensures counts { Counts R.Source source.old source.new (is_io result) }
{
    if name == *b"Exif" {
        let tiff = last_exif(alloc, source)?;
        return Ok(tiff);
    }
    if name == *b"brob" {
        let _skipped = last_brotli(source)?;
        return Err(Error::NotFound("JPEG XL"));
    }
    Err(Error::NotFound("JPEG XL"))
}

// The header of the next box.
fn next_header<R: Source>(source: &mut R) -> Result<FileHeader, Error>
    ensures taken { IfOk result (λ h. WhereTold (R.left source.old) (R.left source.new)
        (λ xs ys. box_at xs ≡ box_behind h.name h.len ys)) }
    ensures refused { IfErr result
        (λ e. IfSome (R.left source.old) (λ xs. Fails e (box_at xs))) }
    ensures named { IfErr result (IsNamed jxl_refusals) }
    ensures no_memory { result ≢ Err OutOfMemory }
    ensures counts { Counts R.Source source.old source.new (is_io result) }
{
    let mut buf = [0u8; 16];
    let n = read_header(source, &mut buf, BROKEN)?;
    if n == 0 {
        return Err(Error::NotFound("JPEG XL"));
    }
    let header = header_in(&buf[..n], "Invalid box size")?;
    Ok(header)
}

// What follows the header of a box: so many bytes of it, or all.
fn body<R: Source>(
    alloc: Global,
    source: &mut R,
    header: FileHeader,
) -> Result<Option<Vec<u8>>, Error>
    ensures next { IfOk result (λ tiff. WhereTold (R.left source.old) (R.left source.new)
        (λ xs ys. box_behind header.name header.len xs
        ≡ Ok (box_of (option_map (λ v. v.items) tiff) ys))) }
    ensures refused { IfErr result (λ e. IfSome (R.left source.old)
        (λ xs. Fails e (box_behind header.name header.len xs))) }
    ensures named { IfErr result (IsNamed jxl_refusals) }
    ensures memory { IfErr result (λ e. e ≡ OutOfMemory → IfSome (R.left source.old)
        (λ xs. IsCollected (box_behind header.name header.len xs))) }
    ensures counts { Counts R.Source source.old source.new (is_io result) }
{
    let Some(len) = header.len else {
        let tiff = last_body(alloc, source, header.name)?;
        return Ok(Some(tiff));
    };
    let tiff = whole_body(alloc, source, header.name, len)?;
    Ok(tiff)
}

/// The next box: the TIFF data of `Exif`; another is skipped.
pub fn next_box<R: Source>(alloc: Global, source: &mut R) -> Result<Option<Vec<u8>>, Error>
    ensures next { IfOk result (λ tiff. WhereTold (R.left source.old) (R.left source.new)
        (λ xs ys. box_at xs ≡ Ok (box_of (option_map (λ v. v.items) tiff) ys))) }
    ensures refused { IfErr result
        (λ e. IfSome (R.left source.old) (λ xs. Fails e (box_at xs))) }
    ensures named { IfErr result (IsNamed jxl_refusals) }
    ensures memory { IfErr result (λ e. e ≡ OutOfMemory → IfSome (R.left source.old)
        (λ xs. IsCollected (box_at xs))) }
    ensures counts { Counts R.Source source.old source.new (is_io result) }
{
    let header = next_header(source)?;
    let tiff = body(alloc, source, header)?;
    Ok(tiff)
}

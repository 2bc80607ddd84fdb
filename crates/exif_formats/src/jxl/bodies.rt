//! The bodies of boxes: `Exif`, and `brob`, which holds another box compressed.

ghost use Rattle.std.specs.Prelude.{◌≡◌, ◌≢◌, ◌<◌, ◌^◌, [], length, IfOk, OnOk, IfErr, IfSome, Ok, Err};
ghost use Rattle.byteorder.specs.Endian.{ReadsNumber, big_number};
ghost use Rattle.exif_base.specs.Reads.{Counts};
ghost use Rattle.exif_base.specs.Told.{WhereTold};
ghost use Rattle.exif_types.specs.Refusals.{Fails, IsInterrupted, is_io};
ghost use Rattle.exif_types.specs.declared.error.Error.TheVariants.{OutOfMemory};
ghost use Rattle.exif_segments.specs.Answer.{IsNamed, IsShort};
ghost use Rattle.exif_formats.specs.Jxl.{broken_jxl, brotli_box, exif, exif_box, jxl_refusals, other};
ghost use Rattle.exif_formats.specs.JxlSteps.{whole_brotli, whole_exif};

use exif_base::{BigEndian, Endian, Source};
use exif_segments::util::{collect, fill, read_at_most, skip};
use exif_types::Error;
use std::alloc::Global;

/// What the end of the bytes is called.
pub const BROKEN: &str = "Broken JPEG XL file";

// The offset of the TIFF data of `Exif`.
fn tiff_offset<R: Source>(source: &mut R) -> Result<u64, Error>
    ensures taken { IfOk result
        (ReadsNumber big_number 4 (R.left source.old) (R.left source.new)) }
    ensures small { IfOk result (λ n. n < 2 ^ 32) }
    ensures short { IfErr result
        (λ e. IsShort broken_jxl e (R.left source.old) (λ xs. length xs < 4)) }
    ensures no_memory { result ≢ Err OutOfMemory }
    ensures counts { Counts R.Source source.old source.new (is_io result) }
{
    let mut bytes = [0u8; 4];
    fill(source, &mut bytes, BROKEN)?;
    let offset = BigEndian::loadu32(&bytes, 0);
    Ok(u64::from(offset))
}

/// The TIFF data of `Exif`, whose body has so many bytes.
pub fn exif_body<R: Source>(alloc: Global, source: &mut R, len: u64) -> Result<Vec<u8>, Error>
    ensures found { IfOk result (λ v. WhereTold (R.left source.old) (R.left source.new)
        (λ xs ys. whole_exif len xs ≡ Ok (exif v.items ys))) }
    ensures refused { IfErr result
        (λ e. IfSome (R.left source.old) (λ xs. Fails e (whole_exif len xs))) }
    ensures named { IfErr result (IsNamed jxl_refusals) }
    ensures counts { Counts R.Source source.old source.new (is_io result) }
{
    if len < 4 {
        return Err(Error::InvalidFormat(BROKEN));
    }
    let offset = tiff_offset(source)?;
    if len - 4 < offset {
        return Err(Error::InvalidFormat(BROKEN));
    }
    skip(source, offset, BROKEN)?;
    let tiff = collect(alloc, source, len - 4 - offset, BROKEN)?;
    Ok(tiff)
}

// All the bytes that are left.
fn rest_of<R: Source>(alloc: Global, source: &mut R) -> Result<Vec<u8>, Error>
    ensures taken { IfOk result (λ v. WhereTold (R.left source.old) (R.left source.new)
        (λ xs ys. (v.items ≡ xs) × (ys ≡ []))) }
    ensures interrupted { IfErr result IsInterrupted }
    ensures counts { Counts R.Source source.old source.new (is_io result) }
{
    let mut bytes = Vec::new(alloc);
    read_at_most(source, &mut bytes, u64::MAX)?;
    Ok(bytes)
}

/// The TIFF data of `Exif`, whose body goes to the end.
pub fn last_exif<R: Source>(alloc: Global, source: &mut R) -> Result<Vec<u8>, Error>
    ensures found { IfOk result (λ v. WhereTold (R.left source.old) (R.left source.new)
        (λ xs ys. exif_box xs [] ≡ Ok (exif v.items ys))) }
    ensures refused { IfErr result
        (λ e. IfSome (R.left source.old) (λ xs. Fails e (exif_box xs []))) }
    ensures named { IfErr result (IsNamed jxl_refusals) }
    ensures counts { Counts R.Source source.old source.new (is_io result) }
{
    let offset = tiff_offset(source)?;
    skip(source, offset, BROKEN)?;
    let tiff = rest_of(alloc, source)?;
    Ok(tiff)
}

/// Skips the body of `brob`, which has so many bytes, unless it holds `Exif`.
pub fn brotli_body<R: Source>(source: &mut R, len: u64) -> Result<(), Error>
    ensures skipped { OnOk result (WhereTold (R.left source.old) (R.left source.new)
        (λ xs ys. whole_brotli len xs ≡ Ok (other ys))) }
    ensures refused { IfErr result
        (λ e. IfSome (R.left source.old) (λ xs. Fails e (whole_brotli len xs))) }
    ensures named { IfErr result (IsNamed jxl_refusals) }
    ensures no_memory { result ≢ Err OutOfMemory }
    ensures counts { Counts R.Source source.old source.new (is_io result) }
{
    if len < 4 {
        return Err(Error::InvalidFormat(BROKEN));
    }
    let mut held = [0u8; 4];
    fill(source, &mut held, BROKEN)?;
    skip(source, len - 4, BROKEN)?;
    if held == *b"Exif" {
        return Err(Error::NotSupported("Compressed Exif data"));
    }
    Ok(())
}

/// Refuses the body of `brob` that goes to the end if it holds `Exif`.
pub fn last_brotli<R: Source>(source: &mut R) -> Result<(), Error>
    ensures skipped { OnOk result (IfSome (R.left source.old)
        (λ xs. brotli_box xs [] ≡ Ok (other []))) }
    ensures refused { IfErr result
        (λ e. IfSome (R.left source.old) (λ xs. Fails e (brotli_box xs []))) }
    ensures named { IfErr result (IsNamed jxl_refusals) }
    ensures no_memory { result ≢ Err OutOfMemory }
    ensures counts { Counts R.Source source.old source.new (is_io result) }
{
    let mut packed = [0u8; 4];
    fill(source, &mut packed, BROKEN)?;
    if packed == *b"Exif" {
        return Err(Error::NotSupported("Compressed Exif data"));
    }
    Ok(())
}

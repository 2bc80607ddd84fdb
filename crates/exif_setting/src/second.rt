//! Files with more than one block of Exif data.

ghost use Rattle.std.specs.Prelude.{◌≡◌, true, false, length, is_some, None, IfOk, IfSome, OnErr};
ghost use Rattle.std.specs.List.{filter};
ghost use Rattle.exif_types.specs.Refusals.{refusal_of};
ghost use Rattle.exif_setting.specs.Second.{found_behind, has_second, is_exif, second_in_jpeg, second_in_webp};

use exif::{Counted, Error};
use exif_base::{Blocks, Source};
use exif_containers::container::Format;
use exif_inventory::{Kind, Part, inventory};
use exif_segments::jpeg::{MARK, SOI, get_exif_attr_from_jpeg};
use std::alloc::{AllocError, Global};

/// Whether a file has a second block of Exif data, which would be lost where it is written again.
pub(crate) fn has_second(alloc: Global, format: Format, file: &[u8]) -> Result<bool, AllocError>
    ensures { IfOk result (λ has. has ≡ has_second format file.now) }
{
    match format {
        Format::Jpeg => second_in_jpeg(alloc, file),
        Format::WebP => second_in_webp(alloc, file),
        Format::Heif | Format::Tiff => Ok(false),
    }
}

// Whether Exif data are found in a JPEG stream, and others behind them.
fn second_in_jpeg(alloc: Global, file: &[u8]) -> Result<bool, AllocError>
    ensures { IfOk result (λ has. has ≡ second_in_jpeg file.now) }
{
    let mut source = Counted::new(file);
    match get_exif_attr_from_jpeg(alloc, &mut source) {
        Ok(_first) => found_behind(alloc, &mut source),
        Err(error) => not_found(error),
    }
}

// Whether Exif data are found in a JPEG stream that goes on with the bytes of a source.
fn found_behind<R: Source>(alloc: Global, source: &mut R) -> Result<bool, AllocError>
    ensures { IfOk result (λ has. IfSome (R.left source.old) (λ rest. has ≡ found_behind rest)) }
{
    let mut signature = [MARK, SOI];
    let mut stream = Blocks::new(&mut signature, 2, source);
    match get_exif_attr_from_jpeg(alloc, &mut stream) {
        Ok(_second) => Ok(true),
        Err(error) => not_found(error),
    }
}

// That nothing is found, where an error is a refusal.
fn not_found(error: Error) -> Result<bool, AllocError>
    ensures none { IfOk result (λ has. has ≡ false) }
    ensures refused { IfOk result (λ has. is_some (refusal_of error.entry) ≡ true) }
    ensures interrupted { OnErr result (refusal_of error.entry ≡ None) }
{
    match error {
        Error::OutOfMemory | Error::Io(_) | Error::PartialResult(_) => Err(AllocError),
        _ => Ok(false),
    }
}

// Whether a WebP file has more than one chunk of Exif data.
fn second_in_webp(alloc: Global, file: &[u8]) -> Result<bool, AllocError>
    ensures { IfOk result (λ has. has ≡ second_in_webp file.now) }
{
    match inventory(alloc, file)? {
        Some(parts) => Ok(exif_parts(parts.as_slice()) > 1),
        None => Ok(false),
    }
}

// How many parts hold Exif data.
fn exif_parts(parts: &[Part]) -> usize
    ensures { result ≡ length (filter is_exif parts.now) }
{
    parts
        .iter()
        .filter(|part| matches!(part.kind, Kind::Exif))
        .count()
}

//! The preview of a CR3 file of Canon. There is no public standard of it: what is said of it is
//! what its files hold.

ghost use Rattle.std.specs.Prelude.{◌≡◌, ◌≤◌, true, length, option_map, IfOk, IfErr, IfSome, Ok};
ghost use Rattle.exif_base.specs.Reads.{Counts};
ghost use Rattle.exif_types.specs.Refusals.{Fails, is_io};
ghost use Rattle.exif_segments.specs.Answer.{IsNamed};
ghost use Rattle.exif_formats.specs.Cr3.{cr3_refusals};
ghost use Rattle.exif_thumbnails.specs.Canon.{cr3_preview, is_preview, preview_in};
ghost use Rattle.exif_thumbnails.specs.Seen.{jpeg_within, shown};

use crate::place::MAX_THUMBNAIL_LEN;
use crate::reading::Thumbnail;
use exif_base::{BigEndian, Endian, Source};
use exif_formats::raw::cr3::find_front;
use exif_types::Error;
use std::alloc::{AllocError, Global};

// Canon's type of the `uuid` box that holds the preview.
const PREVIEW: [u8; 16] = [
    0xea, 0xf4, 0x2b, 0x5e, 0x1c, 0x98, 0x4b, 0x88, 0xb9, 0xfb, 0xb7, 0xdc, 0x40, 0x6e, 0x4d, 0x16,
];

// How many bytes of that box come before the JPEG data.
const HEAD_LEN: usize = 32;

// How many bytes of that box are looked at: 1 MiB behind those.
const PREVIEW_LEN: u64 = 1_048_608;

/// JPEG data of so many bytes at the front of these: a copy.
pub fn jpeg_within(alloc: Global, len: u64, bytes: &[u8]) -> Result<Thumbnail, AllocError>
    ensures { IfOk result (λ found. shown found ≡ jpeg_within len bytes.now) }
{
    if len > u64::from(MAX_THUMBNAIL_LEN) {
        return Ok(Thumbnail::TooLong);
    }
    let len = len as usize;
    if bytes.len() < len {
        return Ok(Thumbnail::CutOff);
    }
    Ok(Thumbnail::Jpeg(Vec::from_slice(alloc, &bytes[..len])?))
}

// Whether what the box of the type holds is a preview.
fn is_preview(held: &[u8]) -> bool
    ensures value { result ≡ is_preview held.now }
    ensures long { result ≡ true → 32 ≤ length held.now }
{
    held.len() >= HEAD_LEN && held[12..16] == b"PRVW"[..]
}

// The preview in what the box of the type holds.
fn preview_in(alloc: Global, held: &[u8]) -> Result<Option<Thumbnail>, AllocError>
    ensures { IfOk result (λ preview. option_map shown preview ≡ preview_in held.now) }
{
    if !is_preview(held) {
        return Ok(None);
    }
    let len = u64::from(BigEndian::loadu32(held, 28));
    Ok(Some(jpeg_within(alloc, len, &held[HEAD_LEN..])?))
}

/// The preview of a CR3 file: the JPEG data in the first `uuid` box of the file itself that has the
/// type eaf42b5e-1c98-4b88-b9fb-b7dc406e4d16. Behind the type are 8 bytes, and the box `PRVW`: its
/// length is in bytes 12 to 15 of that box's payload, and the data follow. `None` where there is no
/// such box.
///
/// Data of more than [`MAX_THUMBNAIL_LEN`] bytes are not read. Refusals are those of
/// [`find_thumbnail`](exif_formats::raw::cr3::find_thumbnail) up to that box, which is to be whole,
/// too; boxes before it are skipped without memory.
pub fn read_cr3_preview<R: Source>(
    alloc: Global,
    source: &mut R,
) -> Result<Option<Thumbnail>, Error>
    ensures found { IfOk result (λ preview. IfSome (R.left source.old)
        (λ file. cr3_preview file ≡ Ok (option_map shown preview))) }
    ensures refused { IfErr result
        (λ e. IfSome (R.left source.old) (λ file. Fails e (cr3_preview file))) }
    ensures named { IfErr result (IsNamed cr3_refusals) }
    ensures counts { Counts R.Source source.old source.new (is_io result) }
{
    let Some(held) = find_front(alloc, source, b"uuid", &PREVIEW, PREVIEW_LEN)? else {
        return Ok(None);
    };
    Ok(preview_in(alloc, &held)?)
}

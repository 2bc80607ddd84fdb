//! The formats of pictures, and their signatures.

ghost use Rattle.std.specs.Prelude.{◌≡◌, take};
ghost use Rattle.exif_formats.specs.Formats.{begins_jpeg_xl, begins_orf, begins_rw2, format_in, format_name, other_format_in};

use crate::jxl::{is_codestream, is_jxl};
use crate::raw::cr3::is_cr3;
use crate::raw::raf::is_raf;
use exif_containers::container::{self, Format, SNIFF_LEN};
use exif_containers::png::is_png;

/// A format of pictures.
#[derive(Clone, Copy, Debug, PartialEq, Eq)]
pub enum PictureFormat {
    /// A container of Exif data that the reader knows: a JPEG stream, a HEIF, AVIF or WebP file, or
    /// TIFF data, as most raw files are.
    Container(Format),
    /// A PNG file.
    Png,
    /// A JPEG XL file, in its container or as a codestream.
    JpegXl,
    /// A raw file of Fujifilm.
    Raf,
    /// A raw file of Olympus.
    Orf,
    /// A raw file of Panasonic.
    Rw2,
    /// A raw file of Canon (CR3).
    Cr3,
}

impl PictureFormat {
    /// Its name.
    pub fn name(self) -> &'static str
        ensures { result.now ≡ format_name self }
    {
        match self {
            PictureFormat::Container(Format::Tiff) => "TIFF",
            PictureFormat::Container(Format::Jpeg) => "JPEG",
            PictureFormat::Container(Format::Heif) => "HEIF",
            PictureFormat::Container(Format::WebP) => "WebP",
            PictureFormat::Png => "PNG",
            PictureFormat::JpegXl => "JPEG XL",
            PictureFormat::Raf => "RAF",
            PictureFormat::Orf => "ORF",
            PictureFormat::Rw2 => "RW2",
            PictureFormat::Cr3 => "CR3",
        }
    }
}

// Whether bytes begin a JPEG XL file.
fn begins_jpeg_xl(bytes: &[u8]) -> bool
    ensures { result ≡ begins_jpeg_xl bytes.now }
{
    is_jxl(bytes) || is_codestream(bytes)
}

// Whether bytes begin a raw file of Olympus: TIFF data with another number in place of 42.
fn begins_orf(bytes: &[u8]) -> bool
    ensures { result ≡ begins_orf bytes.now }
{
    bytes.len() >= 4
        && (bytes[..4] == b"IIRO"[..] || bytes[..4] == b"IIRS"[..] || bytes[..4] == b"MMOR"[..])
}

// Whether bytes begin a raw file of Panasonic, so too.
fn begins_rw2(bytes: &[u8]) -> bool
    ensures { result ≡ begins_rw2 bytes.now }
{
    bytes.len() >= 4 && bytes[..4] == b"IIU\0"[..]
}

// The format that begins with these bytes, beside the containers of `exif_containers`.
#[tactic(auto, unfolding(crate::specs::Formats::other_format_in))]
fn other_format_of(signature: &[u8]) -> Option<PictureFormat>
    ensures { result ≡ other_format_in signature.now }
{
    if is_png(signature) {
        Some(PictureFormat::Png)
    } else if begins_jpeg_xl(signature) {
        Some(PictureFormat::JpegXl)
    } else if is_raf(signature) {
        Some(PictureFormat::Raf)
    } else if begins_orf(signature) {
        Some(PictureFormat::Orf)
    } else if begins_rw2(signature) {
        Some(PictureFormat::Rw2)
    } else if is_cr3(signature) {
        Some(PictureFormat::Cr3)
    } else {
        None
    }
}

/// The format that begins with these bytes, of which 4096 suffice. A container is what
/// [`exif_containers::container::format_of`] answers.
#[tactic(auto, unfolding(crate::specs::Formats::format_in))]
pub fn format_of(signature: &[u8]) -> Option<PictureFormat>
    ensures { result ≡ format_in signature.now }
{
    match container::format_of(signature) {
        Some(format) => Some(PictureFormat::Container(format)),
        None => other_format_of(signature),
    }
}

/// The format of a file in memory, by its first 4096 bytes.
pub fn format_of_file(file: &[u8]) -> Option<PictureFormat>
    ensures { result ≡ format_in (take 4096 file.now) }
{
    format_of(&file[..SNIFF_LEN.min(file.len())])
}

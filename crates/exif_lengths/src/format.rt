//! The format of a file whose pieces are known.

ghost use Rattle.std.specs.Prelude.{◌≡◌, ◌<◌, ◌≤◌, length};
ghost use Rattle.exif_lengths.specs.Formats.{format_of, step_at};

use crate::jpeg::jpeg_step;
use crate::jxl::jxl_step;
use crate::png::{color_of, png_step};
use crate::step::Step;
use crate::webp::webp_step;
use exif_inventory::{is_jpeg, is_jxl, is_png, is_webp};

/// The format of a file.
#[derive(Clone, Copy)]
pub enum Format {
    /// A JPEG stream, or more than one.
    Jpeg,
    /// A WebP file.
    Webp,
    /// A PNG file whose pixels are of this colour type.
    Png(u8),
    /// A JPEG XL file in its container.
    Jxl,
}

/// The format of a file, if it is one of these.
pub fn format_of(file: &[u8]) -> Option<Format>
    ensures { result ≡ format_of file.now }
{
    if is_jpeg(file) {
        Some(Format::Jpeg)
    } else if is_webp(file) {
        Some(Format::Webp)
    } else if is_png(file) {
        Some(Format::Png(color_of(file)))
    } else if is_jxl(file) {
        Some(Format::Jxl)
    } else {
        None
    }
}

/// The piece at the front of bytes of a picture.
pub fn step_at(format: Format, scanning: bool, bytes: &[u8]) -> Step
    requires { 0 < length bytes.now }
    ensures value { result ≡ step_at format scanning bytes.now }
    ensures some { 0 < result.len }
    ensures within { result.len ≤ length bytes.now }
{
    match format {
        Format::Jpeg => jpeg_step(scanning, bytes),
        Format::Webp => webp_step(bytes),
        Format::Png(color) => png_step(color, bytes),
        Format::Jxl => jxl_step(bytes),
    }
}

//! XMP packets and colour profiles put into a file in place of its own.

ghost use Rattle.std.specs.Prelude.{IfErr, IsSome};
ghost use Rattle.exif_types.specs.Refusals.{Gives, refusal_of};
ghost use Rattle.exif_blocks.specs.PutBlocks.{bytes_of, jpeg_with_profile, jpeg_with_xmp, webp_with, with_profile, with_xmp};
ghost use Rattle.exif_blocks.specs.PutViews.{packet_view, profile_view};

use crate::blocks::{Block, Container, Profile, Xmp};
use crate::jpeg::{jpeg_with, profile_segments, xmp_segments};
use crate::jxl::jxl_with_xmp;
use crate::png::{png_with_profile, png_with_xmp};
use crate::webp::{webp_with_profile, webp_with_xmp};
use exif_types::Error;
use std::alloc::Global;

// The JPEG file with this packet in place of its own.
fn jpeg_with_xmp(alloc: Global, xmp: &Xmp, file: &[u8]) -> Result<Vec<u8>, Error>
    ensures { Gives (λ v. v.items) result (jpeg_with_xmp (packet_view xmp.now) file.now) }
{
    let segments = xmp_segments(alloc, xmp)?;
    jpeg_with(alloc, Block::Xmp, segments.as_slice(), file)
}

// The bytes of a profile that is not compressed.
fn bytes_of(profile: &Profile) -> Result<&[u8], Error>
    ensures made { Gives (λ bytes. bytes.now) result (bytes_of (profile_view profile.now)) }
    ensures refused { IfErr result (λ e. IsSome (refusal_of e)) }
{
    match profile {
        Profile::Plain(bytes) => Ok(bytes.as_slice()),
        Profile::Compressed(_) => Err(Error::NotSupported(
            "the compressed colour profile of a PNG file is copied into PNG files only",
        )),
    }
}

// The JPEG file with this profile in place of its own.
fn jpeg_with_profile(alloc: Global, profile: &Profile, file: &[u8]) -> Result<Vec<u8>, Error>
    ensures { Gives (λ v. v.items) result (jpeg_with_profile (profile_view profile.now) file.now) }
{
    let bytes = bytes_of(profile)?;
    let segments = profile_segments(alloc, bytes)?;
    jpeg_with(alloc, Block::Profile, segments.as_slice(), file)
}

// The WebP file with this profile in place of its own.
fn webp_with(alloc: Global, profile: &Profile, file: &[u8]) -> Result<Vec<u8>, Error>
    ensures { Gives (λ v. v.items) result (webp_with (profile_view profile.now) file.now) }
{
    let bytes = bytes_of(profile)?;
    webp_with_profile(alloc, bytes, file)
}

/// The file with this XMP packet in place of its own, behind the Exif data of the first picture,
/// and in a PNG file behind the image header. A JPEG file loses the segments that go on with its
/// packet, a WebP file gets the flag of a packet in its header, and a PNG or JPEG XL file loses
/// compressed packets, too. All other bytes stay, in their order.
///
/// Where there are no Exif data, the packet is where [`exif_parts::rewrite_jpeg`],
/// [`exif_parts::rewrite_webp`] and [`exif_parts::rewrite_jxl`] put them: in a JPEG file in front of
/// the first marker segment that is no APP0, in a WebP file behind all chunks, in a JPEG XL file
/// behind the box of the file's type.
///
/// It takes the memory of the new file, of the packet and of the list of the file's parts.
///
/// # Errors
///
/// `TooBig` with `XMP packet too large`: a JPEG file takes 65,502 bytes. `NotSupported` for a
/// packet in several segments where the file is no JPEG file, for a WebP file without the
/// extended header, and for a JPEG XL codestream without a container. `InvalidFormat` where the
/// bytes are no such file: `Broken JPEG file`, `Not a JPEG file`, `Broken WebP file`, `Not a WebP
/// file`, `Invalid header file size`, `Broken PNG file`, `Not a PNG file`, `Invalid chunk
/// length`, `PNG file without an image header`, `Broken JPEG XL file`, `Not a JPEG XL file`.
/// `OutOfMemory`.
pub fn with_xmp(
    alloc: Global,
    container: Container,
    xmp: &Xmp,
    file: &[u8],
) -> Result<Vec<u8>, Error>
    ensures { Gives (λ v. v.items) result (with_xmp container (packet_view xmp.now) file.now) }
{
    match container {
        Container::Jpeg => jpeg_with_xmp(alloc, xmp, file),
        Container::Png => png_with_xmp(alloc, xmp, file),
        Container::WebP => webp_with_xmp(alloc, xmp, file),
        Container::JpegXl => jxl_with_xmp(alloc, xmp, file),
    }
}

/// The file with this colour profile in place of its own: in a JPEG file where [`with_xmp`] puts
/// a packet, in up to 255 segments of 65,519 bytes; in a WebP file behind the extended header,
/// with its flag; in a PNG file behind the image header, stored as a zlib stream. A PNG file
/// loses its chunks `sRGB` and `cICP`, which say its colours in another way. All other bytes
/// stay, in their order.
///
/// It is refused as [`with_xmp`] is, with `Colour profile too large` where it does not fit. The
/// compressed profile of a PNG file is put into PNG files only, as it is, and others are refused
/// with `NotSupported`, and so is each profile for a JPEG XL file, whose colours are in its
/// codestream. It takes the memory of the new file, of the profile and of the list of the file's
/// parts.
pub fn with_profile(
    alloc: Global,
    container: Container,
    profile: &Profile,
    file: &[u8],
) -> Result<Vec<u8>, Error>
    ensures { Gives (λ v. v.items) result
        (with_profile container (profile_view profile.now) file.now) }
{
    match container {
        Container::Jpeg => jpeg_with_profile(alloc, profile, file),
        Container::Png => png_with_profile(alloc, profile, file),
        Container::WebP => webp_with(alloc, profile, file),
        Container::JpegXl => Err(Error::NotSupported(
            "no colour profile is put into a JPEG XL file, whose colours are in its codestream",
        )),
    }
}

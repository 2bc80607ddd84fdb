//! The XMP packet and the colour profile of one picture copied into another one, beside its Exif
//! data.

ghost use Rattle.std.specs.Prelude.{◌≡◌, Some};
ghost use Rattle.exif_types.specs.Refusals.{Gives, refusal_of};
ghost use Rattle.exif_change.specs.Changed.{change_of};
ghost use Rattle.exif_change.specs.Refusals.{Answers};
ghost use Rattle.exif_copy.specs.Blocks.{container_for, no_container, packet_checked, packet_put, profile_checked, profile_put, source_checked};
ghost use Rattle.exif_copy.specs.Selected.{selected, with_color, with_packet};

use crate::copying::{Shape, copy_exif};
use crate::found::exif_found;
use crate::placing::as_read;
use crate::xmp_icc::{Container, profile_of, with_profile, with_xmp, xmp_of};
use exif::Error;
use exif_change::{Changed, Refusal};
use exif_formats::{Format, PictureFormat, format_of_file};
use std::alloc::Global;

/// What of a picture is copied.
#[derive(Clone, Copy, Debug)]
pub struct Selection {
    /// Which picture the Exif data describe, which are always copied.
    pub shape: Shape,
    /// Whether the XMP packet is copied.
    pub xmp: bool,
    /// Whether the colour profile is copied.
    pub color_profile: bool,
}

// The container of a file, if a packet can be put into it.
fn container_for(file: &[u8]) -> Option<Container>
    ensures { result ≡ container_for file.now }
{
    match format_of_file(file) {
        Some(PictureFormat::Container(Format::Jpeg)) => Some(Container::Jpeg),
        Some(PictureFormat::Png) => Some(Container::Png),
        Some(PictureFormat::Container(Format::WebP)) => Some(Container::WebP),
        Some(PictureFormat::JpegXl) => Some(Container::JpegXl),
        _ => None,
    }
}

// Why nothing is put into other files.
fn no_container() -> Error
    ensures { refusal_of result ≡ Some no_container }
{
    Error::NotSupported(
        "packets and profiles are copied into JPEG, WebP, PNG and JPEG XL files only",
    )
}

// A changed file with the XMP packet of a picture.
fn packet_put(alloc: Global, from: &[u8], changed: Changed) -> Result<Changed, Error>
    ensures { Gives change_of result (packet_put from.now (change_of changed)) }
{
    let Changed { file, left } = changed;
    let Some(container) = container_for(file.as_slice()) else {
        return Err(no_container());
    };
    let xmp = xmp_of(alloc, from)?;
    let file = with_xmp(alloc, container, &xmp, file.as_slice())?;
    Ok(Changed { file, left })
}

// A changed file with the colour profile of a picture.
fn profile_put(alloc: Global, from: &[u8], changed: Changed) -> Result<Changed, Error>
    ensures { Gives change_of result (profile_put from.now (change_of changed)) }
{
    let Changed { file, left } = changed;
    let Some(container) = container_for(file.as_slice()) else {
        return Err(no_container());
    };
    let profile = profile_of(alloc, container_for(from), from)?;
    let file = with_profile(alloc, container, &profile, file.as_slice())?;
    Ok(Changed { file, left })
}

// The packet, if it is requested.
fn with_packet(
    alloc: Global,
    requested: bool,
    from: &[u8],
    changed: Changed,
) -> Result<Changed, Refusal>
    ensures { Answers change_of result (with_packet requested from.now (change_of changed)) }
{
    if requested {
        return as_read(packet_put(alloc, from, changed));
    }
    Ok(changed)
}

// The profile, if it is requested.
fn with_color(
    alloc: Global,
    requested: bool,
    from: &[u8],
    changed: Changed,
) -> Result<Changed, Refusal>
    ensures { Answers change_of result (with_color requested from.now (change_of changed)) }
{
    if requested {
        return as_read(profile_put(alloc, from, changed));
    }
    Ok(changed)
}

// Whether the packet of a picture is there, if it is requested.
fn check_packet(alloc: Global, requested: bool, from: &[u8]) -> Result<(), Error>
    ensures { Gives (λ (u : Unit {0}). u) result (packet_checked requested from.now) }
{
    if requested {
        let _packet = xmp_of(alloc, from)?;
    }
    Ok(())
}

// Whether its profile is there, if it is requested.
fn check_profile(alloc: Global, requested: bool, from: &[u8]) -> Result<(), Error>
    ensures { Gives (λ (u : Unit {0}). u) result (profile_checked requested from.now) }
{
    if requested {
        let _profile = profile_of(alloc, container_for(from), from)?;
    }
    Ok(())
}

/// Whether a picture has all that is selected of it: its Exif data, its XMP packet, its colour
/// profile. What it lacks is the error, as [`copy_selected`] refuses it for each file. It takes the
/// memory of what is selected, one after the other.
pub fn check_source(alloc: Global, from: &[u8], selection: Selection) -> Result<(), Error>
    ensures { Gives (λ (u : Unit {0}). u) result (source_checked selection from.now) }
{
    let _exif = exif_found(alloc, from)?;
    check_packet(alloc, selection.xmp, from)?;
    check_profile(alloc, selection.color_profile, from)
}

/// The file `to` with the Exif data of the file `from` in place of its own, as [`copy_exif`] puts
/// them, and with the XMP packet and the colour profile of `from`, where they are selected, as
/// [`with_xmp`](crate::xmp_icc::with_xmp) and [`with_profile`](crate::xmp_icc::with_profile) put
/// them. All else stays as it is.
///
/// A file `from` without a packet or a profile that is selected is refused with
/// [`InvalidFormat`](exif::Error::InvalidFormat). Packets come from JPEG, PNG, WebP and JPEG XL
/// files, and profiles from JPEG, PNG and WebP files; other files are refused with
/// [`NotSupported`](exif::Error::NotSupported), and so are a packet in several segments for
/// another file than a JPEG file, the compressed profile of a PNG file for another file than a
/// PNG file, and each profile for a JPEG XL file, whose colours are in its codestream.
///
/// It takes the memory of [`copy_exif`], of what is copied, and of the new file once more.
pub fn copy_selected(
    alloc: Global,
    from: &[u8],
    to: &[u8],
    selection: Selection,
) -> Result<Changed, Refusal>
    ensures { Answers change_of result (selected selection from.now to.now) }
{
    let changed = copy_exif(alloc, from, to, selection.shape)?;
    let changed = with_packet(alloc, selection.xmp, from, changed)?;
    with_color(alloc, selection.color_profile, from, changed)
}

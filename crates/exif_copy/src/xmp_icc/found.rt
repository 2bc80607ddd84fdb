//! The XMP packet and the colour profile of a picture.

ghost use Rattle.std.specs.Prelude.{◌≡◌, ◌++◌, [], true, false, None, Some, IfErr, IfOk, IsSome, OnOk};
ghost use Rattle.std.specs.Option.{option_map};
ghost use Rattle.exif_types.specs.Refusals.{Gives, refusal_of};
ghost use Rattle.exif_copy.specs.Parts.{if_extension};
ghost use Rattle.exif_blocks.specs.PutViews.{packet_view, profile_view};
ghost use Rattle.exif_copy.specs.Packets.{extension_of, packet_in, xmp_of};
ghost use Rattle.exif_copy.specs.Profiles.{assembly_view, begun, chunk_found, finished, no_source, profile_in, profile_of, with_part, with_parts, with_segment};

use crate::xmp_icc::parts::{bytes_of, data_of, first_data, holds, is_extension};
use exif_blocks::{Block, Container, Profile, Xmp};
use exif_inventory::{Part, inventory};
use exif_types::Error;
use std::alloc::{AllocError, Global};

// ---- XMP

// Adds the bytes of a part, if it goes on with the packet.
fn add_extension(part: Part, file: &[u8], made: &mut Vec<u8>) -> Result<(), AllocError>
    ensures { OnOk result (made.new.items ≡ made.old.items ++ if_extension part file.now) }
{
    if is_extension(part) {
        made.extend_from_slice(bytes_of(part, file))?;
    }
    Ok(())
}

// The segments that go on with a packet.
fn extension_of(alloc: Global, parts: &[Part], file: &[u8]) -> Result<Vec<u8>, AllocError>
    ensures { IfOk result (λ made. made.items ≡ extension_of parts.now file.now []) }
{
    let mut made = Vec::new(alloc);
    for part in parts {
        add_extension(*part, file, &mut made)?;
    }
    Ok(made)
}

// The packet of a file of these parts.
fn packet_in(alloc: Global, parts: &[Part], file: &[u8]) -> Result<Xmp, Error>
    ensures { Gives packet_view result (packet_in parts.now file.now) }
{
    match first_data(Block::Xmp, parts, file) {
        Some(packet) => Ok(Xmp {
            packet: Vec::from_slice(alloc, packet)?,
            extension: extension_of(alloc, parts, file)?,
        }),
        None => Err(Error::InvalidFormat("File without an XMP packet")),
    }
}

/// The XMP packet of the first picture of a JPEG, PNG, WebP or JPEG XL file, with the segments of a
/// JPEG file that go on with it. A file without one is refused with `InvalidFormat`, and one of
/// another format with `NotSupported`. It takes the memory of the packet and of the list of parts.
pub fn xmp_of(alloc: Global, file: &[u8]) -> Result<Xmp, Error>
    ensures { Gives packet_view result (xmp_of file.now) }
{
    match inventory(alloc, file)? {
        Some(parts) => packet_in(alloc, parts.as_slice(), file),
        None => Err(Error::NotSupported(
            "XMP packets are copied from JPEG, PNG, WebP and JPEG XL files only",
        )),
    }
}

// ---- colour profiles

// The segments of a profile that were read so far.
#[derive(Drop)]
struct Assembly {
    // The number of the last one, from 1 on.
    number: u8,
    // How many there are in all, as the last one says.
    count: u8,
    // The bytes in them.
    bytes: Vec<u8>,
}

// Adds a segment, whose data are its number, how many there are, and bytes. It answers whether this
// is the next one.
fn add_segment(assembly: &mut Assembly, segment: &[u8]) -> Result<bool, AllocError>
    ensures next { IfOk result (λ next. next ≡ true
        → with_segment (assembly_view assembly.old) segment.now
        ≡ Some (assembly_view assembly.new)) }
    ensures other { IfOk result (λ next. next ≡ false
        → with_segment (assembly_view assembly.old) segment.now ≡ None) }
{
    let [number, count, bytes @ ..] = segment else {
        return Ok(false);
    };
    if *number == 0 || *number - 1 != assembly.number {
        return Ok(false);
    }
    assembly.bytes.extend_from_slice(bytes)?;
    assembly.number = *number;
    assembly.count = *count;
    Ok(true)
}

// The same of a part, if it is such a segment.
fn add_part(assembly: &mut Assembly, part: Part, file: &[u8]) -> Result<bool, AllocError>
    ensures next { IfOk result (λ next. next ≡ true
        → with_part (assembly_view assembly.old) part file.now
        ≡ Some (assembly_view assembly.new)) }
    ensures other { IfOk result (λ next. next ≡ false
        → with_part (assembly_view assembly.old) part file.now ≡ None) }
{
    if holds(Block::Profile, part) {
        return add_segment(assembly, data_of(part, file));
    }
    Ok(true)
}

// All segments of the profile of a JPEG file, if they are in order.
fn assembled(alloc: Global, parts: &[Part], file: &[u8]) -> Result<Option<Assembly>, AllocError>
    ensures { IfOk result (λ made. option_map assembly_view made
        ≡ with_parts begun parts.now file.now) }
{
    let mut assembly = Assembly {
        number: 0,
        count: 0,
        bytes: Vec::new(alloc),
    };
    for part in parts {
        if !add_part(&mut assembly, *part, file)? {
            return Ok(None);
        }
    }
    Ok(Some(assembly))
}

// The profile whose segments were read.
fn finished(assembly: Option<Assembly>) -> Result<Profile, Error>
    ensures made { Gives profile_view result (finished (option_map assembly_view assembly)) }
    ensures refused { IfErr result (λ e. IsSome (refusal_of e)) }
{
    let Some(assembly) = assembly else {
        return Err(Error::InvalidFormat("Broken colour profile"));
    };
    if assembly.number == 0 {
        return Err(Error::InvalidFormat("File without a colour profile"));
    }
    if assembly.number != assembly.count {
        return Err(Error::InvalidFormat("Broken colour profile"));
    }
    Ok(Profile::Plain(assembly.bytes))
}

// The bytes of the profile of a PNG or WebP file.
fn chunk_found(alloc: Global, parts: &[Part], file: &[u8]) -> Result<Vec<u8>, Error>
    ensures { Gives (λ v. v.items) result (chunk_found parts.now file.now) }
{
    match first_data(Block::Profile, parts, file) {
        Some(bytes) => Ok(Vec::from_slice(alloc, bytes)?),
        None => Err(Error::InvalidFormat("File without a colour profile")),
    }
}

// Why no profile is taken out of other files.
fn no_source() -> Error
    ensures { refusal_of result ≡ Some no_source }
{
    Error::NotSupported("colour profiles are copied from JPEG, PNG and WebP files only")
}

// The profile of a file of these parts.
fn profile_in(
    alloc: Global,
    container: Container,
    parts: &[Part],
    file: &[u8],
) -> Result<Profile, Error>
    ensures { Gives profile_view result (profile_in container parts.now file.now) }
{
    match container {
        Container::Jpeg => finished(assembled(alloc, parts, file)?),
        Container::Png => Ok(Profile::Compressed(chunk_found(alloc, parts, file)?)),
        Container::WebP => Ok(Profile::Plain(chunk_found(alloc, parts, file)?)),
        Container::JpegXl => Err(no_source()),
    }
}

/// The colour profile of the first picture of a JPEG, PNG or WebP file. A file without one,
/// and a profile whose segments in a JPEG file are not all there in order, is refused with
/// `InvalidFormat`, and a file of another format with `NotSupported`. It takes the memory of the
/// profile and of the list of parts.
pub fn profile_of(
    alloc: Global,
    container: Option<Container>,
    file: &[u8],
) -> Result<Profile, Error>
    ensures { Gives profile_view result (profile_of container file.now) }
{
    if let Some(container) = container {
        if let Some(parts) = inventory(alloc, file)? {
            return profile_in(alloc, container, parts.as_slice(), file);
        }
    }
    Err(no_source())
}
